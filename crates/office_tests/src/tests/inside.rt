//! An entry that takes access from three processes, one of which is inside, waits for that one alone: the two that are
//! outside do nothing meanwhile.

ghost use Rattle.std.specs.Prelude.{◌≡◌, ◌≤◌, IfOk, MatchOption, length};
ghost use Rattle.mx_closing.specs.Opening.{layout_of};
ghost use Rattle.mx_closing.specs.Preparing.{IsPrepared};
ghost use Rattle.mx_core.specs.declared.words.Stage.TheVariants.{Outside, Ready};
ghost use Rattle.mx_desc.specs.Openings.{AreFreshPasses};
ghost use Rattle.office_tests.specs.Keeping.{HasKept};
ghost use Rattle.rule_tests.specs.Passing.{AreNew, IsNew};

use mx_cam::Cam;
use mx_closing::{Prepared, prepare};
use mx_core::Outcome;
use mx_desc::{Pass, Passes, Referred};
use mx_office::{EnterError, Office, Opening, Sitting, open};
use mx_request::{Request, SharedRequest};
use mx_rule::Board;
use mx_script::{Session, read_session};
use mx_sdw::{Op, Ring, Word};
use mx_state::Entry;
use std::alloc::{AllocError, Global};
use std::marker::Brand;
use std::sync::ledger::Blank;
use std::sync::{Mutex, Wait};
use std::test::Fail;
use std::thread::{self, Threads};

// Three processes that may write `>a`, and a fourth that may change this. The setup has three entries.
const TEXT: &[u8] = b"multics 1\n\
    create_seg >a 64 4 4 4\n\
    set_acl >a *.*.* rw\n\
    set_acl > Smith.Ops.a sma\n\
    process Jones.Faculty.a\n\
    logout\n\
    process Brown.Faculty.a\n\
    logout\n\
    process Clerk.Post.a\n\
    logout\n\
    process Smith.Ops.a\n\
    logout\n\
    end\n";

// The number by which each of the three knows `>a`.
const SEGNO: u16 = 8;

// How often process 1 looks, from inside, whether the entry was answered.
const LOOKS: u32 = 1000;

// What a write came to.
#[derive(Clone, Copy, Debug, PartialEq, Eq)]
enum Came {
    Written,
    Denied,
    Missed(u32),
    Other,
}

fn outcome_of(referred: &Referred) -> Came {
    match referred {
        Referred::Seen(element) => match element.outcome {
            Outcome::Written { .. } => Came::Written,
            Outcome::Denied(_) => Came::Denied,
            _ => Came::Other,
        },
        Referred::Missing { by } => Came::Missed(*by),
    }
}

// What came of the scene.
#[derive(Clone, Copy, Debug, PartialEq, Eq)]
struct Told {
    /// The number of the entry.
    number: u32,
    /// Whether it was answered while process 1 was inside.
    early: bool,
    /// What the writes of process 1 from inside came to, before the entry and after all looks.
    inside: (Came, Came),
    /// What the next writes of processes 1 to 3 came to, and those after they were told.
    after: [(Came, Came); 3],
}

// A process outside, with room for so many references.
#[derive(Drop)]
struct Idle<B: Sitting> {
    pass: Pass<Entry, B>,
    cam: Cam,
    room: usize,
    ghost outside: { pass.view.stage ≡ Outside },
    ghost same: { cam ≡ pass.view.memory },
    ghost roomy: { room ≤ pass.spare },
}

// A process inside, with room for so many references.
#[derive(Drop)]
struct Busy<B: Sitting> {
    pass: Pass<Entry, B>,
    cam: Cam,
    room: usize,
    ghost ready: { pass.view.stage ≡ Ready },
    ghost same: { cam ≡ pass.view.memory },
    ghost roomy: { room ≤ pass.spare },
}

// A request: the number of its entry.
fn enter<R: Wait, B: Sitting>(
    rt: &R,
    alloc: Global,
    office: &Office<'_, B>,
    pass: &mut Pass<Entry, B>,
    ring: Ring,
    request: &SharedRequest,
) -> Result<u32, EnterError>
    ensures { HasKept pass.old pass.new }
{
    let served = office.enter(rt, alloc, pass, ring, request)?;
    Ok(served.number)
}

// A process is told of all entries, and its word settled.
fn settle<R: Wait, B: Sitting>(
    rt: &R,
    office: &Office<'_, B>,
    pass: &mut Pass<Entry, B>,
) -> Result<(), AllocError>
    ensures { HasKept pass.old pass.new }
{
    office.settle_for(rt, pass, SEGNO)
}

impl<B: Sitting> Idle<B> {
    // It makes the request of a line: the number of the entry, or 0 where the line is none.
    fn ask<R: Wait>(
        &mut self,
        rt: &R,
        alloc: Global,
        office: &Office<'_, B>,
        ring: Ring,
        line: &[u8],
    ) -> Result<u32, EnterError> {
        match Request::read(alloc, line)? {
            Some(request) => {
                let shared = SharedRequest::new(alloc, request)?;
                enter(rt, alloc, office, &mut self.pass, ring, &shared)
            }
            None => Ok(0),
        }
    }

    // It is told of all entries.
    fn hear<R: Wait>(&mut self, rt: &R, office: &Office<'_, B>) -> Result<(), AllocError> {
        settle(rt, office, &mut self.pass)
    }

    // It goes in.
    fn go_in(self, shared: &Board<Entry>) -> Busy<B>
        requires place { shared.now.table_id ≡ B.table }
        requires layout { shared.now.key.layout ≡ B.layout }
    {
        let Idle { pass, cam, room } = self;
        let (mut pass, mut cam) = (pass, cam);
        cam.enter(&mut pass, shared);
        Busy { pass, cam, room }
    }
}

impl<B: Sitting> Busy<B> {
    // It writes a word of `>a`, where it has room.
    fn write(&mut self, shared: &Board<Entry>, ring: Ring) -> Came
        requires place { shared.now.table_id ≡ B.table }
        requires layout { shared.now.key.layout ≡ B.layout }
    {
        if self.room == 0 {
            return Came::Other;
        }
        let referred = self.cam.refer(
            &mut self.pass,
            shared,
            SEGNO,
            Op::Write,
            ring,
            0,
            Word::zero(),
        );
        self.room -= 1;
        outcome_of(&referred)
    }

    // It goes out.
    fn go_out(self, shared: &Board<Entry>) -> Idle<B>
        requires place { shared.now.table_id ≡ B.table }
        requires layout { shared.now.key.layout ≡ B.layout }
    {
        let Busy { pass, cam, room } = self;
        let mut pass = pass;
        pass.leave(shared);
        Idle { pass, cam, room }
    }
}

// The passes of all processes, the last one last.
fn opened<B: Sitting>(passes: Passes<Entry, B>) -> Vec<Pass<Entry, B>>
    requires { AreFreshPasses B.start 1 passes }
    ensures { AreNew result.items }
{
    passes.into_items()
}

// The pass of the last process.
fn take_last<B: Sitting>(passes: &mut Vec<Pass<Entry, B>>) -> Option<Pass<Entry, B>>
    requires { AreNew passes.old.items }
    ensures last { MatchOption result (Unit {0}) (λ pass. IsNew pass) }
    ensures others { AreNew passes.new.items }
{
    passes.pop()
}

// A process that did nothing yet, with room for four references.
fn begin<B: Sitting>(pass: Option<Pass<Entry, B>>) -> Result<Idle<B>, AllocError>
    requires { MatchOption pass (Unit {0}) (λ one. IsNew one) }
{
    let Some(pass) = pass else {
        return Err(AllocError);
    };
    let mut pass = pass;
    pass.reserve(4)?;
    Ok(Idle {
        pass,
        cam: Cam::new(),
        room: 4,
    })
}

// Process 1 looks from inside whether the entry was answered, writes, and goes out: whether it saw the answer, what its write
// came to, and itself.
fn stay<R: Wait, B: Sitting>(
    rt: &R,
    office: &Office<'_, B>,
    first: Busy<B>,
    ring: Ring,
    answered: &Mutex<bool>,
) -> (bool, Came, Idle<B>) {
    let mut first = first;
    let mut early = false;
    for _ in 0..LOOKS {
        if *answered.lock(rt) {
            early = true;
        }
        thread::yield_now();
    }
    let wrote = first.write(office.shared(), ring);
    if *answered.lock(rt) {
        early = true;
    }
    (early, wrote, first.go_out(office.shared()))
}

// Process 4 takes from the others the right to write, and tells once it is answered.
fn take_away<R: Wait, B: Sitting>(
    rt: &R,
    alloc: Global,
    office: &Office<'_, B>,
    fourth: Idle<B>,
    ring: Ring,
    answered: &Mutex<bool>,
) -> Result<u32, EnterError> {
    let mut fourth = fourth;
    let number = fourth.ask(rt, alloc, office, ring, b"set_acl >a *.*.* r");
    *answered.lock(rt) = true;
    number
}

// Both at once, each on a thread. Where no thread can be had, process 1 goes out before process 4 begins.
fn meet<R: Threads + Wait + Sync, B: Sitting + Send + Sync>(
    rt: &R,
    alloc: Global,
    office: &Office<'_, B>,
    first: Busy<B>,
    fourth: Idle<B>,
    ring: Ring,
    answered: &Mutex<bool>,
) -> (Result<u32, EnterError>, (bool, Came, Idle<B>)) {
    thread::join(
        rt,
        move || take_away(rt, alloc, office, fourth, ring, answered),
        move || stay(rt, office, first, ring, answered),
    )
}

// What a process's next write came to, and its write after it was told of all entries.
fn afterwards<R: Wait, B: Sitting>(
    rt: &R,
    office: &Office<'_, B>,
    process: Idle<B>,
    ring: Ring,
) -> Result<(Came, Came), AllocError> {
    let mut inside = process.go_in(office.shared());
    let next = inside.write(office.shared(), ring);
    let mut outside = inside.go_out(office.shared());
    outside.hear(rt, office)?;
    let mut again = outside.go_in(office.shared());
    Ok((next, again.write(office.shared(), ring)))
}

// The scene, at an office where all four are outside.
fn play<R: Threads + Wait + Sync, B: Sitting + Send + Sync>(
    rt: &R,
    alloc: Global,
    office: &Office<'_, B>,
    passes: Passes<Entry, B>,
    ring: Ring,
) -> Result<Told, EnterError>
    requires { AreFreshPasses B.start 1 passes }
{
    let mut passes = opened(passes);
    let fourth = begin(take_last(&mut passes))?;
    let mut third = begin(take_last(&mut passes))?;
    let mut second = begin(take_last(&mut passes))?;
    let mut first = begin(take_last(&mut passes))?;
    first.ask(rt, alloc, office, ring, b"initiate >a")?;
    second.ask(rt, alloc, office, ring, b"initiate >a")?;
    third.ask(rt, alloc, office, ring, b"initiate >a")?;
    let mut first = first.go_in(office.shared());
    let before = first.write(office.shared(), ring);
    let answered = Mutex::new(false);
    let (number, (early, wrote, first)) = meet(rt, alloc, office, first, fourth, ring, &answered);
    Ok(Told {
        number: number?,
        early,
        inside: (before, wrote),
        after: [
            afterwards(rt, office, first, ring)?,
            afterwards(rt, office, second, ring)?,
            afterwards(rt, office, third, ring)?,
        ],
    })
}

fn run<R: Threads + Wait + Sync, B: Sitting + Send + Sync>(
    rt: &R,
    alloc: Global,
    session: &Session,
    prepared: Prepared<'_>,
    blank: Blank,
) -> Result<Told, EnterError>
    requires session { session.now ≡ B.session }
    requires prepared { IsPrepared B.session prepared }
    requires setup { prepared.supervisor.journal ≡ B.setup }
    requires start { B.start ≡ length B.setup }
    requires fits { prepared.words.shared.table_id ≡ B.table }
    requires layout { B.layout ≡ layout_of B.session }
    requires name { blank.name ≡ B.name }
    requires parts { blank.parts ≡ B.parts }
    requires each { B.parts ≡ B.layout.processes }
{
    let _limit = session.limit();
    let Opening {
        locked,
        words,
        passes,
        share: _share,
        part: _part,
    } = open::<B>(alloc, prepared, blank)?;
    let ring = Ring::new(4).ok_or(AllocError)?;
    let office = Office::new(alloc, locked, words)?;
    play(rt, alloc, &office, passes, ring)
}

fn scene<R: Threads + Wait + Sync>(
    rt: &R,
    alloc: Global,
    session: &Session,
) -> Result<Told, EnterError> {
    let prepared = prepare(alloc, session)?;
    let processes = session.principals().items().len() as u64;
    run::<R, Brand>(rt, alloc, session, prepared, Blank::new(processes))
}

#[test]
fn an_entry_waits_for_who_is_inside_alone(rt: HostRuntime) -> Result<(), Fail> {
    let session = read_session(rt.alloc(), TEXT)?;
    let expected = Told {
        number: 7,
        early: false,
        inside: (Came::Written, Came::Written),
        after: [(Came::Missed(7), Came::Denied); 3],
    };
    assert_eq!(rt; scene(&rt, rt.alloc(), &session)?, expected);
    Ok(())
}
