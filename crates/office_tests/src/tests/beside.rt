//! References take no lock: while an entry holds it, and waits for a process that is inside, another process does a
//! thousand lines.

ghost use Rattle.std.specs.Prelude.{◌≡◌, length};
ghost use Rattle.mx_closing.specs.Closing.{AreOfAll};
ghost use Rattle.mx_closing.specs.Opening.{layout_of};
ghost use Rattle.mx_closing.specs.Preparing.{IsPrepared};
ghost use Rattle.mx_core.specs.declared.words.Stage.TheVariants.{Outside, Ready};
ghost use Rattle.mx_desc.specs.Openings.{AreFreshPasses};
ghost use Rattle.mx_process.specs.Processes.{IsNewPass};
ghost use Rattle.mx_transcript.specs.Legal.{setup_entries};
ghost use Rattle.office_tests.specs.Keeping.{HasKept};

use mx_audit::AuditLog;
use mx_closing::{Prepared, prepare};
use mx_desc::{Pass, Passes, Referred};
use mx_office::{EnterError, Office, Opening, Sitting, open};
use mx_process::{Attending, Process};
use mx_request::{Request, SharedRequest};
use mx_rule::Board;
use mx_script::{Session, read_session};
use mx_sdw::{Op, Ring, Word};
use mx_state::Entry;
use std::alloc::{AllocError, Global};
use std::marker::Brand;
use std::sync::Wait;
use std::sync::atomic::{AtomicU64, Ordering};
use std::sync::ledger::Blank;
use std::test::Fail;
use std::thread::{self, Threads};

// Three processes that may write `>a`. The first may change this. The setup has three entries.
const FRONT: &[u8] = b"multics 1\n\
    create_seg >a 64 4 4 4\n\
    set_acl >a *.*.* rw\n\
    set_acl > Smith.Ops.a sma\n\
    process Smith.Ops.a\n\
    logout\n\
    process Brown.Faculty.a\n\
    initiate >a\n\
    lda 10|0\n";

const LOAD: &[u8] = b"lda 10|0\n";

const END: &[u8] = b"logout\n\
    process Clerk.Post.a\n\
    logout\n\
    end\n";

// The most bytes that the session has.
const MOST_BYTES: usize = 65_536;

// How many loads process 2 makes while the lock is held.
const LOADS: u32 = 1000;

// The number by which processes 1 and 3 know `>a`.
const SEGNO: u16 = 8;

// How often process 3 refers from inside until a reference is missed.
const REFERENCES: u32 = 2_000_000;

// How often whoever waits for another looks before it gives up.
const TURNS: u32 = 200_000_000;

// What the threads tell one another.
#[derive(Drop)]
struct Marks {
    /// Process 1 is about to make its entry.
    begun: AtomicU64,
    /// Its entry was answered.
    answered: AtomicU64,
    /// Process 2 is at its end.
    over: AtomicU64,
}

impl Marks {
    fn new() -> Marks {
        Marks {
            begun: AtomicU64::new(0),
            answered: AtomicU64::new(0),
            over: AtomicU64::new(0),
        }
    }
}

fn set(mark: &AtomicU64) {
    mark.store(1, Ordering::SeqCst);
}

fn is_set(mark: &AtomicU64) -> bool {
    mark.load(Ordering::SeqCst) == 1
}

// Looks until the mark is set, and says whether it was.
fn wait_for(mark: &AtomicU64) -> bool {
    for _ in 0..TURNS {
        if is_set(mark) {
            return true;
        }
        thread::yield_now();
    }
    false
}

// What came of the scene.
#[derive(Clone, Copy, Debug, PartialEq, Eq)]
struct Told {
    /// The number of the entry for which the lock was held.
    number: u32,
    /// Whether a reference from inside was missed, since when the lock was held.
    missed: bool,
    /// How many loads process 2 made.
    loads: u32,
    /// Whether they were made while the entry was not answered.
    beside: bool,
}

// A process outside.
#[derive(Drop)]
struct Outsider<B: Sitting> {
    pass: Pass<Entry, B>,
    ghost outside: { pass.view.stage ≡ Outside },
}

// A process inside.
#[derive(Drop)]
struct Insider<B: Sitting> {
    pass: Pass<Entry, B>,
    ghost ready: { pass.view.stage ≡ Ready },
}

// A request: the number of its entry.
fn enter<R: Wait, B: Sitting>(
    rt: &R,
    alloc: Global,
    office: &Office<'_, B>,
    pass: &mut Pass<Entry, B>,
    ring: Ring,
    request: &SharedRequest,
) -> Result<u32, EnterError>
    ensures { HasKept pass.old pass.new }
{
    let served = office.enter(rt, alloc, pass, ring, request)?;
    Ok(served.number)
}

impl<B: Sitting> Outsider<B> {
    // It makes the request of a line: the number of the entry, or 0 where the line is none.
    fn ask<R: Wait>(
        &mut self,
        rt: &R,
        alloc: Global,
        office: &Office<'_, B>,
        ring: Ring,
        line: &[u8],
    ) -> Result<u32, EnterError> {
        match Request::read(alloc, line)? {
            Some(request) => {
                let shared = SharedRequest::new(alloc, request)?;
                enter(rt, alloc, office, &mut self.pass, ring, &shared)
            }
            None => Ok(0),
        }
    }

    // It goes in.
    fn go_in(self, shared: &Board<Entry>) -> Insider<B>
        requires place { shared.now.table_id ≡ B.table }
        requires layout { shared.now.key.layout ≡ B.layout }
    {
        let Outsider { pass } = self;
        let mut pass = pass;
        pass.enter(shared);
        pass.load_connect(shared);
        Insider { pass }
    }
}

impl<B: Sitting> Insider<B> {
    // It loads a word of `>a` by the descriptor word: whether that was missed.
    fn misses(&mut self, shared: &Board<Entry>, ring: Ring) -> Result<bool, AllocError>
        requires place { shared.now.table_id ≡ B.table }
        requires layout { shared.now.key.layout ≡ B.layout }
    {
        self.pass.reserve(1)?;
        let referred = self
            .pass
            .refer(shared, SEGNO, Op::Read, ring, 0, Word::zero());
        Ok(match referred {
            Referred::Seen(_) => false,
            Referred::Missing { .. } => true,
        })
    }

    // It goes out.
    fn go_out(self, shared: &Board<Entry>)
        requires place { shared.now.table_id ≡ B.table }
        requires layout { shared.now.key.layout ≡ B.layout }
    {
        let Insider { pass } = self;
        let mut pass = pass;
        pass.leave(shared);
    }
}

// Three processes: the first enters, the second does lines, and the third is to be inside.
#[derive(Drop)]
struct Players<'a, B: Attending> {
    first: Outsider<B>,
    second: Process<'a, B, AuditLog>,
    third: Outsider<B>,
}

fn outside<B: Attending>(pass: Pass<Entry, B>) -> Outsider<B>
    requires { IsNewPass B.session pass }
{
    Outsider { pass }
}

// The three processes of these passes.
fn seated<'a, B: Attending>(
    alloc: Global,
    session: &'a Session,
    passes: Passes<Entry, B>,
) -> Result<Players<'a, B>, AllocError>
    requires session { session.now ≡ B.session }
    requires fresh { AreFreshPasses (setup_entries B.session) 1 passes }
    requires all { AreOfAll (length B.session.principals) passes }
{
    let mut first = None;
    let mut second = None;
    let mut third = None;
    for pass in passes.into_items() {
        match pass.process() {
            1 => first = Some(outside(pass)),
            2 => second = Some(Process::new(alloc, session, pass)?),
            _ => third = Some(outside(pass)),
        }
    }
    Ok(Players {
        first: first.ok_or(AllocError)?,
        second: second.ok_or(AllocError)?,
        third: third.ok_or(AllocError)?,
    })
}

// Does so many lines of a process, or all that are left: how many.
fn do_lines<R: Wait, B: Attending>(
    rt: &R,
    alloc: Global,
    office: &Office<'_, B>,
    process: &mut Process<'_, B, AuditLog>,
    lines: u32,
) -> Result<u32, AllocError> {
    for done in 0..lines {
        if process.beginning().is_none() {
            return Ok(done);
        }
        process.line(rt, alloc, office)?;
    }
    Ok(lines)
}

// Process 1 takes from process 3 the right to write, and tells once it is answered.
fn take_away<R: Wait, B: Attending>(
    rt: &R,
    alloc: Global,
    office: &Office<'_, B>,
    first: Outsider<B>,
    ring: Ring,
    marks: &Marks,
) -> Result<u32, EnterError> {
    let mut first = first;
    set(&marks.begun);
    let number = first.ask(rt, alloc, office, ring, b"set_acl >a Clerk.Post.a r");
    set(&marks.answered);
    number
}

// Process 3 stays inside until process 2 is at its end, or has not come to it after all turns: whether it has.
fn stay<B: Attending>(shared: &Board<Entry>, third: Insider<B>, marks: &Marks) -> bool
    requires place { shared.now.table_id ≡ B.table }
    requires layout { shared.now.key.layout ≡ B.layout }
{
    let over = wait_for(&marks.over);
    let beside = over && !is_set(&marks.answered);
    third.go_out(shared);
    beside
}

// Process 2 makes its loads, and tells that it is at its end.
fn load<R: Wait, B: Attending>(
    rt: &R,
    alloc: Global,
    office: &Office<'_, B>,
    second: Process<'_, B, AuditLog>,
    marks: &Marks,
) -> Result<u32, AllocError> {
    let mut second = second;
    let loads = do_lines(rt, alloc, office, &mut second, LOADS);
    set(&marks.over);
    loads
}

// Process 3 refers until a reference is missed: whether one was.
fn refer_until_missed<B: Attending>(
    shared: &Board<Entry>,
    third: &mut Insider<B>,
    ring: Ring,
) -> Result<bool, AllocError>
    requires place { shared.now.table_id ≡ B.table }
    requires layout { shared.now.key.layout ≡ B.layout }
{
    for _ in 0..REFERENCES {
        if third.misses(shared, ring)? {
            return Ok(true);
        }
    }
    Ok(false)
}

// What is done beside the entry: whether a reference from inside was missed, how many loads there were, and whether the entry was
// not answered meanwhile. Process 3 goes out in any case.
fn beside<R: Threads + Wait + Sync, B: Attending + Send + Sync>(
    rt: &R,
    alloc: Global,
    office: &Office<'_, B>,
    second: Process<'_, B, AuditLog>,
    third: Insider<B>,
    ring: Ring,
    marks: &Marks,
) -> Result<(bool, u32, bool), AllocError> {
    let mut third = third;
    wait_for(&marks.begun);
    let missed = refer_until_missed(office.shared(), &mut third, ring);
    if missed != Ok(true) {
        third.go_out(office.shared());
        return Ok((missed?, 0, false));
    }
    let (beside, loads) = thread::join(
        rt,
        move || stay(office.shared(), third, marks),
        move || load(rt, alloc, office, second, marks),
    );
    Ok((true, loads?, beside))
}

// The scene, at an office where all three are outside.
fn play<R: Threads + Wait + Sync, B: Attending + Send + Sync>(
    rt: &R,
    alloc: Global,
    office: &Office<'_, B>,
    players: Players<'_, B>,
    ring: Ring,
) -> Result<Told, EnterError> {
    let Players {
        first,
        second,
        third,
    } = players;
    let (mut first, mut second, mut third) = (first, second, third);
    first.ask(rt, alloc, office, ring, b"initiate >a")?;
    third.ask(rt, alloc, office, ring, b"initiate >a")?;
    do_lines(rt, alloc, office, &mut second, 2)?;
    let third = third.go_in(office.shared());
    let marks = Marks::new();
    let shown = &marks;
    let (number, came) = thread::join(
        rt,
        move || take_away(rt, alloc, office, first, ring, shown),
        move || beside(rt, alloc, office, second, third, ring, shown),
    );
    let (missed, loads, beside) = came?;
    Ok(Told {
        number: number?,
        missed,
        loads,
        beside,
    })
}

fn run<R: Threads + Wait + Sync, B: Attending + Send + Sync>(
    rt: &R,
    alloc: Global,
    session: &Session,
    prepared: Prepared<'_>,
    blank: Blank,
) -> Result<Told, EnterError>
    requires session { session.now ≡ B.session }
    requires prepared { IsPrepared B.session prepared }
    requires setup { prepared.supervisor.journal ≡ B.setup }
    requires start { B.start ≡ length B.setup }
    requires fits { prepared.words.shared.table_id ≡ B.table }
    requires layout { B.layout ≡ layout_of B.session }
    requires name { blank.name ≡ B.name }
    requires parts { blank.parts ≡ B.parts }
    requires each { B.parts ≡ B.layout.processes }
{
    let _limit = session.limit();
    let Opening {
        locked,
        words,
        passes,
        share: _share,
        part: _part,
    } = open::<B>(alloc, prepared, blank)?;
    let ring = Ring::new(4).ok_or(AllocError)?;
    let players = seated(alloc, session, passes)?;
    let office = Office::new(alloc, locked, words)?;
    play(rt, alloc, &office, players, ring)
}

fn scene<R: Threads + Wait + Sync>(
    rt: &R,
    alloc: Global,
    session: &Session,
) -> Result<Told, EnterError> {
    let prepared = prepare(alloc, session)?;
    let processes = session.principals().items().len() as u64;
    run::<R, Brand>(rt, alloc, session, prepared, Blank::new(processes))
}

// The session, whose text is short.
fn session(alloc: Global) -> Result<Session, AllocError> {
    let mut text = Vec::from_slice(alloc, FRONT)?;
    for _ in 0..LOADS {
        text.extend_from_slice(LOAD)?;
    }
    text.extend_from_slice(END)?;
    if text.len() > MOST_BYTES {
        return Err(AllocError);
    }
    read_session(alloc, &text).map_err(|_| AllocError)
}

#[test]
fn a_thousand_lines_beside_an_entry_that_waits(rt: HostRuntime) -> Result<(), Fail> {
    let session = session(rt.alloc())?;
    let expected = Told {
        number: 7,
        missed: true,
        loads: LOADS,
        beside: true,
    };
    assert_eq!(rt; scene(&rt, rt.alloc(), &session)?, expected);
    Ok(())
}
