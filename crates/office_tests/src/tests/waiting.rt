//! A process that waits for a message sleeps until there is one, or nobody who could send one, or the journal is full, or the
//! run is to end; and what others ask for in the meantime does not end its wait.

ghost use Rattle.std.specs.Prelude.{◌≡◌, length};
ghost use Rattle.mx_closing.specs.Opening.{layout_of};
ghost use Rattle.mx_closing.specs.Preparing.{IsPrepared};

use mx_closing::{Prepared, prepare};
use mx_desc::Pass;
use mx_office::{Blocked, Office, Opening, Sitting, open};
use mx_request::{Request, SharedRequest};
use mx_script::{Session, read_session};
use mx_sdw::Ring;
use mx_state::Entry;
use std::alloc::{AllocError, Global};
use std::marker::Brand;
use std::sync::Wait;
use std::sync::ledger::Blank;
use std::test::Fail;
use std::thread::{self, Threads};

// Two processes, whose journal has room for six entries after the one of the setup.
const TEXT: &[u8] = b"multics 1\n\
    history 7\n\
    create_seg >a 64 4 4 4\n\
    process Clerk.Post.a\n\
    logout\n\
    process Smith.Ops.a\n\
    logout\n\
    end\n";

// What process 2 asks for once process 1 waits, and whether it then ends the run; and what becomes of the `block` of process
// 1, whose entry is the second.
#[derive(Clone, Copy)]
struct Scene {
    lines: &'static [&'static [u8]],
    stops: bool,
    ended: Option<(Option<u32>, Option<u32>, bool)>,
}

const SCENES: [Scene; 5] = [
    Scene {
        lines: &[b"wakeup 1 7"],
        stops: false,
        ended: Some((Some(2), Some(4), false)),
    },
    Scene {
        lines: &[b"list >", b"initiate >a", b"wakeup 2 7", b"wakeup 1 7"],
        stops: false,
        ended: Some((Some(2), Some(7), false)),
    },
    Scene {
        lines: &[b"logout"],
        stops: false,
        ended: Some((Some(2), Some(4), false)),
    },
    Scene {
        lines: &[b"list >", b"list >", b"list >", b"list >", b"list >"],
        stops: false,
        ended: Some((Some(2), None, true)),
    },
    Scene {
        lines: &[b"list >"],
        stops: true,
        ended: None,
    },
];

// Process 1 asks for a message. Who meets want of memory ends the run.
fn wait<R: Wait, B: Sitting>(
    rt: &R,
    alloc: Global,
    office: &Office<'_, B>,
    pass: Pass<Entry, B>,
    ring: Ring,
) -> Option<Blocked> {
    let mut pass = pass;
    let blocked = office.block(rt, alloc, &mut pass, ring);
    if blocked.is_err() {
        office.stop(rt);
    }
    blocked.ok()
}

// The numbers of its entries, and whether it met the journal at its limit.
fn entries(blocked: &Blocked) -> (Option<u32>, Option<u32>, bool) {
    match blocked {
        Blocked::Shut => (None, None, true),
        Blocked::Answered(served) => (Some(served.number), None, false),
        Blocked::Resumed { entry, resume } => (Some(*entry), Some(resume.number), false),
        Blocked::CutShort { entry } => (Some(*entry), None, true),
    }
}

// How often process 2 asks whether process 1 waits. Where no thread can be had, process 1 comes after it.
const LOOKS: u32 = 1_000_000;

// Process 2 asks until it is told of more entries than so many: process 1 waits then. Says no where that never comes.
fn is_told<R: Wait, B: Sitting>(
    rt: &R,
    office: &Office<'_, B>,
    pass: &mut Pass<Entry, B>,
    length: u32,
) -> bool {
    for _ in 0..LOOKS {
        if office.settle_for(rt, pass, 0).is_err() {
            return false;
        }
        if pass.floor() > length {
            return true;
        }
        thread::yield_now();
    }
    false
}

fn asks<R: Wait, B: Sitting>(
    rt: &R,
    alloc: Global,
    office: &Office<'_, B>,
    pass: &mut Pass<Entry, B>,
    ring: Ring,
    line: &[u8],
) -> bool {
    match Request::read(alloc, line) {
        Ok(Some(request)) => match SharedRequest::new(alloc, request) {
            Ok(shared) => office.enter(rt, alloc, pass, ring, &shared).is_ok(),
            Err(_) => false,
        },
        _ => false,
    }
}

// Whether process 2 was given all that it asked for.
fn go_on<R: Wait, B: Sitting>(
    rt: &R,
    alloc: Global,
    office: &Office<'_, B>,
    pass: Pass<Entry, B>,
    ring: Ring,
    scene: &Scene,
) -> bool {
    let mut pass = pass;
    let mut went = is_told(rt, office, &mut pass, 1);
    for line in scene.lines {
        went = went && asks(rt, alloc, office, &mut pass, ring, line);
    }
    if scene.stops || !went {
        office.stop(rt);
    }
    went
}

// Both processes, each on a thread.
fn meet<R: Threads + Wait + Sync, B: Sitting + Send + Sync>(
    rt: &R,
    alloc: Global,
    office: &Office<'_, B>,
    first: Pass<Entry, B>,
    second: Pass<Entry, B>,
    ring: Ring,
    scene: &Scene,
) -> (Option<Blocked>, bool) {
    thread::join(
        rt,
        move || wait(rt, alloc, office, first, ring),
        move || go_on(rt, alloc, office, second, ring, scene),
    )
}

fn play<R: Threads + Wait + Sync, B: Sitting + Send + Sync>(
    rt: &R,
    alloc: Global,
    session: &Session,
    prepared: Prepared<'_>,
    blank: Blank,
    scene: &Scene,
) -> Result<(Option<Blocked>, bool), AllocError>
    requires session { session.now ≡ B.session }
    requires prepared { IsPrepared B.session prepared }
    requires setup { prepared.supervisor.journal ≡ B.setup }
    requires start { B.start ≡ length B.setup }
    requires fits { prepared.words.shared.table_id ≡ B.table }
    requires layout { B.layout ≡ layout_of B.session }
    requires name { blank.name ≡ B.name }
    requires parts { blank.parts ≡ B.parts }
    requires each { B.parts ≡ B.layout.processes }
{
    let _limit = session.limit();
    let Opening {
        locked,
        words,
        passes,
        share: _share,
        part: _part,
    } = open::<B>(alloc, prepared, blank)?;
    let ring = Ring::new(4).ok_or(AllocError)?;
    let office = Office::new(alloc, locked, words)?;
    let mut passes = passes.into_items();
    let second = passes.pop().ok_or(AllocError)?;
    let first = passes.pop().ok_or(AllocError)?;
    Ok(meet(rt, alloc, &office, first, second, ring, scene))
}

fn run<R: Threads + Wait + Sync>(
    rt: &R,
    alloc: Global,
    session: &Session,
    scene: &Scene,
) -> Result<(Option<Blocked>, bool), AllocError> {
    let prepared = prepare(alloc, session)?;
    let processes = session.principals().items().len() as u64;
    play::<R, Brand>(rt, alloc, session, prepared, Blank::new(processes), scene)
}

#[test]
fn who_waits_goes_on(rt: HostRuntime) -> Result<(), Fail> {
    let session = read_session(rt.alloc(), TEXT)?;
    for scene in SCENES {
        let (blocked, went) = run(&rt, rt.alloc(), &session, &scene)?;
        let ended = blocked.map(|blocked| entries(&blocked));
        assert!(rt; went && ended == scene.ended);
    }
    Ok(())
}

// The same, from the text on; nothing where memory was wanting before the two began.
fn ended<R: Threads + Wait + Sync>(
    rt: &R,
    alloc: Global,
    scene: &Scene,
) -> Option<(Option<Blocked>, bool)> {
    let session = read_session(alloc, TEXT).ok()?;
    run(rt, alloc, &session, scene).ok()
}

// Whatever memory is refused, both come to an end: who waits goes on by the message, or the run ends.
#[test]
fn nobody_is_left_waiting(rt: HostRuntime) -> Result<(), Fail> {
    let scene = SCENES[1];
    if let Some((Some(blocked), went)) = ended(&rt, rt.alloc(), &scene) {
        let ended = Some(entries(&blocked));
        assert!(rt; went && ended == scene.ended);
    }
    Ok(())
}
