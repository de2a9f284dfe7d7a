//! A log that is told of denials tells them again, in its box too.

ghost use Rattle.std.specs.Prelude.{◌≤◌};

use mx_audit::{AuditLog, Auditor, Verdict};
use mx_sdw::Denial;
use std::test::Fail;

// Whether an auditor that is told of two denials goes on, and tells them.
fn tells<A: Auditor>(auditor: &mut A) -> bool
    requires { 2 ≤ (A.account auditor.old).room }
{
    let first = auditor.denied(10, Denial::Gate) == Verdict::GoOn;
    let second = auditor.denied(12, Denial::ReadBracket) == Verdict::GoOn;
    first
        && second
        && auditor.count() == 2
        && auditor.told(0) == Some((10, Denial::Gate, Verdict::GoOn))
        && auditor.told(1) == Some((12, Denial::ReadBracket, Verdict::GoOn))
        && auditor.told(2).is_none()
}

#[test]
fn a_log_tells_what_it_was_told(rt: HostRuntime) -> Result<(), Fail> {
    let alloc = rt.alloc();
    let mut log = AuditLog::new(alloc, 2)?;
    let mut boxed: Box<dyn Auditor + Send> = Box::new(alloc, AuditLog::new(alloc, 2)?)?;
    assert_eq!(rt; [tells(&mut log), tells(&mut boxed)], [true, true]);
    Ok(())
}
