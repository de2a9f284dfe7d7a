//! A journal of 44 requests is played before both programs, as worked out by hand, and with a wrong reply in it.

use super::entrants::entrant;
use super::journal::{JOURNAL, WRONG};
use both_supervisors::{Came, play};
use std::test::Fail;

#[test]
fn both_reply_as_told_and_have_the_same_descriptors(rt: HostRuntime) -> Result<(), Fail> {
    let builder = entrant(b"Builder.SysDaemon.a", b"0:0")?;
    let jones = entrant(b"Jones.Faculty.a", b"0:0")?;
    let came = play(rt.alloc(), 3, &[builder, jones], JOURNAL)?;
    assert_eq!(rt; came, Came::AsTold);
    Ok(())
}

#[test]
fn a_wrong_reply_is_told(rt: HostRuntime) -> Result<(), Fail> {
    let builder = entrant(b"Builder.SysDaemon.a", b"0:0")?;
    let jones = entrant(b"Jones.Faculty.a", b"0:0")?;
    let came = play(rt.alloc(), 3, &[builder, jones], WRONG)?;
    assert_eq!(rt; came, Came::Otherwise(10));
    Ok(())
}

#[test]
fn an_entry_of_no_process_is_told(rt: HostRuntime) -> Result<(), Fail> {
    let builder = entrant(b"Builder.SysDaemon.a", b"0:0")?;
    let came = play(rt.alloc(), 3, &[builder], JOURNAL)?;
    assert_eq!(rt; came, Came::Otherwise(10));
    Ok(())
}

#[test]
fn a_text_without_a_journal_is_none(rt: HostRuntime) -> Result<(), Fail> {
    let builder = entrant(b"Builder.SysDaemon.a", b"0:0")?;
    let came = play(rt.alloc(), 3, &[builder], b"bad line 1\n")?;
    assert_eq!(rt; came, Came::NoJournal);
    Ok(())
}
