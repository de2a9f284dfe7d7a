//! A message to no process that a request could name.

use mx_mail::{Mail, MailError};
use mx_sdw::Word;
use std::alloc::Global;
use std::test::Fail;

fn sent(alloc: Global, to: u8) -> Result<Option<MailError>, Fail> {
    let mut mail = Mail::new(alloc, 1)?;
    Ok(mail.send(1, to, Word::zero()).err())
}

#[test]
fn no_process_has_the_number_0(rt: HostRuntime) -> Result<(), Fail> {
    assert_eq!(rt; sent(rt.alloc(), 0)?, Some(MailError::NoProcess));
    Ok(())
}
