//! Which auditors a run has.

ghost use Rattle.mx_audit.specs.Accounts.{Account};
ghost use Rattle.std.specs.Prelude.{List, []};

use mx_office::Sitting;
use std::marker::Brand;

/// Names also what the auditors of a run had been told before it: the first is that of process 1.
pub trait Attending: Sitting {
    ghost accounts: { List Account };
}

impl Attending for Brand {
    ghost accounts = { [] };
}
