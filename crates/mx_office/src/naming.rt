//! Which session a run is of.

ghost use Rattle.std.specs.Prelude.{List, [], None};
ghost use Rattle.mx_script.specs.Sessions.{Outline};
ghost use Rattle.mx_state.specs.declared.journal.Entry.{Entry as EntryValue};

use mx_desc::Naming;
use std::marker::Brand;

/// Names the session of a run, and the entries of its setup: so the types of all who take part say that they are of one
/// run.
pub trait Sitting: Naming {
    ghost session: { Outline };

    ghost setup: { List EntryValue };
}

impl Sitting for Brand {
    ghost session = { record { version = 0; history = None; setup = []; principals = []; scripts = [] } };

    ghost setup = { [] };
}
