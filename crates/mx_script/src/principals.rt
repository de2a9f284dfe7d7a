//! The processes of a session, as it brings them in.

ghost use Rattle.std.specs.Prelude.{◌≡◌, [], ◌∷◌, ◌++◌, OnErr, OnOk};
ghost use Rattle.mx_script.specs.Sessions.{entrant};
ghost use Rattle.mx_aim.specs.Classes.{lowest};

use mx_aim::Class;
use mx_list::Sequence;
use mx_name::Principal;
use mx_request::Entrant;
use std::alloc::{AllocError, Global};
use std::marker::Model;

/// Processes 1, 2, .. in order: the principal and the authorization of each.
#[derive(Drop)]
pub struct Principals {
    entrants: Sequence<Entrant>,
}

impl Model for Principals {
    ghost use Rattle.std.specs.Prelude.{List};
    ghost use Rattle.mx_request.specs.declared.entrants.Entrant.{Entrant as EntrantValue};

    ghost Value = { List EntrantValue };

    ghost view = { λ a. a.entrants };
}

impl Principals {
    /// No process. Takes no memory yet.
    pub fn new(alloc: Global) -> Principals
        ensures { result ≡ [] }
    {
        Principals {
            entrants: Sequence::new(alloc),
        }
    }

    /// The processes, to read.
    pub fn items(&self) -> &[Entrant]
        ensures { result.now ≡ self.now }
    {
        self.entrants.items()
    }

    /// One more process, with the lowest class. The only error is want of memory, which leaves the processes as they were.
    pub fn push(&mut self, who: Principal) -> Result<(), AllocError>
        ensures ok { OnOk result (self.new ≡ self.old ++ entrant who lowest ∷ []) }
        ensures err { OnErr result (self.new ≡ self.old) }
    {
        self.push_with(who, Class::lowest())
    }

    /// One more process, with this class. The only error is want of memory, which leaves the processes as they were.
    pub fn push_with(&mut self, who: Principal, class: Class) -> Result<(), AllocError>
        ensures ok { OnOk result (self.new ≡ self.old ++ entrant who class ∷ []) }
        ensures err { OnErr result (self.new ≡ self.old) }
    {
        self.entrants.push(Entrant {
            who,
            authorization: class,
        })
    }
}
