//! The parts of a session whose processes so far have logged out.

ghost use Rattle.std.specs.Prelude.{◌≡◌, ◌<◌, ◌-◌, ◌^◌, length, OnOk};
ghost use Rattle.mx_script.specs.Sessions.{session_of, line_count};
ghost use Rattle.mx_script.specs.Drafts.{set_up, with_process};

use crate::lines::{Script, Scripts};
use crate::principals::Principals;
use crate::sessions::Session;
use mx_request::{Entrant, Requests};
use std::alloc::{AllocError, Global};
use std::marker::Model;

/// The version, the limit, if any, the setup, and the processes that have logged out, each with its script.
#[derive(Drop)]
pub(crate) struct Parts {
    version: u8,
    history: Option<u32>,
    setup: Requests,
    principals: Principals,
    scripts: Scripts,
}

impl Model for Parts {
    ghost use Rattle.mx_script.specs.Sessions.{Outline, outline};

    ghost Value = { Outline };

    ghost view = { λ a. outline a.version a.history a.setup a.principals a.scripts };
}

impl Parts {
    /// A setup without processes.
    pub(crate) fn new(alloc: Global, version: u8, history: Option<u32>, setup: Requests) -> Parts
        ensures { result ≡ set_up version history setup }
    {
        Parts {
            version,
            history,
            setup,
            principals: Principals::new(alloc),
            scripts: Scripts::new(alloc),
        }
    }

    /// One more process. For want of memory the parts are of no use any more.
    pub(crate) fn add(&mut self, entrant: Entrant, script: Script) -> Result<(), AllocError>
        ensures { OnOk result (self.new ≡ with_process self.old entrant script) }
    {
        self.principals
            .push_with(entrant.who, entrant.authorization)?;
        self.scripts.push(script)
    }

    /// The version.
    pub(crate) fn version(&self) -> u8
        ensures { result ≡ self.now.version }
    {
        self.version
    }

    /// How many processes have logged out.
    pub(crate) fn processes(&self) -> usize
        ensures { result ≡ length self.now.principals }
    {
        self.principals.items().len()
    }

    /// The session of these parts, `None` where they are not those of one.
    pub(crate) fn into_session(self) -> Option<Session>
        requires { line_count self < 2 ^ 32 - 1 }
        ensures { result ≡ session_of self }
    {
        Session::new(
            self.version,
            self.history,
            self.setup,
            self.principals,
            self.scripts,
        )
    }
}
