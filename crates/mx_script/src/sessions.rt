//! Sessions: what a session text says.

ghost use Rattle.std.specs.Prelude.{◌≡◌, ◌<◌, ◌≤◌, ◌-◌, ◌^◌, Bool, true, false, IfSome, IfNone, IsSome, IsTrue, ◌↔◌, length, Option, None, Some, if◌then◌else◌};
ghost use Rattle.mx_script.specs.Sessions.{line_count, limit_of};

use crate::lines::Scripts;
use crate::outlines::{are_processes, is_limit, is_setup, is_version};
use crate::principals::Principals;
use mx_request::Requests;
use std::marker::Model;

/// A session: its version, the journal's limit where it sets one, what its setup asks for, and for each process its
/// principal, its authorization and its script. A value always has a version from 1 to 4, a setup of requests on paths, and 1
/// to 15 processes with a script each, which ends with its logout; authorizations and requests are those of the version.
#[derive(Drop)]
pub struct Session {
    version: u8,
    history: Option<u32>,
    setup: Requests,
    principals: Principals,
    scripts: Scripts,
}

impl Model for Session {
    ghost use Rattle.mx_script.specs.Sessions.{Outline, outline, IsSession};

    ghost Value = { Outline };

    ghost view = { λ a. outline a.version a.history a.setup a.principals a.scripts };

    ghost invariant = { λ a. IsSession (outline a.version a.history a.setup a.principals a.scripts) };
}

impl Session {
    ghost use Rattle.mx_script.specs.Sessions.{outline, session_of, IsSession};

    /// The session of these parts, with a version from 1 to 4, 1 to 15 processes and a limit of 1 to 262,143 entries if any;
    /// `None` exactly where they are not those of a session. A class other than the lowest is of version 2 on, and so is each
    /// request of its own version. Takes no memory.
    pub fn new(
        version: u8,
        history: Option<u32>,
        setup: Requests,
        principals: Principals,
        scripts: Scripts,
    ) -> Option<Session>
        requires { line_count (outline version history setup principals scripts) < 2 ^ 32 - 1 }
        ensures { result ≡ session_of (outline version history setup principals scripts) }
    {
        if is_version(version)
            && is_limit(history)
            && is_setup(version, setup.items())
            && are_processes(version, principals.items(), scripts.items())
        {
            Some(Session {
                version,
                history,
                setup,
                principals,
                scripts,
            })
        } else {
            None
        }
    }

    /// The version of the session, from 1 to 4.
    pub fn version(&self) -> u8
        ensures { result ≡ self.now.version }
    {
        self.version
    }

    /// The limit that the session sets the journal, `None` where it sets none.
    pub fn history(&self) -> Option<u32>
        ensures { result ≡ self.now.history }
    {
        self.history
    }

    /// The setup's requests, which the initializer makes in ring 0.
    pub fn setup(&self) -> &Requests
        ensures { result.now ≡ self.now.setup }
    {
        &self.setup
    }

    /// The processes, as the session brings them in.
    pub fn principals(&self) -> &Principals
        ensures value { result.now ≡ self.now.principals }
        ensures some { 1 ≤ length result.now }
        ensures most { length result.now ≤ 15 }
    {
        &self.principals
    }

    /// The scripts of the processes, as many as there are principals.
    pub fn scripts(&self) -> &Scripts
        ensures value { result.now ≡ self.now.scripts }
        ensures session { IsSession self.now }
    {
        &self.scripts
    }

    /// The greatest number of entries of the journal: `history`, or else 262,143.
    pub fn limit(&self) -> u32
        ensures value { result ≡ limit_of self.now }
        ensures most { result ≤ 262143 }
    {
        match self.history {
            None => 262_143,
            Some(limit) => limit,
        }
    }
}
