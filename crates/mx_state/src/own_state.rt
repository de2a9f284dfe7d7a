//! Requests on what a process has of its own beside its known segments.

ghost use Rattle.std.specs.Prelude.{◌≡◌, ◌≤◌, ◌<◌, Some, None, length, slice_get, slice_set, vec_len, IfOk, OnErr};
ghost use Rattle.mx_request.specs.declared.requests.Request.TheVariants as ask;
ghost use Rattle.mx_state.specs.Askers.{asker};
ghost use Rattle.mx_state.specs.AtOnce.{pathless};
ghost use Rattle.mx_state.specs.Requests.{plain};
ghost use Rattle.mx_state.specs.Serving.{Serves};
ghost use Rattle.mx_state.specs.declared.states.ProcessState.{ProcessState as ProcessValue};

use crate::applied::Applied;
use crate::callers::{own_caller, process_in};
use crate::replies::refused;
use crate::states::{ProcessState, State};
use mx_name::{Path, Pathname};
use mx_request::Reply;
use mx_sdw::Ring;
use mx_search::Rules;
use std::alloc::{AllocError, Global};

impl State {
    /// Makes a directory the working directory: its path as it is written, not where its links lead.
    pub(crate) fn change_wdir(
        &mut self,
        alloc: Global,
        p: u8,
        ring: Ring,
        path: &Pathname,
    ) -> Result<Applied, AllocError>
        requires some { 1 ≤ p }
        requires process { p ≤ length self.old.processes }
        ensures served { IfOk result (Serves self.old self.new (plain self.old p ring (ask.ChangeWdir path.now))) }
        ensures told { OnErr result (pathless (asker self.old.processes p) ring path.now ≡ None) }
        ensures err { OnErr result (self.new ≡ self.old) }
    {
        let i = usize::from(p) - 1;
        let who = own_caller(process_in(self.processes.as_slice(), i), ring);
        let directory = match self.hier.directory(alloc, &who, path) {
            Ok(directory) => directory,
            Err(error) => return refused(alloc, error),
        };
        move_to(&mut self.processes, i, directory);
        Ok(Applied::unchanged(alloc, Reply::Done))
    }

    /// Makes these the search rules of the process.
    pub(crate) fn set_rules(
        &mut self,
        alloc: Global,
        p: u8,
        ring: Ring,
        rules: &Rules,
    ) -> Result<Applied, AllocError>
        requires some { 1 ≤ p }
        requires process { p ≤ length self.old.processes }
        ensures served { IfOk result (Serves self.old self.new (plain self.old p ring (ask.SetRules rules.now))) }
        ensures err { OnErr result (self.new ≡ self.old) }
    {
        let i = usize::from(p) - 1;
        let rules = rules.copy()?;
        search_by(&mut self.processes, i, rules);
        Ok(Applied::unchanged(alloc, Reply::Done))
    }
}

// Makes a directory the working directory of the process in a place.
fn move_to(processes: &mut Vec<ProcessState>, i: usize, directory: Path)
    requires within { i < vec_len processes.old }
    ensures moved { (process : ProcessValue) → slice_get processes.old.items i ≡ Some process
        → processes.new.items ≡ slice_set processes.old.items i (record process { working_directory = directory }) }
    ensures count { vec_len processes.new ≡ vec_len processes.old }
{
    processes[i].working_directory = directory;
}

// Makes these the search rules of the process in a place.
fn search_by(processes: &mut Vec<ProcessState>, i: usize, rules: Rules)
    requires within { i < vec_len processes.old }
    ensures set { (process : ProcessValue) → slice_get processes.old.items i ≡ Some process
        → processes.new.items ≡ slice_set processes.old.items i (record process { rules = rules }) }
    ensures count { vec_len processes.new ≡ vec_len processes.old }
{
    processes[i].rules = rules;
}
