//! Requests on what a process has of its own beside its known segments.

ghost use Rattle.std.specs.Prelude.{◌≡◌, ◌≤◌, ◌-◌, Some, length, slice_get, slice_set, vec_len, IfOk, OnErr};
ghost use Rattle.mx_request.specs.declared.requests.Request.TheVariants as ask;
ghost use Rattle.mx_state.specs.Plain.{answer};
ghost use Rattle.mx_state.specs.Requests.{plain};
ghost use Rattle.mx_fresh.specs.Told.{IsResolved};
ghost use Rattle.mx_state.specs.declared.states.ProcessState.{ProcessState as ProcessValue};

use crate::processes::{FreshProcess, own_caller, own_process};
use crate::supervisor::FreshState;
use mx_hier::HierError;
use mx_name::{Path, Pathname};
use mx_request::Reply;
use mx_sdw::Ring;
use mx_search::Rules;
use std::alloc::{AllocError, Global};

impl FreshState {
    /// Makes a directory the working directory.
    pub(crate) fn change_wdir(
        &mut self,
        alloc: Global,
        p: u8,
        ring: Ring,
        path: &Pathname,
    ) -> Result<Reply, AllocError>
        requires some { 1 ≤ p }
        requires process { p ≤ length self.old.processes }
        ensures answer { IfOk result (λ given. plain self.old p ring (ask.ChangeWdir path.now) ≡ answer given self.new) }
        ensures hierarchy { self.new.hierarchy ≡ self.old.hierarchy }
        ensures processes { length self.new.processes ≡ length self.old.processes }
        ensures err { OnErr result (self.new ≡ self.old) }
        ensures told { OnErr result (IsResolved self.old p ring (ask.ChangeWdir path.now)) }
    {
        let who = own_caller(own_process(self.processes.as_slice(), p), ring);
        let directory = match self.hierarchy.directory(alloc, &who, path) {
            Ok(directory) => directory,
            Err(HierError::Refused(why)) => return Ok(Reply::Refused(why)),
            Err(HierError::Memory) => return Err(AllocError),
        };
        move_to(&mut self.processes, p, directory);
        Ok(Reply::Done)
    }

    /// Makes these the search rules.
    pub(crate) fn set_rules(
        &mut self,
        p: u8,
        ring: Ring,
        rules: &Rules,
    ) -> Result<Reply, AllocError>
        requires some { 1 ≤ p }
        requires process { p ≤ length self.old.processes }
        ensures answer { IfOk result (λ given. plain self.old p ring (ask.SetRules rules.now) ≡ answer given self.new) }
        ensures hierarchy { self.new.hierarchy ≡ self.old.hierarchy }
        ensures processes { length self.new.processes ≡ length self.old.processes }
        ensures err { OnErr result (self.new ≡ self.old) }
    {
        let _process = own_process(self.processes.as_slice(), p);
        let rules = rules.copy()?;
        search_by(&mut self.processes, p, rules);
        Ok(Reply::Done)
    }
}

fn move_to(processes: &mut Vec<FreshProcess>, p: u8, directory: Path)
    requires some { 1 ≤ p }
    requires process { p ≤ vec_len processes.old }
    ensures moved { (process : ProcessValue) → slice_get processes.old.items (p - 1) ≡ Some process
        → processes.new.items ≡ slice_set processes.old.items (p - 1) (record process { working_directory = directory }) }
    ensures count { vec_len processes.new ≡ vec_len processes.old }
{
    processes[usize::from(p) - 1].working_directory = directory;
}

fn search_by(processes: &mut Vec<FreshProcess>, p: u8, rules: Rules)
    requires some { 1 ≤ p }
    requires process { p ≤ vec_len processes.old }
    ensures set { (process : ProcessValue) → slice_get processes.old.items (p - 1) ≡ Some process
        → processes.new.items ≡ slice_set processes.old.items (p - 1) (record process { rules = rules }) }
    ensures count { vec_len processes.new ≡ vec_len processes.old }
{
    processes[usize::from(p) - 1].rules = rules;
}
