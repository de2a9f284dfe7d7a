//! Where in a session text a line stands, and what may stand there.

ghost use Rattle.std.specs.Prelude.{◌≡◌, ◌+◌, ◌-◌, ◌^◌, ◌<◌, ◌≤◌, Some, None};
ghost use Rattle.std.specs.Option.{option_map};
ghost use Rattle.mx_lint.specs.Forms.{group_of};
ghost use Rattle.mx_lint.specs.Findings.{IsWhyNot};
ghost use Rattle.mx_lint.specs.Places.{behind, begun};

use crate::forms::{Form, Group};
use crate::orders::Order;

/// What stands before a line, all of it good.
#[derive(Clone, Copy)]
pub enum Place {
    /// Nothing.
    Start,
    /// The header alone.
    Headed,
    /// The header, and a limit or some of the setup.
    Setup,
    /// The script of the process of this number has begun.
    Script(u32),
    /// So many processes have logged out.
    LoggedOut(u32),
    /// `end`.
    Ended,
}

impl Place {
    /// The place behind one more good line, of this kind.
    pub(crate) fn behind(self, form: Option<Form>) -> Place
        requires { begun self < 2 ^ 32 - 1 }
        ensures place { result ≡ behind self (option_map group_of form) }
        ensures more { begun result ≤ begun self + 1 }
    {
        match form {
            Some(form) => self.behind_group(form.group()),
            None => self.behind_other(),
        }
    }

    fn behind_group(self, group: Group) -> Place
        requires { begun self < 2 ^ 32 - 1 }
        ensures place { result ≡ behind self (Some group) }
        ensures more { begun result ≤ begun self + 1 }
    {
        match group {
            Group::Header => Place::Headed,
            Group::Process => Place::Script(self.begun() + 1),
            Group::Logout => Place::LoggedOut(self.begun()),
            Group::End => Place::Ended,
            Group::Limit | Group::OfPath | Group::OfProcess | Group::OfSupervisor => {
                self.behind_other()
            }
        }
    }

    // The place behind a line that is none of those that hold a session together.
    fn behind_other(self) -> Place
        ensures place { result ≡ behind self None }
        ensures more { begun result ≤ begun self }
    {
        match self {
            Place::Script(p) => Place::Script(p),
            Place::Start | Place::Headed | Place::Setup | Place::LoggedOut(_) | Place::Ended => {
                Place::Setup
            }
        }
    }

    // How many processes have begun.
    fn begun(self) -> u32
        ensures { result ≡ begun self }
    {
        match self {
            Place::Script(p) | Place::LoggedOut(p) => p,
            Place::Start | Place::Headed | Place::Setup | Place::Ended => 0,
        }
    }

    /// Why a line of this kind cannot stand here, if so.
    pub(crate) fn refuses(self, group: Group) -> Option<Order>
        ensures { IsWhyNot self group result }
    {
        match self {
            Place::Start => start_refuses(group),
            Place::Headed => headed_refuses(group),
            Place::Setup => setup_refuses(group),
            Place::Script(process) => script_refuses(process, group),
            Place::LoggedOut(processes) => logged_out_refuses(processes, group),
            Place::Ended => Some(Order::AfterEnd),
        }
    }

    /// What may come next.
    pub(crate) fn next(self) -> &'static str {
        match self {
            Place::Start => "`multics 1`, `multics 2`, `multics 3` or `multics 4`",
            Place::Headed => "`history H`, a setup line or `process PRINCIPAL [CLASS]`",
            Place::Setup => "a setup line or `process PRINCIPAL [CLASS]`",
            Place::Script(_) => "a script line or `logout`",
            Place::LoggedOut(_) => "`process PRINCIPAL [CLASS]` or `end`",
            Place::Ended => "nothing",
        }
    }
}

fn start_refuses(group: Group) -> Option<Order>
    ensures { IsWhyNot Place.Start group result }
{
    match group {
        Group::Header => None,
        _ => Some(Order::FirstIsHeader),
    }
}

fn headed_refuses(group: Group) -> Option<Order>
    ensures { IsWhyNot Place.Headed group result }
{
    match group {
        Group::Limit | Group::Process | Group::OfPath => None,
        Group::Header => Some(Order::HeaderOnce),
        Group::Logout => Some(Order::LogoutWithoutProcess),
        Group::End => Some(Order::EndWithoutProcess),
        Group::OfProcess => Some(Order::NoProcessYet),
        Group::OfSupervisor => Some(Order::OfSupervisor),
    }
}

fn setup_refuses(group: Group) -> Option<Order>
    ensures { IsWhyNot Place.Setup group result }
{
    match group {
        Group::Process | Group::OfPath => None,
        Group::Header => Some(Order::HeaderOnce),
        Group::Limit => Some(Order::HistorySecond),
        Group::Logout => Some(Order::LogoutWithoutProcess),
        Group::End => Some(Order::EndWithoutProcess),
        Group::OfProcess => Some(Order::NoProcessYet),
        Group::OfSupervisor => Some(Order::OfSupervisor),
    }
}

fn script_refuses(_process: u32, group: Group) -> Option<Order>
    ensures { IsWhyNot (Place.Script _process) group result }
{
    match group {
        Group::Logout | Group::OfPath | Group::OfProcess => None,
        Group::Header => Some(Order::HeaderOnce),
        Group::Limit => Some(Order::HistorySecond),
        Group::Process => Some(Order::ProcessInScript),
        Group::End => Some(Order::EndInScript),
        Group::OfSupervisor => Some(Order::OfSupervisor),
    }
}

fn logged_out_refuses(processes: u32, group: Group) -> Option<Order>
    ensures { IsWhyNot (Place.LoggedOut processes) group result }
{
    match group {
        Group::End => None,
        Group::Process if processes < 15 => None,
        Group::Process => Some(Order::Sixteenth),
        Group::Header => Some(Order::HeaderOnce),
        Group::Limit => Some(Order::HistorySecond),
        Group::Logout | Group::OfProcess => Some(Order::AfterLogout),
        Group::OfPath => Some(Order::SetupAfterProcess),
        Group::OfSupervisor => Some(Order::OfSupervisor),
    }
}
