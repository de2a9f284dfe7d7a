//! Who may make a request.

ghost use Rattle.std.specs.Prelude.{◌≡◌};
ghost use Rattle.mx_request.specs.Classes.{class_of};

use crate::requests::Request;

/// Who may make a request. A session's setup has requests on paths alone, a process's script those of the first two
/// classes, and the journal all three.
#[derive(Clone, Copy)]
pub enum RequestClass {
    /// On a path of the hierarchy: the setup makes it, and every process.
    OfPath,
    /// On the state of a process: the process alone makes it.
    OfProcess,
    /// Entered for a process on the way of another line; no line of a session asks for it.
    OfSupervisor,
}

impl Request {
    /// Who may make the request.
    pub fn class(&self) -> RequestClass
        ensures { result ≡ class_of self.now }
    {
        match self {
            Request::CreateDir { .. } => RequestClass::OfPath,
            Request::CreateSeg { .. } => RequestClass::OfPath,
            Request::CreateObject { .. } => RequestClass::OfPath,
            Request::CreateLink { .. } => RequestClass::OfPath,
            Request::Rename { .. } => RequestClass::OfPath,
            Request::Delete { .. } => RequestClass::OfPath,
            Request::SetAcl { .. } => RequestClass::OfPath,
            Request::DelAcl { .. } => RequestClass::OfPath,
            Request::SetIacl { .. } => RequestClass::OfPath,
            Request::DelIacl { .. } => RequestClass::OfPath,
            Request::SetBrackets { .. } => RequestClass::OfPath,
            Request::SetDirBrackets { .. } => RequestClass::OfPath,
            Request::SetClass { .. } => RequestClass::OfPath,
            Request::Status { .. } => RequestClass::OfPath,
            Request::List { .. } => RequestClass::OfPath,
            Request::ChangeWdir { .. } => RequestClass::OfProcess,
            Request::SetRules { .. } => RequestClass::OfProcess,
            Request::Initiate { .. } => RequestClass::OfProcess,
            Request::Terminate { .. } => RequestClass::OfProcess,
            Request::Wakeup { .. } => RequestClass::OfProcess,
            Request::Block => RequestClass::OfProcess,
            Request::Link { .. } => RequestClass::OfSupervisor,
            Request::Resume => RequestClass::OfSupervisor,
            Request::Logout => RequestClass::OfProcess,
        }
    }
}
