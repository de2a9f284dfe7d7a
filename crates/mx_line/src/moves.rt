//! What a line goes on at that was granted its call or return, and how its process goes on.

ghost use Rattle.std.specs.Prelude.{◌≡◌};
ghost use Rattle.mx_line.specs.Processes.{IsGrantedAt, going_at, gone};

use mx_ptr::Pointer;
use mx_script::Line;
use mx_sdw::Desc;
use mx_upcall::Control;

/// What a granted call or return goes on at: the target of its line.
#[derive(Clone, Copy)]
pub enum Going {
    Calls(Pointer),
    Returns(Pointer),
}

/// What a line that is granted its reference at its target goes on at; none for a line that is no call or return.
#[inline(always)]
pub(crate) fn going_at(line: &Line, target: &Pointer) -> Option<Going>
    ensures { result ≡ going_at line.now target.now }
{
    match line {
        Line::Call { .. } => Some(Going::Calls(*target)),
        Line::Return { .. } => Some(Going::Returns(*target)),
        Line::Ask(_)
        | Line::Set { .. }
        | Line::Epp { .. }
        | Line::Lda { .. }
        | Line::Sta { .. }
        | Line::Spri { .. }
        | Line::Fetch => None,
    }
}

/// The process goes on so, where it was granted it.
#[inline(always)]
pub(crate) fn go(control: &mut Control, going: &Going, desc: &Desc)
    requires { IsGrantedAt control.old going.now desc.now }
    ensures { control.new ≡ gone control.old going.now desc.now }
{
    match going {
        Going::Calls(target) => control.enter(target, desc),
        Going::Returns(target) => control.go_back(target),
    }
}
