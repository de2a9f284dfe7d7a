//! Why something was not shown.

use mx_io::WriteFault;
use std::alloc::AllocError;
use thiserror::Error;

/// Why something was not shown whole.
#[derive(Clone, Copy, Debug, PartialEq, Eq, Error)]
pub enum ShowError {
    #[error("the sink failed")]
    Fault,
    #[error("out of memory")]
    Memory,
}

impl From<AllocError> for ShowError {
    ghost use Rattle.std.specs.Prelude.{◌≡◌};
    ghost use Rattle.mx_show.specs.declared.errors.ShowError.TheVariants.{Memory};

    ghost from_gives = { λ _ e. e ≡ Memory };

    fn from(_: AllocError) -> ShowError {
        ShowError::Memory
    }
}

impl From<WriteFault> for ShowError {
    ghost use Rattle.std.specs.Prelude.{◌≡◌};
    ghost use Rattle.mx_show.specs.declared.errors.ShowError.TheVariants.{Fault};

    ghost from_gives = { λ _ e. e ≡ Fault };

    fn from(_: WriteFault) -> ShowError {
        ShowError::Fault
    }
}
