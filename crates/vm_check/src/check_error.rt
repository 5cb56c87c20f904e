// Why a text was not checked.
ghost use Rattle.std.specs.Prelude.{◌≡◌};
ghost use Rattle.vm_check.specs.declared.check_error.CheckError.TheVariants.{Memory, Write};

use std::alloc::AllocError;
use thiserror::Error;
use vm_streams::WriteFailed;

/// Why a text was not checked.
#[derive(Clone, Copy, Debug, PartialEq, Eq, Error)]
pub enum CheckError {
    /// The sink failed.
    #[error("write failed")]
    Write,
    /// Memory was refused.
    #[error("out of memory")]
    Memory,
}

impl From<WriteFailed> for CheckError {
    ghost from_gives = { λ _ error. error ≡ Write };

    fn from(_: WriteFailed) -> Self {
        CheckError::Write
    }
}

impl From<AllocError> for CheckError {
    ghost from_gives = { λ _ error. error ≡ Memory };

    fn from(_: AllocError) -> Self {
        CheckError::Memory
    }
}
