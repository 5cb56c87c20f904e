// Why bytes are refused.
use std::alloc::AllocError;
use thiserror::Error;

/// Why bytes are no JSON value.
#[derive(Clone, Copy, Debug, PartialEq, Eq, Error)]
pub enum ReadError {
    /// They are no JSON text, nest too deep, or have a number beyond the floats.
    #[error("not a JSON text")]
    NotJson,
    /// Memory was refused.
    #[error("out of memory")]
    Memory,
}

impl From<AllocError> for ReadError {
    ghost use Rattle.std.specs.Prelude.{◌≡◌};
    ghost use Rattle.vm_json.specs.declared.error.ReadError.TheVariants.{Memory};

    ghost from_gives = { λ _ error. error ≡ Memory };

    fn from(_error: AllocError) -> ReadError {
        ReadError::Memory
    }
}
