// Why a run stopped.
ghost use Rattle.std.specs.Prelude.{◌≡◌};
ghost use Rattle.vm_sim.specs.RunErrors.{error_of_config, error_of_input};
ghost use Rattle.vm_sim.specs.declared.run_error.RunError.TheVariants.{Memory, Write};

use std::alloc::AllocError;
use thiserror::Error;
use vm_config::ConfigError;
use vm_host::HostError;
use vm_streams::{InputError, WriteFailed};

/// Why a run stopped.
#[derive(Clone, Copy, Debug, PartialEq, Eq, Error)]
pub enum RunError {
    /// The configuration is refused, for another cause than memory.
    #[error("the configuration is refused: {0}")]
    Config(ConfigError),
    /// A read failed, or the input is too long.
    #[error("a read failed, or the input is too long")]
    Read,
    /// The writer failed: a write gave an error, or took nothing of some bytes.
    #[error("a write failed")]
    Write,
    /// Memory was refused.
    #[error("out of memory")]
    Memory,
    /// The number of workers is not 1 to 64.
    #[error("the number of workers is not 1 to 64")]
    Workers,
}

impl From<ConfigError> for RunError {
    ghost from_gives = { λ e r. r ≡ error_of_config e };

    fn from(error: ConfigError) -> RunError {
        match error {
            ConfigError::Memory => RunError::Memory,
            other => RunError::Config(other),
        }
    }
}

impl From<InputError> for RunError {
    ghost from_gives = { λ e r. r ≡ error_of_input e };

    fn from(error: InputError) -> RunError {
        match error {
            InputError::Failed | InputError::TooLong => RunError::Read,
            InputError::Memory => RunError::Memory,
        }
    }
}

impl From<WriteFailed> for RunError {
    ghost from_gives = { λ _ r. r ≡ Write };

    fn from(_error: WriteFailed) -> RunError {
        RunError::Write
    }
}

impl From<AllocError> for RunError {
    ghost from_gives = { λ _ r. r ≡ Memory };

    fn from(_error: AllocError) -> RunError {
        RunError::Memory
    }
}

impl From<HostError> for RunError {
    ghost from_gives = { λ _ r. r ≡ Memory };

    fn from(_error: HostError) -> RunError {
        RunError::Memory
    }
}
