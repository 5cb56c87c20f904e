// Why the steering of a host has ended.
ghost use Rattle.std.specs.Prelude.{◌≡◌};
ghost use Rattle.vm_steer.specs.declared.steer_error.SteerError.TheVariants.{Memory, Write};
ghost use Rattle.vm_steer.specs.Streams.{error_of_log, error_of_policy};

use std::alloc::AllocError;
use thiserror::Error;
use vm_samples::{LogError, PolicyError, PolicyFault};
use vm_streams::WriteFailed;

/// Why the steering of a host has ended before its log.
#[derive(Clone, Copy, Debug, PartialEq, Eq, Error)]
pub enum SteerError {
    /// The policy is refused.
    #[error("{0}")]
    Policy(PolicyFault),
    /// The source failed.
    #[error("read failed")]
    Read,
    /// There are more than 16777216 bytes in front of a line `---` or behind the last one, or 2^64 such lines or more.
    #[error("the log is too long")]
    TooLong,
    /// The sink failed.
    #[error("write failed")]
    Write,
    /// Memory was refused.
    #[error("out of memory")]
    Memory,
}

impl From<LogError> for SteerError {
    ghost from_gives = { λ error own. own ≡ error_of_log error };

    fn from(error: LogError) -> Self {
        match error {
            LogError::Read => SteerError::Read,
            LogError::TooLong => SteerError::TooLong,
            LogError::Memory => SteerError::Memory,
        }
    }
}

impl From<PolicyError> for SteerError {
    ghost from_gives = { λ error own. own ≡ error_of_policy error };

    fn from(error: PolicyError) -> Self {
        match error {
            PolicyError::Fault(fault) => SteerError::Policy(fault),
            PolicyError::Memory => SteerError::Memory,
        }
    }
}

impl From<WriteFailed> for SteerError {
    ghost from_gives = { λ error own. own ≡ Write };

    fn from(_: WriteFailed) -> Self {
        SteerError::Write
    }
}

impl From<AllocError> for SteerError {
    ghost from_gives = { λ error own. own ≡ Memory };

    fn from(_: AllocError) -> Self {
        SteerError::Memory
    }
}
