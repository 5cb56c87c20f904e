// Why a host log gives no configuration.
ghost use Rattle.std.specs.Prelude.{◌≡◌};
ghost use Rattle.vm_log.specs.declared.log_error.PlanError.TheVariants.{Memory, Write};
ghost use Rattle.vm_log.specs.Errors.{error_of_log, error_of_policy};

use std::alloc::AllocError;
use thiserror::Error;
use vm_samples::{LogError, PolicyError, PolicyFault};
use vm_streams::WriteFailed;

/// Why a host log gives no configuration.
#[derive(Clone, Copy, Debug, PartialEq, Eq, Error)]
pub enum PlanError {
    /// The policy is refused.
    #[error("{0}")]
    Policy(PolicyFault),
    /// The source failed.
    #[error("read failed")]
    Read,
    /// There are more than 16777216 bytes in front of a line `---` or behind the last one, or 2^64 such lines or more.
    #[error("the log is too long")]
    TooLong,
    /// The sink failed.
    #[error("write failed")]
    Write,
    /// Memory was refused.
    #[error("out of memory")]
    Memory,
}

impl From<LogError> for PlanError {
    ghost from_gives = { λ error own. own ≡ error_of_log error };

    fn from(error: LogError) -> Self {
        match error {
            LogError::Read => PlanError::Read,
            LogError::TooLong => PlanError::TooLong,
            LogError::Memory => PlanError::Memory,
        }
    }
}

impl From<PolicyError> for PlanError {
    ghost from_gives = { λ error own. own ≡ error_of_policy error };

    fn from(error: PolicyError) -> Self {
        match error {
            PolicyError::Fault(fault) => PlanError::Policy(fault),
            PolicyError::Memory => PlanError::Memory,
        }
    }
}

impl From<WriteFailed> for PlanError {
    ghost from_gives = { λ error own. own ≡ Write };

    fn from(_: WriteFailed) -> Self {
        PlanError::Write
    }
}

impl From<AllocError> for PlanError {
    ghost from_gives = { λ error own. own ≡ Memory };

    fn from(_: AllocError) -> Self {
        PlanError::Memory
    }
}
