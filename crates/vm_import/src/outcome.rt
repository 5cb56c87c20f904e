//! What comes of a log.
ghost use Rattle.vm_import.specs.declared.outcome.ImportError.TheVariants.{Line, Memory, Read, Write};
ghost use Rattle.vm_import.specs.Errors.{error_of};
ghost use Rattle.std.specs.Prelude.{◌≡◌};

use crate::faults::{LineFault, LogError};
use crate::limits::Limit;
use std::alloc::AllocError;
use thiserror::Error;
use vm_streams::WriteFailed;

/// How far a log was taken.
#[derive(Clone, Copy, Debug, PartialEq, Eq)]
pub struct Imported {
    /// How many intervals were taken.
    pub intervals: u32,
    /// The limit that the next interval passes, if that ended it.
    pub limit: Option<Limit>,
}

/// Why no guest was made of a log.
#[derive(Clone, Copy, Debug, PartialEq, Eq, Error)]
pub enum ImportError {
    /// A line is refused. Lines count from 1, all of them.
    #[error("line {number}: {fault}")]
    Line {
        /// The number of the line.
        number: u64,
        /// What is wrong with it.
        fault: LineFault,
    },
    /// The intervals that were taken touch no page.
    #[error("no page is touched")]
    Untouched(Imported),
    /// The source failed, or had 2^64 bytes or more.
    #[error("read failed")]
    Read,
    /// The sink failed.
    #[error("write failed")]
    Write,
    /// Memory was refused.
    #[error("out of memory")]
    Memory,
}

impl From<LogError> for ImportError {
    ghost from_gives = { λ error own. own ≡ error_of error };

    fn from(error: LogError) -> Self {
        match error {
            LogError::Line { number, fault } => ImportError::Line { number, fault },
            LogError::Read | LogError::TooLong => ImportError::Read,
        }
    }
}

impl From<AllocError> for ImportError {
    ghost from_gives = { λ error own. own ≡ Memory };

    fn from(_: AllocError) -> Self {
        ImportError::Memory
    }
}

impl From<WriteFailed> for ImportError {
    ghost from_gives = { λ error own. own ≡ Write };

    fn from(_: WriteFailed) -> Self {
        ImportError::Write
    }
}
