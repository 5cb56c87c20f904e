//! Why words are refused that have the form of the command line.
ghost use Rattle.std.specs.Prelude.{◌↔◌, IsTrue};
ghost use Rattle.vm_programs.specs.vmsweep.Refused.{IsMemory};

use super::keys::SweptKey;
use std::alloc::AllocError;
use thiserror::Error;
use vm_lists::{ListFault, ListFaultKind, NameFault, NamedListFault, NamedListFaultKind};

/// The first fault of the lists of a command line.
#[derive(Clone, Copy, Debug, PartialEq, Eq, Error)]
pub enum SweepFault {
    /// The list of this key has this fault, or memory was refused while it was read.
    #[error("--{key}: {fault}")]
    BadList {
        key: SweptKey,
        fault: ListFault,
    },
    /// A list of this key for a guest has this fault, or memory was refused while it was read.
    #[error("--{key}: {fault}")]
    BadNamedList {
        key: SweptKey,
        fault: NamedListFault,
    },
    /// The name of a list of this key is none, or stands twice.
    #[error("--{key}: {fault}")]
    BadName {
        key: SweptKey,
        fault: NameFault,
    },
    /// Memory was refused.
    #[error("out of memory")]
    Memory,
    /// There are more than 8 lists for guests.
    #[error("more than 8 lists of --min and --shares")]
    TooManyLists,
    /// There are more than 10000 combinations, without a number of seeds.
    #[error("more than 10000 combinations")]
    TooMany,
    /// There are more than 10000 runs, with a number of seeds.
    #[error("more than 10000 runs")]
    TooManyRuns,
    /// A drawing of one machine is asked for.
    #[error("--svg: fewer than two values of --frames")]
    OneMachine,
    /// A drawing is asked for, and a value of `--frames` is not above the one before it.
    #[error("--svg: the values of --frames do not rise")]
    NotRising,
    /// A drawing of more than 12 curves is asked for, without a list for `--rebalance` or guests.
    #[error("--svg: more than 12 combinations of --swap, --tax and --page-rate")]
    TooManyCurves,
    /// A drawing of more than 12 curves is asked for, with a list for `--rebalance`, and none for guests.
    #[error("--svg: more than 12 combinations of --swap, --tax, --page-rate and --rebalance")]
    TooManyOfFour,
    /// A drawing of more than 12 curves is asked for, with a loop over guests or seeds.
    #[error("--svg: more than 12 combinations of all loops but frames and seeds")]
    TooManyOfAll,
}

impl From<AllocError> for SweepFault {
    ghost use Rattle.std.specs.Prelude.{◌≡◌};
    ghost use Rattle.vm_programs.specs.declared.vmsweep.faults.SweepFault.TheVariants.{Memory};

    ghost from_gives = { λ _ fault. fault ≡ Memory };

    fn from(_error: AllocError) -> Self {
        SweepFault::Memory
    }
}

impl SweepFault {
    /// Whether memory was refused while a list was read.
    pub fn is_memory(self) -> bool
        ensures { IsTrue result ↔ IsMemory self }
    {
        match self {
            SweepFault::BadList { fault, .. } => fault.kind == ListFaultKind::Memory,
            SweepFault::BadNamedList { fault, .. } => {
                fault.kind
                    == NamedListFaultKind::BadList {
                        fault: ListFaultKind::Memory,
                    }
            }
            SweepFault::Memory => true,
            _ => false,
        }
    }
}
