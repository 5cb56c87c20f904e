// The first fault of a policy, with its place.
ghost use Rattle.std.specs.Prelude.{◌≡◌};
ghost use Rattle.vm_samples.specs.Placed.{at};

use crate::place::Place;
use std::alloc::AllocError;
use std::error::Error;
use std::fmt;
use thiserror::Error as ThisError;

/// What is wrong at a place of a policy.
#[derive(Clone, Copy, Debug, PartialEq, Eq)]
pub enum Wrong {
    /// The text is no JSON.
    NotJson,
    /// The text is no object.
    NotAnObject,
    /// The key is absent.
    Absent,
    /// It is no number that is written with digits alone and is below 2^64.
    NotWhole,
    /// It is no text.
    NotAText,
    /// It is a text, and no size.
    NotASize,
    /// It is neither `true` nor `false`.
    NotATruth,
    /// It is no list, or an item is no number that is written with digits alone and is below 2^64.
    NotNumbers,
    /// It is no list, or an item is no object.
    NotObjects,
    /// The list has more than 256 items.
    TooMany,
    /// It is no name of a guest.
    NotAName,
    /// An earlier guest has the name.
    Twice,
    /// It is out of its range.
    Range,
}

impl fmt::Display for Wrong {
    ghost use Rattle.std.specs.Prelude.{Some};
    ghost use Rattle.vm_samples.specs.FaultTexts.{text_of_wrong};

    ghost output = { λ wrong. Some (text_of_wrong wrong) };

    fn fmt<W: fmt::Write>(&self, f: &mut fmt::Formatter<W>) -> fmt::Result {
        match self {
            Wrong::NotJson => write!(f, "is no JSON"),
            Wrong::NotAnObject => write!(f, "is not an object"),
            Wrong::Absent => write!(f, "is absent"),
            Wrong::NotWhole => write!(f, "is not a whole number"),
            Wrong::NotAText => write!(f, "is not a text"),
            Wrong::NotASize => write!(f, "is not a size"),
            Wrong::NotATruth => write!(f, "is not true or false"),
            Wrong::NotNumbers => write!(f, "is not a list of whole numbers"),
            Wrong::NotObjects => write!(f, "is not a list of objects"),
            Wrong::TooMany => write!(f, "has too many items"),
            Wrong::NotAName => write!(f, "is no name"),
            Wrong::Twice => write!(f, "is that of an earlier guest"),
            Wrong::Range => write!(f, "is out of range"),
        }
    }
}

/// The first fault of a policy, and where it stands.
#[derive(Clone, Copy, Debug, PartialEq, Eq)]
pub struct PolicyFault {
    /// Where it is.
    pub place: Place,
    /// What is wrong.
    pub wrong: Wrong,
}

impl fmt::Display for PolicyFault {
    ghost use Rattle.std.specs.Prelude.{Some};
    ghost use Rattle.vm_samples.specs.FaultTexts.{text_of};

    ghost output = { λ fault. Some (text_of fault) };

    fn fmt<W: fmt::Write>(&self, f: &mut fmt::Formatter<W>) -> fmt::Result {
        let PolicyFault { place, wrong } = *self;
        write!(f, "{place}: {wrong}")
    }
}

impl Error for PolicyFault {}

/// Why no policy was read.
#[derive(Clone, Copy, Debug, PartialEq, Eq, ThisError)]
pub enum PolicyError {
    /// The text is none.
    #[error("{0}")]
    Fault(PolicyFault),
    /// Memory was refused.
    #[error("out of memory")]
    Memory,
}

impl From<PolicyFault> for PolicyError {
    ghost use Rattle.vm_samples.specs.declared.fault.PolicyError.TheVariants.{Fault};

    ghost from_gives = { λ fault error. error ≡ Fault fault };

    fn from(fault: PolicyFault) -> PolicyError {
        PolicyError::Fault(fault)
    }
}

impl From<AllocError> for PolicyError {
    ghost use Rattle.vm_samples.specs.declared.fault.PolicyError.TheVariants.{Memory};

    ghost from_gives = { λ _ error. error ≡ Memory };

    fn from(_error: AllocError) -> PolicyError {
        PolicyError::Memory
    }
}

// An answer with the place of what is wrong.
pub(crate) fn at<T>(place: Place, answer: Result<T, Wrong>) -> Result<T, PolicyFault>
    ensures { result ≡ at place answer }
{
    answer.map_err(|wrong| PolicyFault { place, wrong })
}
