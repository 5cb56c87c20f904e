// The first fault of a configuration, with its place.
ghost use Rattle.std.specs.Prelude.{◌≡◌};
ghost use Rattle.vm_config.specs.declared.error.ConfigError.TheVariants.{Memory};
ghost use Rattle.vm_config.specs.Places.{at, in_text, without_place};

use crate::error::ConfigError;
use crate::place::{Key, Part, Place};
use std::alloc::AllocError;
use std::error::Error;
use std::fmt;

/// The first fault of a configuration, and where it stands. The fault of a step stands at its guest's key `trace`, and the error
/// has the step's number.
#[derive(Clone, Copy, Debug, PartialEq, Eq)]
pub struct Fault {
    /// What is wrong.
    pub error: ConfigError,
    /// Where it is.
    pub place: Place,
}

impl fmt::Display for Fault {
    ghost use Rattle.vm_config.specs.FaultTexts.{told};

    ghost output = { told };

    fn fmt<W: fmt::Write>(&self, f: &mut fmt::Formatter<W>) -> fmt::Result {
        let place = self.place;
        match self.error {
            ConfigError::Trace { step, fault, .. } => write!(f, "{place}: step {step}: {fault}"),
            ConfigError::Kind if place == Place::Text => write!(f, "{place}: not an object"),
            error => write!(f, "{place}: {error}"),
        }
    }
}

impl Error for Fault {}

// Want of memory is the fault of no key.
impl From<AllocError> for Fault {
    ghost from_gives = { λ _ fault. fault.error ≡ Memory };

    fn from(_error: AllocError) -> Fault {
        Fault {
            error: ConfigError::Memory,
            place: Place::Text,
        }
    }
}

// An answer of the text as a whole, with the place of its error.
pub(crate) fn in_text<T>(answer: Result<T, ConfigError>) -> Result<T, Fault>
    ensures { result ≡ in_text answer }
{
    answer.map_err(|error| Fault {
        error,
        place: Place::Text,
    })
}

// An answer at a key, with the place of its error.
pub(crate) fn at<T>(part: Part, key: Key, answer: Result<T, ConfigError>) -> Result<T, Fault>
    ensures { result ≡ at part key answer }
{
    let place = Place::Key { part, key };
    answer.map_err(|error| Fault { error, place })
}

// An answer without the place of its error.
pub(crate) fn without_place<T>(answer: Result<T, Fault>) -> Result<T, ConfigError>
    ensures { result ≡ without_place answer }
{
    answer.map_err(|fault| fault.error)
}
