use std::error::Error;
use std::fmt;

/// What the machine lacks for a guest or a new minimum. `error as u8` is 1 or 2.
#[derive(Clone, Copy, Debug, PartialEq, Eq)]
pub enum AdmissionError {
    /// The sum of the minimums and overheads would exceed the machine's frames.
    NoMemory = 1,
    /// That sum fits, and the sum of the reserves would exceed the machine's swap.
    NoSwap = 2,
}

/// The cause in words, as a report of the refusal shows it.
impl fmt::Display for AdmissionError {
    ghost use Rattle.std.specs.Prelude.{Some};
    ghost use Rattle.vm_admission.specs.AdmissionError.{text_of};

    ghost output = { λ error. Some (text_of error) };

    fn fmt<W: fmt::Write>(&self, f: &mut fmt::Formatter<W>) -> fmt::Result {
        match self {
            AdmissionError::NoMemory => write!(f, "no memory to reserve"),
            AdmissionError::NoSwap => write!(f, "no swap to reserve"),
        }
    }
}

impl Error for AdmissionError {}
