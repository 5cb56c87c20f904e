// Why a line of a case went otherwise than it says.
use std::alloc::AllocError;
use std::fmt;

/// Why a line went otherwise.
#[derive(Debug, Drop)]
pub enum Fault {
    Memory,
    /// There is no such line, or its words are not those that it takes.
    Unknown,
    /// What the call requires doesn't hold.
    NotAllowed,
    /// This is there in place of what is wanted.
    Found(String),
}

impl From<AllocError> for Fault {
    fn from(_error: AllocError) -> Fault {
        Fault::Memory
    }
}

impl fmt::Display for Fault {
    fn fmt<W: fmt::Write>(&self, f: &mut fmt::Formatter<W>) -> fmt::Result {
        match self {
            Fault::Memory => write!(f, "memory was refused"),
            Fault::Unknown => write!(f, "there is no such line"),
            Fault::NotAllowed => write!(f, "the call is not allowed then"),
            Fault::Found(found) => write!(f, "found {found}"),
        }
    }
}

/// Compares a text of what is there with the one that is wanted.
pub fn compare(found: String, wanted: &str) -> Result<(), Fault> {
    if found.as_str() == wanted {
        Ok(())
    } else {
        Err(Fault::Found(found))
    }
}
