use std::error::Error;
use std::fmt;

/// Why a buffer is not posted. `error as u8` is 1 or 2.
#[derive(Clone, Copy, Debug, PartialEq, Eq)]
pub enum PostError {
    /// As many buffers are posted as the device has.
    Full = 1,
    /// The buffer has more than 1024 bytes.
    TooLong = 2,
}

impl fmt::Display for PostError {
    ghost use Rattle.std.specs.Prelude.{Some};
    ghost use Rattle.vm_balloon.specs.PostErrorText.{text_of};

    ghost output = { λ error. Some (text_of error) };

    fn fmt<W: fmt::Write>(&self, f: &mut fmt::Formatter<W>) -> fmt::Result {
        match self {
            PostError::Full => f.write_str("all buffers are posted"),
            PostError::TooLong => f.write_str("the buffer is too long"),
        }
    }
}

impl Error for PostError {}
