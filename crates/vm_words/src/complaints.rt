//! What is said on standard error, and the exit status that goes with it.
ghost use Rattle.std.specs.Prelude.{◌≡◌};

use crate::command_line::{CommandLine, FILE, ValueKind};
use std::fmt;
use std::fmt::Display;

/// The whole output was written.
pub const DONE: u8 = 0;

/// The input is refused.
pub const BAD_INPUT: u8 = 1;

/// The words are refused, or ask for help.
pub const BAD_WORDS: u8 = 2;

/// Reading or writing failed, or memory was refused.
pub const BAD_SYSTEM: u8 = 3;

// How a program is called, in a line.
#[derive(Clone, Copy)]
struct Usage<'a>(&'a CommandLine);

impl<'a> Display for Usage<'a> {
    fn fmt<W: fmt::Write>(&self, f: &mut fmt::Formatter<W>) -> fmt::Result {
        let line = self.0;
        write!(f, "usage: {}", line.program)?;
        for flag in line.flags {
            write!(f, " [--{}]", flag.name)?;
        }
        for value in line.values {
            write!(f, " [--{} {}]", value.name, value.value_name)?;
            if matches!(value.kind, ValueKind::Texts) {
                f.write_str("..")?;
            }
        }
        if line.takes_file {
            write!(f, " [{FILE}]")?;
        }
        write!(f, " < {} > {}", line.takes, line.gives)
    }
}

impl CommandLine {
    /// Says that memory was refused, and gives the status to end with.
    pub fn no_memory(&self, system: &impl Eprint) -> u8
        ensures { result ≡ 3 }
    {
        let program = self.program;
        let _ = eprintln!(system; "{program}: out of memory");
        BAD_SYSTEM
    }

    /// Says that the input could not be read, and gives the status to end with.
    pub fn read_failed(&self, system: &impl Eprint) -> u8
        ensures { result ≡ 3 }
    {
        let program = self.program;
        let _ = eprintln!(system; "{program}: read failed");
        BAD_SYSTEM
    }

    /// Says that a file can't be opened, and gives the status to end with.
    pub fn cannot_open(&self, system: &impl Eprint, path: &str) -> u8
        ensures { result ≡ 3 }
    {
        let program = self.program;
        let _ = eprintln!(system; "{program}: {path}: cannot be opened");
        BAD_SYSTEM
    }

    /// Says what of the input has more bytes than are read of it, and gives the status to end with.
    pub fn too_long(&self, system: &impl Eprint, what: &str, most: usize) -> u8
        ensures { result ≡ 3 }
    {
        let program = self.program;
        let _ = eprintln!(system; "{program}: {what} has more than {most} bytes");
        BAD_SYSTEM
    }

    /// Says that standard input is read, to somebody who sits at a terminal and may not know that the program waits for a text.
    pub fn tell_reading(&self, system: &impl Eprint) {
        let program = self.program;
        let _ = eprintln!(system; "{program}: reading standard input");
    }

    /// Says that the output could not be written, and gives the status to end with.
    pub fn write_failed(&self, system: &impl Eprint) -> u8
        ensures { result ≡ 3 }
    {
        let program = self.program;
        let _ = eprintln!(system; "{program}: write failed");
        BAD_SYSTEM
    }

    /// Says how the program is called, and gives the status to end with.
    pub fn usage(&self, system: &impl Eprint) -> u8
        ensures { result ≡ 2 }
    {
        let usage = Usage(self);
        let _ = eprintln!(system; "{usage}");
        BAD_WORDS
    }

    /// Says why words are refused that are those of the command line, and gives the status to end with.
    pub fn refuse_words<D: Display + Drop>(&self, system: &impl Eprint, why: D) -> u8
        ensures { result ≡ 2 }
    {
        let program = self.program;
        let _ = eprintln!(system; "{program}: {why}");
        BAD_WORDS
    }

    /// Says why the input is refused, and gives the status to end with.
    pub fn refuse<D: Display + Drop>(&self, system: &impl Eprint, why: D) -> u8
        ensures { result ≡ 1 }
    {
        let program = self.program;
        let _ = eprintln!(system; "{program}: {why}");
        BAD_INPUT
    }
}
