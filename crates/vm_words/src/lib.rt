//! The words of a command line, for any program, and what it says on standard error.
//!
//! A [`CommandLine`] is `PROGRAM [--FLAG] .. [--VALUE NAME] .. [FILE] < TAKES > GIVES`, with as many flags and values as the program
//! has, and FILE where the program takes one. It reads the words to a [`Request`], which says which flags were given, what the values
//! are and which file, and says why words, the input or the output are refused, each with its exit status. `--help` and `--version` are
//! known to each program. Which words are taken is said over `clap`'s own definitions (`specs/Words.antt`), and [`law_words`] and
//! [`law_file`] have examples. What is said on standard error, help too, is only tested.
//!
//! **Proved**: what the words ask for is what `clap`'s definitions find in them (`request`: `asked`), each number in its range
//! (`numbers`). An answer comes only where the command line takes the words (`taken`), and status 2 only where it doesn't
//! (`refused`); status 3 is left for want of memory. Taken are words in which `clap` finds no fault, no flag stands beside one that
//! it may not stand beside, and each value is what it has to be (`AreTaken`, record `PassChecks`); seventeen lists of words show
//! which are ([`law_words`]). `has_flag`, `text` and `number` read what is asked for. Each complaint has its status.
//!
//! **Only tested**: what is said on standard error (a body of `refuse` that says nothing meets its clause); that words are read
//! where memory is there.
#![tactic(auto)]

mod check;
mod command_line;
mod complaints;
mod law;
mod parse;
mod request;

pub use command_line::{CommandLine, FILE, Flag, VERSION, ValueKind, ValueWord};
pub use complaints::{BAD_INPUT, BAD_SYSTEM, BAD_WORDS, DONE};
pub use law::{law_file, law_words};
pub use request::Request;
