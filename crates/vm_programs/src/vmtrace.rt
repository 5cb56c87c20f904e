//! The program `vmtrace [--name NAME] [--min PAGES] [--interval LINES] [--quantum STEPS] [--skip LINES] [--steps N] [--no-code]
//! [FILE]`, as a call.
//!
//! [`vmtrace`] reads a log of valgrind's lackey from FILE or standard input and writes a configuration with one guest, which touches
//! memory as the program did, to standard output. A program's `main` calls it. [`status`] is the same over any reader, which it reads
//! whatever FILE is, and any writer, and [`status_for`] over any words.
//!
//! [`read_words`] makes of a command line what it asks for, as [`ImportSettings`](vm_import::ImportSettings), or says on standard error
//! why not. Which words are taken is said in `specs/vmtrace/Taken.antt`, and [`law_words`] has examples.

mod asked;
mod complaints;
mod law;
mod line;
mod program;
mod words;

pub use law::law_words;
pub use line::LINE;
pub use program::{status, status_for, vmtrace};
pub use words::read_words;
