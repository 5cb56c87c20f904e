//! The program `vmseries [--svg] [--workers N] [FILE]`, as a call.
//!
//! [`vmseries`] runs the guests that a configuration in FILE or on standard input names, and writes what is seen of the host after each
//! epoch to standard output, as comma-separated values or as a drawing. A program's `main` calls it. [`status`] is the same over any
//! reader, which it reads whatever FILE is, and any writer, and [`status_for`] over any words.

mod law;
mod line;
mod program;
mod writing;

pub use law::law_words;
pub use program::{status, status_for, vmseries};
