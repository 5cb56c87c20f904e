//! The program `vmmem [--workers N]`, as a call.
//!
//! [`vmmem`] runs the guests that a configuration on standard input names, and writes the report to standard output. A program's
//! `main` calls it. [`status`] is the same over any reader and writer, and [`status_for`] over any words.

mod complaints;
mod law;
mod line;
mod program;

pub use law::law_words;
pub use program::{status, status_for, vmmem};
