//! The program `vmlog [--every N] [FILE]`, as a call.
//!
//! [`vmlog`] reads a host log, a policy and what `virsh domstats` tells sample by sample, from FILE or standard input, and writes a
//! configuration of the recorded host to standard output: its domains as guests that use, epoch by epoch, as much memory as was
//! sampled. A program's `main` calls it. [`status`] is the same over any reader, which it reads whatever FILE is, and any writer, and
//! [`status_for`] over any words.
//!
//! It stands on [`plan_log`](vm_log::plan_log), which says what is written of a log. Which words are taken, and what they ask for, is
//! said in `specs/vmlog/CommandLine.antt`, and [`law_words`] has examples.

mod asked;
mod complaints;
mod law;
mod line;
mod program;

pub use law::law_words;
pub use program::{status, status_for, vmlog};
