//! The program `vmsteer [--csv | --svg] [FILE]`, as a call.
//!
//! [`vmsteer`] reads a host log, a policy and what `virsh domstats` tells sample by sample, from FILE or standard input, and writes what
//! the balloons of the domains are ordered to standard output, for `virsh` to read, each sample's as soon as it is there; or the same as
//! a table, or drawn. A program's `main` calls it. [`status`] is the same over any reader, which it reads whatever FILE is, and any
//! writer, and [`status_for`] over any words.
//!
//! It stands on [`steer`](vm_steer::steer) and [`draw`](vm_steer_charts::draw), which say what is written of a log. Which words are
//! taken, and what they ask for, is said in `specs/vmsteer/CommandLine.antt`, and [`law_words`] has examples.

mod complaints;
mod law;
mod line;
mod output;
mod program;

pub use law::law_words;
pub use output::Output;
pub use program::{status, status_for, vmsteer};
