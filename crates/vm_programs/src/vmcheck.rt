//! The program `vmcheck [--policy] [FILE]`, as a call.
//!
//! [`vmcheck`] reads a configuration, or a policy of `vmsteer`, from FILE or standard input, and writes what is wrong or surprising in it
//! to standard output, a line for each finding. A program's `main` calls it. [`status`] is the same over any reader, which it reads
//! whatever FILE is, and any writer, and [`status_for`] over any words.
//!
//! It stands on [`check`](vm_check::check) and [`check_policy`](vm_policy_check::check_policy), which say what is found. Which words are
//! taken, and what they ask for, is said in `specs/vmcheck/CommandLine.antt`, and [`law_words`] has examples.

mod law;
mod line;
mod policy;
mod program;
mod subject;

pub use law::law_words;
pub use program::{status, status_for, vmcheck};
pub use subject::Subject;
