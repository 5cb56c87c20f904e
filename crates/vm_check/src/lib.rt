//! What is wrong or surprising in a configuration text: a line for each finding.
//!
//! [`check`] writes the lines of a text. Of one that is refused it is the first fault, of a number out of its range with that range.
//! Else come, for the root, each guest and each command, its odd keys (`vm_keys`), and what is found of the configuration that the
//! text means. `specs/Check.antt` says which lines these are, and each kind of finding has its own definitions: `Thresholds`, `Starts`
//! with `Admissions`, `Minimums`, `Guests`, `Inflated`, `Commands` with `Orders`, `Odd`, and `Refused` with `Ranges`. `Texts` has how a
//! finding is printed. [`law_examples`] has findings of small configurations.
//!
//! Time goes with the text and with guests times commands. Memory is taken for the text's JSON value, its configuration and the lines.
#![tactic(auto)]

mod admissions;
mod check_error;
mod checked;
mod checking;
mod commands;
mod document;
mod finding;
mod guests;
mod inflated;
mod law;
mod minimum;
mod odd;
mod order;
mod place;
mod range;
mod refused;
mod report;
mod starts;
mod thresholds;
mod what;

pub use check_error::CheckError;
pub use checking::check;
pub use law::law_examples;
