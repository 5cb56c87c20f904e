//! The memory commands of a host, as lines in the manner of `virsh`.
//!
//! [`parse_line`] gives the [`Command`] that a line is, and [`scaled_pages`] how many pages a size is. Both are told how many KiB
//! a page is. Contracts speak of both by functions; [`law_lines`] and [`law_sizes`] say that these are what the grammar says.
//!
//! **Proved**, for every page of at least a KiB: [`scaled_pages`] gives what the table of units says (`exact`: `pages_of_size`),
//! exactly where the text is a size of so many pages (`size`, `accepts`; grammar `IsSize`: digits, a row of the table, a product
//! below 2^64, and the fewest pages that have room for it). [`parse_line`] answers what the line means, or wants memory for a
//! command (`exact`: `command_of`). What it reads is a line of that command, and such a line is read, memory aside (`command`,
//! `accepts`; `IsLine`). The fault is Bad exactly where the line has no form (`bad`), Size exactly where it has a form whose SIZE
//! or N can't be read (`size`), and Memory only for a line that is a command (`memory`). Of `IsLine`, `IsUnreadable` and
//! `HasNoForm` one holds of each line and no other ([`law_lines`]). A `Domain` reads as its word. The texts of faults are stated.
//!
//! **Only tested**: that a command is read where memory is there (a body that wants memory for each passes the contract); the
//! numbers of the faults. **Not claimed**: speed.
#![tactic(auto)]

mod command;
mod error;
mod laws;
mod line;
mod size;

pub use command::{Command, Domain};
pub use error::LineFault;
pub use laws::{law_lines, law_sizes};
pub use line::parse_line;
pub use size::scaled_pages;
