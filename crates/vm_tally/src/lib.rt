//! A run, told in numbers.
//!
//! A [`Summary`] tells a run in numbers, in the words of its report: `specs/Summary.antt` says what each is, over the course of the
//! run. [`run_alone`] runs a configuration to its end so. [`header_text`] and [`record_text`] write them as a table, which has columns of
//! rebalancing where its values are from a list ([`Rebalancing`]).
//!
//! A [`GuestSummary`] tells of one guest of a run in the same words (`specs/GuestSummary.antt`). [`run_guests_alone`] gives one for
//! each guest, which [`guests_header_text`] and [`guest_records_text`] write.
//!
//! **Proved**, for every configuration: [`run_alone`] runs it to its end in the caller's thread, answers the numbers of its run
//! (`summary`, definition `summary_of` over the course of `run`), and gives it back (`back`); its only error is want of memory
//! (`memory`). [`run_guests_alone`] answers the numbers of each guest, in order (`summaries`, definition `guest_summaries_of`).
//! [`run_alone_with`] and [`run_guests_alone_with`] answer the same, whatever rooms other runs left. A
//! `Combination` is five values in their ranges: `of` reads those of a configuration, `apply` gives it others and leaves all else
//! (`configured`). The texts of records and headers are their definitions to the last byte, with columns of rebalancing or without,
//! and with any further columns behind those of the settings. [`guest_names`] gives the names and leaves the configuration as it
//! was. A name stands in a record as it is: that none needs quotes is a law of `vm_laws`, and so is what ties the numbers to the
//! report.
//!
//! **Only tested**: that a run succeeds where memory is there; that the numbers are those that are meant, by records of an
//! independent program. **Not claimed**: speed; that no sum reaches the greatest number of 64 bits, where it stops.
#![tactic(auto)]

mod combination;
mod guest_column;
mod guest_counts;
mod guest_moves;
mod guest_running;
mod guest_sightings;
mod guest_summary;
mod guest_table;
mod guest_tally;
mod line_counts;
mod running;
mod summary;
mod table;
mod tally;

pub use combination::Combination;
pub use guest_running::{run_guests_alone, run_guests_alone_with};
pub use guest_summary::{AtEnd, GuestSummary};
pub use guest_table::{guest_names, guest_records_text, guests_header_text};
pub use running::{run_alone, run_alone_with};
pub use summary::Summary;
pub use table::{Rebalancing, header_text, record_text};
pub use vm_domains::Names;
pub use vm_sim::Shelf;
