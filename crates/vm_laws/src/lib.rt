//! What is true of tables, imports and reports by their definitions alone. Nothing here runs.
//!
//! `vm_tally` tells a run in numbers, and `vm_sim` as a report. Here the report is a list of lines, each of its kind
//! (`specs/ReportLines.antt`), and [`law_lines`] says that those numbers which the report has too are what adding up its lines gives
//! (`specs/Columns.antt`). [`law_evicted`] says which of them the rows of `vm_series` add up to (`specs/Evicted.antt`). [`law_swapped`]
//! says what the most pages in swap, seen at the ends of epochs, tells of their inside (`specs/Swapped.antt`), and [`law_names`] that the
//! names in the records of guests need no quotes (`specs/Plain.antt`).
//!
//! `vm_import` makes a guest of a log of accesses to memory and writes its text, and `vm_config` reads texts of configurations. Here is
//! which configuration the text means (`specs/Meaning.antt`), and [`law_imported`] says that it is read as that one.
//! [`law_import_examples`] has two texts with their configurations, by computation (`specs/ImportExamples.antt`).
//! [`law_recorded`] says the same of the text that `vm_recorded` has of a recorded host (`specs/Recorded.antt`, with its steps in
//! `specs/RecordedSteps.antt` and its command lines in `specs/RecordedLines.antt`), and [`law_recorded_example`] has a small host with
//! both, by hand (`specs/RecordedExamples.antt`). [`law_logged`] says it of the text that `vm_log` makes of a host log, whatever its bytes
//! are (`specs/Logged.antt`).
//!
//! [`law_examples`], [`law_corners`] and [`law_drawn`] have whole reports of runs, by computation of their definitions: each clause is a
//! configuration and the text that its report is. The texts were told by a program that shares nothing with this repository, so they say
//! that the definitions of a run mean what they should. [`law_numbers`] has the numbers of two runs, added up from these texts by hand.
//!
//! **Proved**, for every configuration: its report is the text of a list of lines, each of its kind, and those numbers of its run
//! that are in the report are what adding these lines up by kind gives, up to 2^64 - 1 ([`law_lines`]: `report`, `columns`). Not in
//! a report are `least_free`, `evicted`, `done`, `left` and `most_swapped`; which lines make the numbers of one guest is said by no
//! law. Inside an epoch a good guest with nothing posted never has more pages in swap than at the epoch's beginning or end, so for
//! configurations within their limits `most_swapped` of a guest is the most it has at the ends of boundaries and after any piece of
//! an epoch, and that of a run is 0 exactly where no page was in swap then ([`law_swapped`]); all guests together may have more at
//! once than the run's tells, and of the inside of a boundary nothing is said. No guest's name that a text means needs quotes
//! ([`law_names`]).
//!
//! What `import_log` writes, for a name that a configuration takes, what `vm_recorded` writes of a host in range, and so the text
//! of each host log, is read as the configuration that its definition says, and has at most 16777216 bytes ([`law_imported`],
//! [`law_recorded`], [`law_logged`]). Nothing is said of the runs of these. Whole reports agree with an independent program's, by
//! computation: 68 of them.
#![tactic(auto)]

mod evicted;
mod import_examples;
mod imported;
mod lines;
mod logged;
mod names;
mod recorded;
mod recorded_examples;
mod reports;
mod swapped;

pub use evicted::law_evicted;
pub use import_examples::law_import_examples;
pub use imported::law_imported;
pub use lines::law_lines;
pub use logged::law_logged;
pub use names::law_names;
pub use recorded::law_recorded;
pub use recorded_examples::law_recorded_example;
pub use reports::{law_corners, law_drawn, law_examples, law_numbers};
pub use swapped::law_swapped;
