//! From the text of a configuration to the report of its run.
//!
//! [`run`] reads a configuration from a [`Source`], runs the guests that it names on a host, on any number of workers, and writes
//! the report to a [`Sink`]. [`boundary_text`], [`epoch_text`] and [`end_text`] are the parts of a report. The configuration and its
//! reader are those of `vm_config`.
//!
//! A clause speaks of plain data: `specs/Course.antt` has the hosts of a run, one worker serving guests in order, and
//! `specs/Report.antt` the report, as one text. `specs/Lines.antt` has its lines, and `specs/Stretches.antt` of `vm_plan` the
//! stretches of equal positions that a line stands for. `specs/Run.antt` says what a run does to its reader and its writer.
//!
//! **Proved**, as the contract of [`run`], for every text and 1 to 64 workers: where the answer is `Ok`, the writer took exactly
//! the report of the run of the configuration that was read, where one worker serves the guests in order (`report`), and the host
//! is that of the run's end, guest memory included (`memory`). In that run each read gives the last write there (`reads`), frames
//! free, held and set aside add up to the machine (`conservation`), and revocations and rebalancing are fair (`revocations`,
//! `rebalancing`). `Workers` comes exactly for another number of workers (`workers`). Each other error but `Memory` has its cause,
//! and each says what was written by then (`failed`). A reader or a writer that fails in the call, and had not before, is always
//! told (`reader_failed`, `writer_failed`), so that `Memory` says that neither did. At most 16777217 bytes are read (`at_most`).
//! [`law_runs`] has the four facts of each configuration within its limits; [`law_migration`] that one of version 1 runs by the
//! formulas of whole percents as the one that it is migrated to. The parts of a report are their definitions. A [`SteppedRun`] is
//! the same run, a boundary and an epoch at a time (`start`, `made`, `told`, `next`), also with the rooms of another run's guests.
//!
//! **Only tested**: that a run succeeds where memory is there; that two threads serve guests at once; the texts of [`RunError`].
//! **Not claimed**: that `Memory` comes only where memory was refused; speed; that a run ends, since it joins threads. Where a
//! reader's or a writer's bytes aren't known, nothing is said of them.
#![tactic(auto)]

mod agenda;
mod calendar;
mod crew;
mod input;
mod law;
mod lines;
mod moves;
mod read_line;
mod report;
mod run_error;
mod simulation;
mod stepping;

pub use input::read_text;
pub use law::{law_migration, law_runs};
pub use report::{boundary_text, end_text, epoch_text};
pub use run_error::RunError;
pub use simulation::{MAX_WORKERS, run};
pub use stepping::SteppedRun;
pub use vm_config::{
    Autostart, Config, ConfigError, ConfigV1, Domains, Fault, Key, MachineSpec, Part, Place,
    Schedule, Scheduled, TraceError, explain, migrate, read_config, read_config_v1,
};
pub use vm_host::{Boundary, Gate, Host, Lines, Open, Ran, Shelf};
pub use vm_streams::{Sink, Source, Watched, WriteFailed, write_text};
