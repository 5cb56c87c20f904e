//! The course of a run of a host, and what holds at every moment of it.
//!
//! A run is a first host, the policy by which it decides, the command lines of each boundary, and epochs, each of which begins with
//! a boundary. `specs/Course.antt` says it as a fold where one worker serves the guests in order: the host after so many epochs
//! (`host_after`), the host that the last boundary leaves (`host_left`), and what happened to each guest by then (`history_after`,
//! `history_left`). `run_of` is the run of a machine and its domains.
//!
//! `specs/Rounds.antt` says the same run on any number of workers, step by step: a worker draws a guest, does a piece of its epoch,
//! or finishes it, and between two rounds one thread does the boundary.
//!
//! Nothing here runs: the crate has laws of these definitions. [`law_course`] says what holds of each run of one worker,
//! [`law_rounds`] that it holds at every moment of every run on any number of workers, and [`law_boundary_waits`] that it does not
//! where a boundary goes on while a worker holds a guest.
//!
//! **Proved**, for every machine, at most 256 domains within the limits, any lines at each boundary and any number of epochs. Of
//! one worker ([`law_course`]): at each boundary and after each epoch frames free, held and set aside add up, each record is good,
//! and each byte of guest memory, and each that is read, is that of the last write over what happened to the guest. After every
//! list of events of any number of workers ([`law_rounds`]): the last boundary left the host that it leaves for one worker; each
//! running guest is one number in one place, no worker holds two, and an event of one worker changes no guest of another; each
//! guest's record is the one that the boundary left with its first pieces done, none where it waits, all where it is done. So at
//! every moment, inside a round too, frames add up and each byte is that of the last write. Where all are done, the host is that
//! after the epoch of one worker. An event that doesn't apply changes nothing.
//!
//! **Not claimed**: that any event happens; a run in which nobody works keeps the laws. The contracts of `boundary` and `epoch`
//! (`vm_host`) and of `run_round` (`vm_board`) bind these definitions to the code. For callers: `proofs/FoldLemmas` (a run keeps
//! its machine and names; policies that decide alike give the same hosts).
#![tactic(auto)]

mod law;

pub use law::{law_boundary_waits, law_course, law_rounds};
