//! The programs, each as a call, and what those that run a configuration share.
//!
//! A module is a program: what it is called with, what the words ask for, and its exit status, over any reader and writer. Its
//! definitions stand in `specs/` under the module's name, and so do its proofs in `proofs/`, with lemmas in `proofs/lemmas/`. The
//! words themselves are read by `vm_words`. The crate of a program's name is a `main` over its module.
//!
//! **Proved** of each program, for a reader and a writer whose bytes are known: it is safe, and its status is 0 to 3 (`known`). 0
//! comes only where what the words ask for was written, and nothing else (`done`); 1 only where the text or the policy is refused,
//! and nothing was written (`refused`, `silent`; of `vmtrace` where a line is refused or no page is touched, and then at most a
//! front was written; of `vmcheck` where something is found, and that was written: `found`); 2 only where nothing was read or
//! written (`unread`, `unwritten`); and where it is 3, a front of that text was written, or nothing (`stopped`). A reader or a writer
//! that fails in the call, and had not before, is always answered by 3 (`reader_failed`, `writer_failed`). With given words (`status_for`), 0 and 1 come only where the command line takes them
//! (`taken`), 2 only where it doesn't (`untaken`); lists of words show which are taken (`law_words`). With the system's words
//! (`status`) the same holds of some words. What the words ask for is what they say, in its ranges; `asked_of` of `vmsweep` tells
//! the first fault in the order of the lists, then that of the lists together, then of a drawing (`read_words`: `lists`, `within`,
//! `few`, `drawn`). Each error of a run has its status (`runs`: `complain`).
//!
//! **Only tested**: what is said on standard error, with progress too; that 3 comes only where memory was refused or an end failed
//! (a body that reads nothing and always gives 3 would meet the clauses). Each program has a stored run.
#![tactic(auto)]

mod input;
pub mod runs;
pub mod vmcheck;
pub mod vmlog;
pub mod vmmem;
pub mod vmseries;
pub mod vmsteer;
pub mod vmsweep;
pub mod vmtrace;
