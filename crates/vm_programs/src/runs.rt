//! What the programs over `vm_sim` read and say of a run that stopped, and the word `--workers`.
//!
//! [`read_text`] reads the text of a run. [`complain`] says on standard error why a run stopped, and [`complain_of_text`] also where the first fault of its text stands.
//! Each gives the exit status (`specs/runs/Statuses.antt`). [`WORKERS`] is the word, and [`workers_of`] the number that is asked for by
//! it (`specs/runs/Words.antt`). The words themselves are read by `vm_words`.

mod complaints;
mod reading;
mod workers;

pub use complaints::{complain, complain_of_text};
pub use reading::read_text;
pub use workers::{WORKERS, workers_of};
