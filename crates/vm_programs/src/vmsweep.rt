//! The program `vmsweep [--frames LIST] [--swap LIST] [--tax LIST] [--page-rate LIST] [--rebalance LIST] [--min-percent LIST]
//! [--min NAME=LIST].. [--shares NAME=LIST].. [--seeds N] [--guests | --svg] [--progress] [--workers N] [FILE]`, as a call.
//!
//! [`vmsweep`] runs the configuration in FILE or on standard input once for each combination of the values that the words list, and
//! writes a table with a record for each run, or for each run and guest, or a drawing to standard output. A program's `main` calls it.
//! [`status`] is the same over any reader, which it reads whatever FILE is, and any writer, and [`status_for`] over any words.
//!
//! [`read_words`] makes of a command line what it asks for, as [`Asked`], or says on standard error why not. Which words are taken is
//! said in `specs/vmsweep/Taken.antt`, and [`law_words`] has examples.

mod asked;
mod checks;
mod faults;
mod guests;
mod keys;
mod law;
mod line;
mod program;
mod running;
mod telling;
mod words;

pub use asked::{Asked, Form, asked_of};
pub use faults::SweepFault;
pub use keys::{
    FRAMES_LIMITS, MIN_LIMITS, MIN_PERCENT_LIMITS, PAGE_RATE_LIMITS, REBALANCE_LIMITS,
    SHARES_LIMITS, SWAP_LIMITS, SweptKey, TAX_LIMITS,
};
pub use law::law_words;
pub use line::LINE;
pub use program::{status, status_for, vmsweep};
pub use words::read_words;
