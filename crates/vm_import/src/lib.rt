//! From the log of a program's accesses to memory to a guest that touches memory as the program did.
//!
//! [`import_log`] reads the log of valgrind's tool lackey (`valgrind --tool=lackey --trace-mem=yes`) from a source, and writes a
//! configuration text with one guest, interval by interval. [`ImportSettings`] say how, and [`Imported`] tells how far the log was taken,
//! with the [`Limit`] that ended it.
//!
//! A [`LogReader`] gives the [`Access`]es of a log of any length in order, up to the first line with a [`LineFault`]. Its only memory is
//! one block of fixed size. `specs/Lines.antt` says what a line means, and `specs/Logs.antt` what a log does; [`law_lines`] has examples.
//!
//! A recorded string of references is made short by keeping, for each interval, what it touches (A. J. Smith, "Two Methods for the
//! Efficient Analysis of Memory Address Trace Data", IEEE TSE 1977): its working set (P. J. Denning, "The Working Set Model for Program
//! Behavior", CACM 1968). A [`WorkingSet`] takes the accesses of an interval one by one and keeps the first touch and the first write of
//! each page, in order, as [`RankedTouch`]es. The rank of a page is the place of its first touch among those of all pages, over all
//! intervals; [`law_examples`] has examples.
//!
//! `specs/Taking.antt` says what is taken of a log, `specs/Guests.antt` which guest that makes, `specs/Texts.antt` its text,
//! `specs/Limits.antt` what it has at most, and `specs/Imports.antt` what comes of it all; [`law_imports`] has examples.
//!
//! **Proved**, for every log whose bytes are known: where [`import_log`] answers `Ok`, what was written is the text of the guest
//! that the log makes, and nothing else, and it is told how many intervals were taken and which limit the next one passes (`guest`;
//! `taken_of`, `guest_of`, `text_of`). Reading ends at the first access with which the guest of all accesses so far passes a limit;
//! whole intervals are taken of those before it, and nothing from that line on is judged (`taken_behind`). An error says what was
//! written, and a line is refused only for its fault, with its number (`failed`); a failed reader or writer is told
//! (`reader_failed`, `writer_failed`). [`LogReader`] gives the first access of what is left, or the first fault, whatever the sizes
//! of reads (`gives`, `fault`); an access has 1 to 1024 bytes, none behind the last address (`access`). Its fast and its general
//! way meet one definition. A [`WorkingSet`] has the pages in the order of their first touches, and of an interval's touches the
//! first touch and the first write of each page (`ok`, `begins`, `pages`, `kept`); a refused access leaves what was there and a
//! front of its touches (`err`).
//!
//! **Only tested**: that calls succeed where memory is there; the texts of faults. **Not claimed**: speed; that memory goes with
//! pages and one interval's touches; what calls after an error give. That a configuration is read from the text is a law of
//! `vm_laws`.
#![tactic(auto)]

mod access;
mod block;
mod draft;
mod examples;
mod faults;
mod import;
mod interval;
mod law;
mod limits;
mod lines;
mod marks;
mod numbers;
mod numerals;
mod outcome;
mod plain;
mod process;
mod progress;
mod reader;
mod recent;
mod settings;
mod sizes;
mod step;
mod texts;
mod touch;
mod working_set;

pub use access::{Access, AccessKind};
pub use examples::law_examples;
pub use faults::{LineFault, LogError};
pub use import::import_log;
pub use law::{law_imports, law_lines};
pub use limits::Limit;
pub use outcome::{ImportError, Imported};
pub use reader::LogReader;
pub use settings::ImportSettings;
pub use touch::{Effect, RankedTouch, Touch};
pub use working_set::WorkingSet;
