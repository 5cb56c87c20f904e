//! What is seen of a host after each epoch of a run, as rows, as comma-separated values and as charts.
//!
//! [`collect_series`] runs a configuration and keeps a row for each epoch; a clause reads the rows as plain data (`specs/Rows.antt`).
//! [`csv_text`] writes them (RFC 4180), as the kit's `csv` does (`specs/Csv.antt`). Each name is written by it once; records are put
//! together from pieces (`specs/Records.antt`).
//!
//! [`svg_text`] draws the state and the free frames of the host, the targets of its guests, the pages of all guests that are swapped out
//! and ballooned, and those that touches of each guest sent to swap, each over the epochs, as `draw` of `vm_drawing` draws any charts. Its clause fixes the text to its last byte:
//! `specs/Series.antt` says what the charts of a run are, and `specs/Picture.antt` of `vm_drawing` where all in them has its place.
//!
//! **Proved**, for every text and 1 to 64 workers: where the text means a configuration, row k shows the host after epoch k of its
//! run, where one worker serves the guests in order ([`collect_series`]: `rows`, over `world_after`). `Workers` comes exactly for
//! another number of workers (`workers`), `Config` with the first fault of the text, and no other error but `Memory` (`failed`). A
//! row shows at most 256 guests (`few`). The CSV is that of the rows, by `row_text` of the toolchain's `csv`, so that names are
//! quoted where they have to be ([`csv_text`]). The drawing of a series, also of no epoch or no guest, is its definition to the
//! last byte ([`svg_text`]); no chart reaches into another's room, and no value leaves its chart up or down ([`law_series`]).
//!
//! **Only tested**: that the calls succeed where memory is there; that the charts show what is meant, by curves, scales and marks
//! over made runs. **Not claimed**: speed. A series is kept in memory until it is written.
#![tactic(auto)]

mod collect;
mod csv_lines;
mod law;
mod record_pieces;
mod rows;
mod samples;
mod series;

pub use collect::collect_series;
pub use csv_lines::csv_text;
pub use law::law_series;
pub use rows::{EpochRow, Series};
pub use series::svg_text;
