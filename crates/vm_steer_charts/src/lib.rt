//! The charts of a host log: a host of libvirt under the policy of memory, sample by sample.
//!
//! [`draw`] reads a host log to its end, and draws what the policy found and decided for its good samples: the state of the host, its
//! free units, and of each steered domain its target, what it holds and what it uses. The log and what is told of its samples are
//! those of [`vm_steer`], so a drawing shows the numbers that [`vm_steer::steer`] writes of the same log.
//!
//! Its clause fixes the text to its last byte: `specs/Draws.antt` says what is written of a stream of bytes, `specs/Rows.antt` what is
//! drawn of a sample, `specs/Values.antt` the values of the curves and the names of the domains that have one, and `specs/Charts.antt`
//! the charts; where all in them has its place is in `specs/Picture.antt` of `vm_drawing`.
//!
//! **Proved**, for a reader whose bytes are known: where [`draw`] answers `Ok`, the policy isn't refused, no part of the log is too
//! long, and what was written is `svg_of` of the charts of what the fold of `vm_steer` tells of the good samples, at most the last
//! 10000 (`draws`, definitions `Draws` and `drawing_of`). An error has its cause, and nothing was written, or a front of the
//! drawing where the write failed (`failed`, definition `FailsToDraw`). A reader or a writer that fails in the call is told
//! (`reader_failed`, `writer_failed`).
//!
//! **Not claimed**: that the names that are drawn rise and are just those of the steered domains, which `names_drawn` makes so;
//! memory, which grows with 10000 samples.
#![tactic(auto)]

mod charts;
mod log;
mod names;
mod rows;
mod series;
mod stream;
mod values;

pub use stream::draw;
