//! Pages of few written bytes, which take the room of those bytes and not that of a page.
//!
//! A [`Patch`] is what was written to a page, byte by byte: so Difference Engine (Gupta and others, OSDI 2008, section 3.2) keeps a
//! page that differs in little from another. A [`Log`] is the same, stretch by stretch, with room for more. A [`PatchedFrame`] is a
//! frame under a page. What is written to a page of zeros is kept as a log beside its frame, until that is more than the log has room
//! for. Then the page's bytes stand in those lines of the frame that were written, and all others are zeros. A page that gets all of
//! its bytes at once has them in the frame.
//!
//! **Proved**: a [`Patch`] is the list of its writes after each call (`new`, `write`; `has_room` is exact), and what is read over a
//! page, or brought to it, is that page after these writes in order (`read`, `apply`, over `patched`); each byte is then the last
//! that was written at its offset, or what it was ([`law_last_byte`]). A [`Log`] is such a list over a page of zeros: a write that
//! has room goes behind the others, one that has none changes nothing; at most 16 bytes have room where there are no more than 20
//! with them (`room`). A [`PatchedFrame`] is a frame's number and the page's bytes, each call an equation over both, wherever the
//! bytes stand: no byte of an earlier holder is read, and none is lost where a log is full. `take_log` and `take_patch` give writes
//! that make the page of zeros (`some`) and leave zeros (`taken`), or change nothing (`none`); `release` gives the frame back with
//! its number.
//!
//! **Only tested**: how much more a log has room for. **Not claimed**: which pages are kept as logs, that no memory is touched for
//! them, that few bytes are taken where there are few (else the whole page is); speed. For callers: `proofs/Writes`.
#![tactic(auto)]

mod law;
mod lines;
pub mod log;
pub mod patch;
pub mod patched_frame;

pub use law::law_last_byte;
pub use log::Log;
pub use patch::{ByteWrite, PATCH_BYTES, Patch};
pub use patched_frame::PatchedFrame;
