//! Where the bytes of a run come from, and where they go to.
//!
//! A [`Source`] and a [`Sink`] remember whether they failed; [`Watched`] makes them of a reader and a writer of std. [`read_input`]
//! reads all of a source, and [`write_text`] writes all of a text.
//!
//! **Proved**: what a signal interrupted never comes out of a [`Source`] or a [`Sink`] (`kind`); every other error is a failure, as
//! 0 bytes taken of a slice that is not empty are (`failure`); an error takes no byte (`bytes`). [`read_input`] reads all, or says
//! that the source failed, that it had more than the limit, or that memory was refused, and reads at most one byte more than the
//! limit (`bytes`, `end`, `failure`, `too_long`, `at_most`). [`write_text`] writes all, or a front where the sink failed
//! (`written`, `front`, `failure`).
//!
//! **Only tested**: that a call which a signal interrupted is tried again. A body that gave another kind of error at once would
//! meet the clause, since the contract of std's reader says nothing of kinds. After 2^64 - 1 tries the error is `TimedOut`.
#![tactic(auto)]

mod input;
mod output;
mod stream;

pub use input::{InputError, read_input};
pub use output::{WriteFailed, write_text};
pub use stream::{Sink, Source, Watched};
