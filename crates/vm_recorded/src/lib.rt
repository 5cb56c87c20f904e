//! A recorded host as a configuration text: guests that use, epoch by epoch, as much memory as was seen.
//!
//! A [`RecordedHost`] has [`RecordedGuest`]s, each with a [`Use`] for each epoch from its first to its last. [`text_of`] makes its
//! configuration text, and [`length_of`] counts the bytes of that beforehand, in a time that goes with the number of guests: [`Counts`]
//! are what the epochs of a guest come to, kept up epoch by epoch. [`limit_by`] judges which [`Limit`] is passed.
//!
//! The trace of a guest is in `specs/Traces`, the commands in `specs/Commands`, the text in `specs/Texts`, and its limits in
//! `specs/Limits`; [`law_texts`] has examples.
//!
//! **Proved**: [`text_of`] makes the text of a host, byte by byte (definition `text_of`: its head, each guest with its trace, the
//! commands), and [`length_of`] is how many bytes that has, without making it, from the [`Counts`] of each guest. [`limit_by`] is
//! the first limit that is passed. Texts want memory; lengths and limits don't. That `vm_config` reads the text is a law of
//! `vm_laws`.
//!
//! **Not claimed**: that the time of `length_of` goes with the guests alone.
#![tactic(auto)]

mod command_length;
mod commands;
mod counts;
mod examples;
mod guest;
mod guest_length;
mod guests;
mod host;
mod length;
mod limit;
mod numbers;
mod text;
mod trace;
mod used;

pub use counts::Counts;
pub use examples::law_texts;
pub use guest::RecordedGuest;
pub use host::RecordedHost;
pub use length::length_of;
pub use limit::{Limit, limit_by};
pub use text::text_of;
pub use used::Use;
