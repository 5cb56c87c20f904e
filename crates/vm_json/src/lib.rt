//! JSON values whose texts are borrowed from the bytes that were read.
//!
//! [`read`] gives the value that bytes are, and the other functions look into one. Their clauses speak of the same data as those of
//! `serde_json`: [`read`] takes and refuses what `serde_json` does, and of a key that comes twice the last value counts.
//! `specs/View.antt` has the data that a value stands for.
//!
//! **Proved**: [`read`] gives the value that `serde_json` reads of the bytes (`ok`), and refuses as no JSON only what that refuses:
//! no UTF-8, no JSON text, one that nests deeper than 127, or one with a number beyond the floats (`refused`). What looks into a
//! value is the definition of `serde_json` over that data: a whole number is written with digits alone and is below 2^64. [`items`]
//! counts its items and tells the text at each place, however they are kept (`len`, `text`). [`into_values`] gives all items of an
//! array, or `None` for another value and for an array that begins with a text (`values`, `none`). `Memory` comes only for some
//! bytes (`memory`).
//!
//! **Only tested**: that `read` succeeds where memory is there. **Not claimed**: that `Memory` comes only where memory was refused;
//! that an array of texts alone is kept as texts, in half the memory; which texts are read without their tokens; speed.
#![tactic(auto)]

mod error;
mod find;
mod number;
mod plain;
mod reading;
mod value;

pub use error::ReadError;
pub use find::{
    Elements, into_values, is_object, items, last_member, member, take_member, text, truth,
};
pub use json::Scratch;
pub use number::whole;
pub use reading::read;
pub use value::Value;
