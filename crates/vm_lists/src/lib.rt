//! The lists of values that an option of a command line takes, such as `0..99/33,99.99`.
//!
//! [`read_list`] reads a [`ValueList`] within [`Limits`], and a [`ListFault`] says what is wrong with one at which byte. A
//! range stays a range: a list of 67 million values takes as little memory as its text. [`push_value`] writes a value as
//! a list has it.
//!
//! [`read_named_list`] reads a [`NamedList`], as in `web=0..99/33`, and [`check_names`] judges the names of several: each has to be
//! one by a [`NameRule`] of the caller, and no earlier list's.
//!
//! **Proved**: [`read_list`] gives the values of the list in their order, or its first fault with its byte, and want of memory only
//! where the list has no fault up to there (`values`, `fault`; `list_of`, `IsFaultOf`). By a grammar of its own, what is read is a
//! list of these values, and such a list is read, memory aside (`list`, `accepts`; `IsList`). All values lie in the limits
//! (`within`), and there is one (`some`). A [`ValueList`] reads as the list of its values, whatever room it takes (`len`, `get`); a
//! value that is written reads back as itself ([`push_value`]: `reads_back`). [`read_named_list`] does the same behind the first
//! `=`, with bytes counted from the beginning of the name; a text without `=` is refused at its end (`named_of`, `IsNamedFaultOf`,
//! `IsNamedList`). [`check_names`] answers `Ok` where all are names by the caller's rule and no two are the same (`AreNames`), and
//! else the first place where that fails (`IsNameFault`).
//!
//! **Only tested**: that lists are read where memory is there, of 67 million values too; the texts of faults. A list of 2^64 values
//! or more is answered as where memory is refused.
#![tactic(auto)]

mod bounds;
mod faults;
mod items;
mod lists;
mod named;
mod names;
mod numbers;
mod ranges;
mod showing;

pub use bounds::{Limits, Unit};
pub use faults::{
    ListFault, ListFaultKind, NameFault, NameFaultKind, NamedListFault, NamedListFaultKind,
};
pub use lists::{ValueList, read_list};
pub use named::{NamedList, read_named_list};
pub use names::{NameRule, check_names};
pub use showing::{ShownValue, push_value};
