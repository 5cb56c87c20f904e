//! The steps of a guest's trace, and how they are read from texts.
//!
//! A [`Step`] keeps its limits in its type: whoever has one knows that its bytes lie in one page of a guest of
//! the greatest size. A [`Trace`] is a list of them. [`Trace::push_text`] adds the steps that a text stands for, within the
//! [`StepLimits`] of the text's version: one step, or in version 3 as many as the text counts. [`parse_step_within`] reads a step of
//! version 2 alone. [`law_spelling`] says which texts are which steps, and [`law_one_step`] that before version 3 each is one.
//!
//! **Proved**: [`Trace::push_text`] adds exactly the steps that a text stands for in a guest of a size (`ok`: `steps_within`,
//! `steps_in`), at most 1000000 in all, or answers its first fault, one step too many last (`fault`), and changes nothing (`err`).
//! Short forms are read in one pass, which is proved to spell the steps, and all others word by word. What is read spells those
//! steps, and what spells steps is read as them ([`law_spelling`]: `AreSpelled`, which says nothing of an order of work).
//! [`parse_step_within`] reads one step of version 2 (`exact`, `spelled`, `accepts`). Each step keeps its limits (`Step`'s
//! invariant `IsStep`; `limits`), and its page is below the size (`within`). [`Bytes`], [`Buffer`] and [`Trace`] read as their
//! lists, however a trace keeps them; `kind` is what a step does without its bytes. A refused `push` changes nothing, and a copy is
//! the same (`clone`). The texts of faults are stated.
//!
//! **Only tested**: that `push` and `push_text` succeed where memory is there; the numbers of the faults. **Not claimed**: that
//! `with_capacity` makes room; that an entry has 16 bytes for all steps that its text counts; which texts are read in one pass;
//! speed.
#![tactic(auto)]

mod buffer;
mod bytes;
mod entering;
mod entry;
mod error;
mod kind;
mod laws;
mod limits;
mod parse;
mod places;
mod plain;
mod step;
mod text_steps;
mod trace;

pub use buffer::{Buffer, MAX_BUFFER};
pub use bytes::{Bytes, MAX_BYTES};
pub use error::{PushError, TraceError};
pub use kind::StepKind;
pub use laws::{law_one_step, law_spelling};
pub use limits::StepLimits;
pub use parse::{parse_step, parse_step_within};
pub use places::MAX_STEPS;
pub use step::{Action, Queue, Step};
pub use trace::Trace;
