//! Cases of the steps of traces, and of traces.

mod actions;
pub(crate) mod characters;
pub(crate) mod orders;
pub(crate) mod steps;
