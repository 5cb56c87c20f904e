//! The tests of whole runs, by the public calls of `vm_sim`, of their series and charts, by those of `vm_series` and `vm_drawing`,
//! and of rounds with tools, by those of `vm_sweep`.
//!
//! They are a crate of their own, since each crate of such tests is made into a program with all that is below it.
#![tactic(auto)]

#[cfg(test)]
mod tests;
