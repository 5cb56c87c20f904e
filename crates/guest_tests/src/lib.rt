//! The tests of a pool of guests, by public calls: of `vm_pool`, and of the rounds of `vm_board` that run their epochs.
//!
//! They are a crate of their own, so that none of those is proved once more with its tests.
#![tactic(auto)]

#[cfg(test)]
mod tests;
