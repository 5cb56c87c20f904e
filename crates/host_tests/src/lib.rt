//! The tests of a host, by public calls: of `vm_reclaim` and `vm_host`.
//!
//! They are a crate of their own, so that neither is proved once more with its tests.
#![tactic(auto)]

#[cfg(test)]
mod tests;
