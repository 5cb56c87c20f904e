//! The tests of what holds pages, by public calls: of sets of pages, frames, pages of few bytes, page maps, swap areas, samplers
//! and the balloon device.
//!
//! They are a crate of their own, so that none of those is proved once more with its tests.
#![tactic(auto)]

#[cfg(test)]
mod tests;
