//! The tests of configurations and of the small crates that hold no pages, by their public calls, where a table of `text_cases` won't
//! do: of copies and limits of configurations, of the bytes of steps, of winner trees, books, domains, logs of lackey that are long or
//! fail, and a working set of many pages.
//!
//! They are a crate of their own, so that none of those is proved once more with its tests.
#![tactic(auto)]

#[cfg(test)]
mod tests;
