mod admission;
mod commands;
mod config;
mod lackey;
mod lists;
mod plan;
mod tax;
mod traces;
mod working_set;

use std::alloc::Global;
use std::fmt::{Debug, Display};
use std::process::Abort;

// Asserts that both are the same. It stands here once, since what says how two values differ is proved wherever it stands.
fn check_eq<T: Copy + Debug + PartialEq>(rt: &impl Abort, found: T, wanted: T) {
    assert_eq!(rt; found, wanted);
}

// Asserts how a value reads.
fn check_words(rt: &impl Abort, alloc: Global, value: impl Copy + Display, wanted: &str) {
    let words = value.to_string(alloc).expect(rt, "memory");
    check_eq(rt, words.as_str(), wanted);
}
