ghost use Rattle.std.specs.Prelude.{◌≡◌, ◌<◌, IsTrue};

mod balloon;
mod frames;
mod page_map;
mod pages;
mod patches;
mod sampling;
mod swap;
mod tables;

use std::fmt::Debug;
use std::process::Abort;

// Asserts that both are the same. It stands here once, since what says how two values differ is proved wherever it stands.
fn check_eq<T: Copy + Debug + PartialEq>(rt: &impl Abort, found: T, wanted: T) {
    assert_eq!(rt; found, wanted);
}

// The same of numbers, for what comes after to rely on.
fn check_number(rt: &impl Abort, found: u32, wanted: u32)
    ensures { found ≡ wanted }
{
    assert_eq!(rt; found, wanted);
}

// Asserts that this holds, for what comes after to rely on.
fn check(rt: &impl Abort, truth: bool)
    ensures { IsTrue truth }
{
    assert!(rt; truth);
}

// Asserts that a number is below another one, for what comes after to rely on.
fn check_below(rt: &impl Abort, number: u32, limit: u32)
    ensures { number < limit }
{
    assert!(rt; number < limit);
}
