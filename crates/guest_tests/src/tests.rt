mod board;
mod gates;
mod pool;
mod traces;

use std::fmt::Debug;
use std::process::Abort;

// Asserts that both are the same. It stands here once, since what says how two values differ is proved wherever it stands.
fn check_eq<T: Copy + Debug + PartialEq>(rt: &impl Abort, found: T, wanted: T) {
    assert_eq!(rt; found, wanted);
}
