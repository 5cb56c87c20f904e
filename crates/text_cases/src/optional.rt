// What may come to nothing.
use crate::table::Outcome;
use std::alloc::{AllocError, Global};

/// Whether a number reads as it is wanted to, or as `none` where there is none.
pub(crate) fn optional(
    alloc: Global,
    wanted: &str,
    came: Option<u64>,
) -> Result<Outcome, AllocError> {
    match came {
        Some(number) => Outcome::of(alloc, wanted, &number),
        None => Outcome::of(alloc, wanted, &"none"),
    }
}
