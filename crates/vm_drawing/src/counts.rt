//! What is told of a count.
ghost use Rattle.std.specs.Prelude.{◌≡◌, IfOk, string_bytes};
ghost use Rattle.vm_drawing.specs.Counts.{counted, ending_of};

use std::alloc::{AllocError, Global};

fn ending_of(count: usize) -> &'static str
    ensures { result.now ≡ ending_of count }
{
    if count == 1 { "" } else { "s" }
}

/// So many of what a word names, as `1 epoch` or `2 epochs`.
#[tactic(auto, unfolding(crate::specs::Counts::counted))]
pub fn counted(alloc: Global, count: usize, word: &str) -> Result<String, AllocError>
    ensures { IfOk result (λ text. string_bytes text ≡ counted count word.now) }
{
    let ending = ending_of(count);
    format!(in alloc; "{count} {word}{ending}")
}
