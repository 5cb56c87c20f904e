//! What is told of a page.
ghost use Rattle.std.specs.Prelude.{◌≡◌, IfOk, string_bytes};
ghost use Rattle.vm_drawing.specs.Page.{page_words};

use std::alloc::{AllocError, Global};

/// What a page that stands for so many KiB is, and a frame with it: `a frame and a page have 4096 bytes` where these are 4, or, as it
/// may be, `a frame and a page stand for 16384 KiB`.
#[tactic(auto, unfolding(crate::specs::Page::page_words))]
pub fn page_words(alloc: Global, kib: u32) -> Result<String, AllocError>
    ensures { IfOk result (λ text. string_bytes text ≡ page_words kib) }
{
    if kib == 4 {
        String::from_str(alloc, "a frame and a page have 4096 bytes")
    } else {
        format!(in alloc; "a frame and a page stand for {kib} KiB")
    }
}
