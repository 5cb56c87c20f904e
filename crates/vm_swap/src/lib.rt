//! The swap area of a guest: the bytes of those of its pages that the machine took back by paging
//! (Waldspurger, "Memory Resource Management in VMware ESX Server", OSDI 2002, section 3.1).
//!
//! The area lies in memory that is reserved when it is made, so that a page can always be swapped out. A page whose few written
//! bytes are kept as a log is swapped out and in as that log. What finds the slot of a page lies in blocks of 256 pages, of which only
//! those are written in which a page ever went out.
//!
//! **Proved**: an area is a bounded map from page to 4096 bytes, exact as a whole after each call (`put`, `get_into`, `zero_page`,
//! `drop_page`, `empty`, `len`, `capacity`); `grow` adds to the capacity alone. Pages come from frames and go to them, each call an
//! equation over the map, the frame's number and the page's bytes: `save` (out), `load` (in, as zeros where the page is not there)
//! and `trade` (one in, another out of its frame). Only `new` and `grow` take memory; a refused `grow` changes nothing.
//!
//! **Only tested**: that `new` and `grow` succeed where memory is there. **Not claimed**: which pages are kept as few bytes and
//! which whole; how much memory the system hands out for slots and blocks that are never used; speed.
#![tactic(auto)]

mod area;
mod index;
mod table;

pub use area::SwapArea;
pub use index::PAGE_LIMIT;
pub use vm_frames::PAGE_BYTES;
