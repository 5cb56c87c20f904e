//! Which pages of a guest are where, with the frames of those that are in.
//!
//! A [`PageMap`] is what Waldspurger (OSDI 2002, section 2) calls a pmap: it leads from the pages of a guest to frames of the
//! machine. It owns those frames. The pages that are in are also kept as a [`PageSet`], so that the k-th of them is found in
//! order, as a random choice of a page to be paged out needs (section 3.3).
//!
//! **Proved**: places, bytes and frame numbers as a whole after each call, each one change of one page, whether its bytes stand in
//! its frame, in lines of it or in a log beside it. `take_frame` gives the frame of some page that is in, and none only where no page
//! is in; after `clear` each page is absent. `exchange` changes two pages: one goes out, the other comes into its frame, and
//! the swap area with them (`area`, `pages`). `resident_at` is the k-th page that is in, in rising order, whatever the order in
//! which pages were placed (`listed`).
//!
//! **Only tested**: that `new` succeeds where memory is there. **Not claimed**: speed. For callers: `proofs/Resident`, `Places`,
//! `FramesUnder`.
#![tactic(auto)]

pub mod page_map;

pub use page_map::{PageMap, Place};
pub use vm_pages::PageSet;
