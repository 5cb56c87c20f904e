//! Sets of the pages of a guest, which find their k-th page in order, and list their greatest and their least ones; marks on its
//! pages, which count nothing; and tables with an item for each page, which are written block by block on first use.
//!
//! **Proved**: the exact result and set after each call (`added`, `removed`, `after`, `size`, `listed`, `in_range`, `there`).
//! `list_greatest` and `list_least` give the greatest or least pages in order, in room that is there, and `list_greatest_outside`
//! the greatest ones that neither of two sets has; `insert_all` and `remove_all` take each page of a list, in any order (`after`),
//! and `insert_all_if_new` adds all of them or none (`all_new`, `added`, `same`). A set keeps a bit for each page, in words that
//! reach no further than the pages that ever came in, and finds its k-th through counts of blocks of 2048 pages. The exact item
//! that a table gives for a page, and the table after each call (`PageTable`).
//!
//! **Only tested**: that `new` and `all` succeed where memory is there. **Not claimed**: speed, and that the counts and blocks are
//! there. For callers: `proofs/PageSets`, `Listings`.
#![tactic(auto)]

pub mod page_marks;
pub mod page_set;
pub mod page_table;
mod words;

pub use page_marks::PageMarks;
pub use page_set::PageSet;
pub use page_table::PageTable;
