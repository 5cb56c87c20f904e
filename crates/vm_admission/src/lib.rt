//! Admission control: the books of what the running guests of a machine were promised.
//!
//! A guest is promised its minimum and an overhead in frames, and a reserve in pages of swap for the part of its
//! memory above the minimum. It is admitted only where the machine can keep every promise at once (Waldspurger,
//! "Memory Resource Management in VMware ESX Server", OSDI 2002, section 6.2).
//!
//! **Proved**: `admit` and `change_min` refuse for memory exactly where the sum of minimums and overheads would exceed the frames
//! (`no_memory`), for swap exactly where that sum fits and the sum of reserves would exceed the swap (`no_swap`), and succeed
//! otherwise (`ok`). The sums are exact after each call, and a refusal changes nothing (`err`). No call takes memory. **Only
//! tested**: the numbers of the two causes.
#![tactic(auto)]

mod books;
mod error;

pub use books::Books;
pub use error::AdmissionError;
