//! What a host does about memory: its state, which guests give pages up, and which get more.
//!
//! The rules are those of Waldspurger, "Memory Resource Management in VMware ESX Server" (OSDI 2002), in this project's
//! profile: min-funding revocation with a tax on idle memory (sections 5.1 and 5.2), four states by the free frames, and idle
//! memory that moves to those that would pay more for it (section 6.3). Everything is decided from plain numbers: a row for
//! each guest, thresholds, and the number of free frames.
//!
//! **Proved**: each revocation takes from a guest above its minimum whose price is least, as often as is wanted or until none is
//! left (`revocations`, `revoke`: `list`); each grant goes to the greatest wanting price while the state's conditions hold, and the
//! list ends only where they don't (`grant`: `list`). Each entry of `rebalancing` is the guest of least price among those above
//! their floor, while another would pay more for one page more and what is given would not come straight back; the list ends
//! exactly where one of these fails or at its limit. Each list is a function of the arguments (`exact`), and of rows with shares
//! any list that meets the relation is that one ([`law_revocation_list`], [`law_grant_list`], [`law_rebalancing_list`]). In
//! rebalancing no guest gives after it took or takes after it gave, what is paid most never rises and the least price never falls
//! ([`law_takers_keep`]). Each move can be applied where it stands (`within`, `applies`). An error comes only where a page is
//! wanted or may be granted (`memory`). A state falls at once and rises by one (`next_state`: `one_up`). Thresholds, paging counts
//! and blocking are their definitions; whole percents decide as hundredths ([`law_scales`]). A [`Plan`] reads as its positions; its
//! stretches are as long as can be (`joined`).
//!
//! **Only tested**: that calls succeed where memory is there. **Not claimed**: time and memory, as that moves in a row are found at
//! once; that the policy is good. For callers: `proofs/ListLemmas`, `Places`, `Scales`.
#![tactic(auto)]

mod grant_runs;
mod grants;
mod laws;
mod moves;
mod paging;
mod plan;
mod rebalance;
mod rebalancing_runs;
mod revocation;
mod revocation_runs;
mod row;
mod scan;
mod state;
mod stretch;
mod thresholds;
mod tracking;
mod transfers;

pub use grants::{grant, lets_grow};
pub use laws::{
    law_grant_list, law_rebalancing_examples, law_rebalancing_list, law_revocation_list,
    law_scales, law_takers_keep,
};
pub use moves::Moves;
pub use paging::{is_blocked, page_count};
pub use plan::Plan;
pub use rebalance::rebalancing;
pub use revocation::{revocations, revoke};
pub use row::PlanRow;
pub use scan::least;
pub use state::{State, next_state};
pub use stretch::Stretch;
pub use thresholds::{Percents, Thresholds};
