//! What a host takes from its guests and gives them, over a [`vm_pool::Pool`].
//!
//! For a command that needs frames at once, [`make_room`] takes them: what guests hold above their targets first, then a page at a
//! time from the guest whose memory is worth least. At a boundary of epochs [`plan_boundary`] finds what the state of the host
//! asks for, whose targets fall and rise, who gives up frames, who gives idle memory to others and who is blocked, and [`carry_out`]
//! does it. The rules are those of Waldspurger, "Memory Resource Management in VMware ESX Server" (OSDI 2002), sections 5.1, 5.2 and
//! 6.3, in this project's profile; `vm_plan` decides by them from plain rows, and this crate makes the rows, and does to the pool what
//! was decided.
//!
//! What admission control (section 6.2) covers can be had: [`law_room`].
//!
//! **Proved**: [`make_room`] and [`carry_out`] are their definitions over the pool, and [`plan_boundary`] finds exactly what a
//! boundary is to do, each list from the frames as the lists before it leave them (`plan`); each move can be done in its turn, and
//! together they are what the state asks for (`can`, `done`). What guests hold above their targets goes first in `make_room`, by
//! position and whatever their ratio. Each page that is taken after that, or by a plan, is that of a guest above its minimum whose
//! adjusted ratio is least then, of equal ones the lower position (`fair`, `taken_fairly`); fewer than the goal wants are taken
//! only where no guest is left above its minimum (`enough`). Each grant goes to the greatest ratio that wants one, while the
//! state's conditions hold (`granted_fairly`). A raised guest gives nothing to itself. A plan tells exactly the guests that will
//! wait. In high each page that moves is given fairly (`rebalanced_fairly`), no more than the machine's limit, and than guests want
//! beside the frames still to return (`most_moved`). Where memory is refused the pool is as it was; it is wanted only where there
//! is a guest (`memory`). What admission covers can be had: a start or a raised minimum finds its frames once room is made,
//! whatever the tax ([`law_room`]).
//!
//! **Only tested**: that calls succeed where memory is there. **Not claimed**: speed; that the policy is good. For callers:
//! `proofs/EnoughLemmas`, `RoomLemmas`, `FairLemmas`, `CarryLemmas`.
#![tactic(auto)]

mod boundary;
mod law;
mod lists;
mod policy;
mod rebalance;
mod reclaim;
mod rest;
mod room;
mod rows;

pub use boundary::plan_boundary;
pub use law::law_room;
pub use lists::{Blocked, BoundaryPlan, Paged, Paging};
pub use policy::Numbers;
pub use reclaim::{blocks_in, carry_out, numbers_of};
pub use room::{Raise, make_room};
