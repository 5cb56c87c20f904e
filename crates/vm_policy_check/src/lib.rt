//! What is wrong or surprising in a policy for `vmsteer`.
//!
//! [`check_policy`] gives the [`Finding`]s of a text: its first fault where it is refused, and else the keys that are none of a policy
//! or stand twice, minimums that are more than the memory, and guests that may have less than they are left at least. Each displays
//! as `PLACE: WHAT`.
//!
//! Proved: the findings are those of `specs/Findings.antt` and no others, in that order, over the keys of `specs/KnownKeys.antt`; and
//! each displays as `specs/Texts.antt` says.
#![tactic(auto)]

mod checking;
mod finding;
mod known;
mod objects;
mod policy;

pub use checking::check_policy;
pub use finding::{Finding, Part};
