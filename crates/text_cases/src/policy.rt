//! Cases of the policy: thresholds, states, prices, and who gives frames up, gets some, and gives idle ones to others.

pub(crate) mod least;
pub(crate) mod paging;
pub(crate) mod plans;
pub(crate) mod prices;
pub(crate) mod rebalancing;
mod rows;
pub(crate) mod thresholds;
