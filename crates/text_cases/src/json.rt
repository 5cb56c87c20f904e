//! Cases of JSON texts, and of what is found in their values.

pub(crate) mod arrays;
pub(crate) mod depths;
pub(crate) mod items;
pub(crate) mod members;
pub(crate) mod moved;
pub(crate) mod numbers;
pub(crate) mod texts;
mod told;
