//! Cases of configurations: of their keys, of whole texts, and of what they mean.

pub(crate) mod complaints;
mod faults;
pub(crate) mod keys;
pub(crate) mod lengths;
pub(crate) mod meanings;
pub(crate) mod places;
pub(crate) mod ranges;
pub(crate) mod settings;
mod templates;
pub(crate) mod texts;
