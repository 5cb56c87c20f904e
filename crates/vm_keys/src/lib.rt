//! The odd keys of a JSON object: those that its reader doesn't know, and those that come twice.
//!
//! [`odd_keys`] tells them in their order, of an unknown one with the known key that is nearest to it, as [`nearest`] finds it. A
//! [`ShownKey`] is a key as a JSON string has it, and a [`ToldKey`] what is told of an odd one.
//!
//! Proved of [`odd_keys`] and [`nearest`]: the answer is the list, and the key, that `specs/OddKeys.antt` defines of the keys of the
//! object, which `specs/Keys.antt` has, and of how many letters have to be changed to make one of another, which `specs/Changes.antt`
//! has. Of a [`ShownKey`]: what it displays is the string that the crate `json` defines.
#![tactic(auto)]

mod law;
mod near;
mod odd;
mod seen;
mod shown;
mod told;

pub use law::{law_examples, law_fewest};
pub use near::nearest;
pub use odd::{OddKey, odd_keys};
pub use shown::ShownKey;
pub use told::ToldKey;
