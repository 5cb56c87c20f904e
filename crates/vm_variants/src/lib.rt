//! A configuration with other minimums, shares and seeds of its guests, in the place of those of its text.
//!
//! [`set_guest`] gives a [`GuestSetting`] of one guest another value, [`set_minimums`] gives each guest a percentage of its size as
//! its minimum, and [`add_to_seeds`] adds a number to each seed. [`Changes`] are all of these for one run, and [`Changes::apply`] does
//! them. None of these calls takes memory: the guests are moved out of the configuration, changed, and moved back.
//!
//! A clause sees a configuration as `vm_config` has it. `specs/Guests.antt` has the values that a guest may get and why one is refused,
//! `specs/Variants.antt` the configuration that each change makes, and `specs/Changes.antt` that of all changes of a run.
//! `specs/Texts.antt` says which text has the changed value in the place of its own: [`law_text`] says that it means the changed
//! configuration.
//!
//! **Proved**: [`set_guest`] gives the minimum or the shares of a guest another value and leaves all else (`ok`); it is refused
//! exactly where there is no such guest or the value is out of its range, and changes nothing then (`refusal`, `err`).
//! `check_guest` answers the same and `guest_range` the range. [`set_minimums`] gives each guest a percentage of its size as its
//! minimum, rounded up, the least number of pages that is at least so much ([`law_percent`]); [`add_to_seeds`] adds modulo 2^64.
//! [`Changes::apply`] does a run's changes in their order: percentage, minimums, shares, seeds (`ok`: `changed`), or tells the
//! first refused one, minimums before shares, and changes nothing. Laws, over every configuration: a value that isn't refused keeps
//! the limits and stands there from then on, and of two the later counts ([`law_settings`]); changes keep the limits, and those of
//! one run after another's lead where they lead from the first configuration, but that both numbers are added to seeds, if they
//! change whatever the others did ([`law_runs`]); a setting of the machine may come before or behind ([`law_machine`]). A changed
//! value is what `min` or `shares` of the text would have given ([`law_text`]). [`law_examples`] has seven examples by hand.
//!
//! **Not claimed**: the texts of `GuestError`; speed. That no memory is taken is so since no call can answer that it was refused.
#![tactic(auto)]

mod changes;
mod error;
mod guest_setting;
mod guest_value;
mod law;
mod minimums;
mod parts;
mod seeds;
mod setting;

pub use changes::Changes;
pub use error::GuestError;
pub use guest_setting::{GuestRange, GuestSetting};
pub use guest_value::GuestValue;
pub use law::{
    law_examples, law_machine, law_percent, law_runs, law_seeds, law_settings, law_text,
};
pub use minimums::set_minimums;
pub use seeds::add_to_seeds;
pub use setting::{check_guest, guest_range, set_guest};
