//! From the text of a configuration to what a run is made of: a machine, its guests, and the commands for them.
//!
//! [`read_config`] reads a configuration of version 1, 2 or 3. [`read_config_v1`] reads one of version 1 alone, whose tax and percents
//! are whole percents, and [`migrate`] gives the configuration in hundredths of a percent that it stands for. A text is a
//! configuration or has a first fault, a [`ConfigError`], and [`explain`] tells the [`Place`] of that fault too.
//!
//! A clause sees a [`Config`] as its machine, its number of epochs and lists of domains, truth values and command lines.
//! `specs/Reading.antt` has the configuration that a text means, key by key; `specs/Versions.antt` what differs between the
//! versions, `specs/Keys.antt` what may stand at one key, and `specs/Migration.antt` the way from version 1 to version 2, and
//! `specs/AsVersion3.antt` what a text of version 2 is as version 3.
//! `specs/Located.antt` has the same reading with the place of each fault, and `specs/FirstFault.antt` what a place says.
//!
//! A [`Config`] can be cloned, and a [`Setting`] of its machine given another value: `specs/Settings.antt` has their ranges.
//!
//! **Proved**, memory aside: [`read_config`] answers the configuration that the text means, or its first fault in the order of the
//! tables (`config`, over `config_of`); for a text of version 1 that is what [`migrate`] makes of its meaning in whole percents
//! (`migrates`). What is read keeps its limits: machine, guests, at most 256 of them, one truth value for each (`limits`:
//! `IsConfig`). [`explain`] answers the same error and the place of its fault (`error`, `place`: `config_at`, whose answer without
//! the place is `config_of`); a guest that is told is the first with a fault (`guest`). For keys of the root and for commands no
//! clause but `place` says where the fault stands. A text of version 2 means what each text of version 3 means that has the same at
//! all other keys and reads as `rebalance` 0, `page` 4 and driver `own` ([`law_version_2`]). `Config::set` gives one of five
//! numbers of its machine another value and leaves all else (`ok`), or names the range that was missed, exactly where the value is
//! outside it, and changes nothing; what is set keeps the limits ([`law_settings`]). A copy is the same ([`Config`]: `clone`), and
//! [`Autostart`], [`Schedule`] and [`Scheduled`] read as the lists and lines of the text. The texts of a place, of a fault in a
//! step and of a text that is no object are stated.
//!
//! **Only tested**: that texts are read where memory is there, one of 16777216 bytes too; both sides of each range in each version;
//! one fault at each key, the first of several, and the other faults' texts. **Not claimed**: speed.
#![tactic(auto)]

mod autostart;
mod commands;
mod config;
mod error;
mod fault;
mod guest_keys;
mod guests;
mod keys;
mod machine;
mod migration;
mod names;
mod place;
mod reading;
mod schedule;
mod settings;
mod trace;
mod version;

pub use autostart::Autostart;
pub use config::{Config, ConfigV1};
pub use error::ConfigError;
pub use fault::Fault;
pub use migration::{law_version_2, migrate};
pub use names::is_name;
pub use place::{Key, Part, Place};
pub use reading::{explain, read_config, read_config_v1};
pub use schedule::{Schedule, Scheduled};
pub use settings::{OutOfRange, Setting, law_settings};
pub use vm_domains::{Domains, MachineSpec};
pub use vm_trace::TraceError;
