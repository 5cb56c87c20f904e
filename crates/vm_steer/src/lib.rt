//! The policy of memory at work on a host of libvirt, sample by sample.
//!
//! [`Steering`] takes what `virsh domstats` tells of a host's domains at one moment, a [`vm_samples::Sample`], and finds what their balloons
//! are to be ordered. What it tells of a sample is plain data, [`Told`], with the numbers of each domain; what is written of it,
//! [`text_of`], has these as comments and the orders as `setmem` lines, which `virsh` takes. A bad sample changes nothing, and
//! [`bad_text`] says why it is bad. [`records_of`] has the same decisions as lines of a table.
//!
//! [`steer`] does this for a whole host log, from a source to a sink, in one of both forms ([`Form`]). What it writes is in
//! `specs/Streams`, over the samples of `specs/Fold`.
//!
//! The rules of price, state, revocation, grants and rebalancing are those of `vm_plan` (Waldspurger, "Memory Resource Management in VMware
//! ESX Server", OSDI 2002, sections 5.1, 5.2 and 6.3), over a row for each domain that is steered. What the numbers of a row are on a real
//! host is in `specs/Look`, what is decided in `specs/Deciding`, what is told of a sample after the one before in `specs/Told`, and the
//! lines in `specs/Text` and `specs/Table`. What is true of every policy and every list of samples (`specs/Fold`) are laws: [`law_bounds`],
//! [`law_promise`], [`law_fairness`], [`law_bad_samples`] and [`law_records`].
//!
//! The numbers of a sample take a few passes over its domains; names are sorted and looked up by halves. An entry of a list of decisions
//! costs a few steps, and where they change hands a logarithm of the number of domains.
//!
//! **Proved**: a [`Steering`] is a policy and what was told of the last good sample; `sample` and `take` lead to what the
//! definitions tell of the next one (`taken`: `next_told`), and the text is that of what is told (`text`); no number is lost,
//! whatever 64-bit numbers the statistics have. Where memory is refused nothing is changed (`unchanged`). Laws, for every policy in
//! range and every list of samples: a domain is ordered at least its minimum; where it is lowered, at least what it holds less the
//! rate; where it is raised, at most its cap, which is at most its size ([`law_bounds`]). After the decisions all are meant to hold
//! no more than before, or it fits into memory beside all else that is held and promised, and nothing is raised where more is held
//! and promised than memory has ([`law_promise`]). Each revocation and each entry of rebalancing takes from a domain above its
//! minimum whose adjusted ratio is least then ([`law_fairness`]). Where [`steer`] answers `Ok`, the policy isn't refused, no block
//! is too long, the reader has ended, and what was written is the header, if there is one, and the text of each sample, and nothing
//! else (`steers`, `ended`). Each error but want of memory has its cause, and each says what was written (`failed`); a failed
//! reader or writer is told.
//!
//! **Not claimed**: that the text of a sample goes out before more is read; speed; that the policy is good for a host.
#![tactic(auto)]

mod balloon;
mod bounds;
mod decide;
mod fate;
mod form;
mod keys;
mod last;
mod law;
mod limits;
mod lines;
mod look;
mod measures;
mod moves;
mod names;
mod numbers;
mod order;
mod orders;
mod outcome;
mod remembered;
mod rules;
mod sight;
mod steer_error;
mod steering;
mod stream;
mod table;
mod text;
mod told;
mod why;

pub use bounds::{Bounds, bounds_at, rules_for};
pub use fate::{Fate, LeftDomain, SteeredDomain};
pub use form::Form;
pub use law::{law_bad_samples, law_bounds, law_fairness, law_promise, law_records};
pub use remembered::Remembered;
pub use rules::Rules;
pub use steer_error::SteerError;
pub use steering::Steering;
pub use stream::steer;
pub use table::records_of;
pub use text::{bad_text, text_of};
pub use told::{Entry, Told};
pub use why::Why;
