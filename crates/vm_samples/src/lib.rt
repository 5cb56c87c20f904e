//! What a host log says: a policy, and samples of the host's domains.
//!
//! A host log is a policy, a line `---`, and samples, each ended by a line `---`. Lines end with LF. A [`HostLog`] reads what stands
//! in front of each such line from a source, one block at a time, as soon as the line is there.
//!
//! [`read_policy`] reads a [`Policy`], a JSON text that says how a host's memory is shared among its domains, or tells the first
//! [`PolicyFault`]. [`read_sample`] reads a [`Sample`]: what `virsh domstats` writes of the [`Domain`]s at one moment, or the first
//! [`BadSample`].
//!
//! A clause sees a policy and a domain as plain records, and a sample as a list of these: `specs/Policies.antt` and
//! `specs/Samples.antt`. `specs/PolicyOf.antt` has the policy that a text means, key by key, over what may stand at one key in
//! `specs/Keys.antt`; `specs/SampleOf.antt` the sample that bytes mean, over what a line tells in `specs/SampleLines.antt`; and
//! `specs/Blocks.antt` the blocks of a stream. `specs/Names.antt` has the names of guests, and `specs/FaultTexts.antt` and
//! `specs/BadLines.antt` the words in which a fault of a policy and a bad sample are told.
//!
//! **Proved**: [`read_policy`] gives the policy that a text means, or its first fault with the place (`policy`, definition
//! `policy_of`), and what is read is within the ranges, no name twice (`within`, record `IsPolicy`). [`read_sample`] gives the
//! domains that bytes mean, or the first bad line and why (`sample_of`). Both may answer that memory was refused instead. The words
//! of faults and bad samples are their definitions (`text_of`). [`HostLog::next`] takes the next block of a stream, or all that is
//! left where there is none (`gives`, `blocks_of`); a block has at most 16777216 bytes (`short`) and is refused as too long only
//! where it has more (`long`); where its line `---` is among the bytes at hand nothing is read (`at_hand`). A failed source is told
//! (`failure`, `stays`).
//!
//! **Only tried**: examples of an independent program, and made streams beside a second reading of the format
//! (`tools/steer-check`). **Not claimed**: that memory goes with the longest block; what calls after an error of `next` give.
#![tactic(auto)]

mod fault;
mod field;
mod front;
mod guests;
mod host_log;
mod keys;
mod line;
mod lines;
mod names;
mod number;
mod place;
mod policy;
mod policy_text;
mod reading;
mod root;
mod sample;

pub use fault::{PolicyError, PolicyFault, Wrong};
pub use host_log::{HostLog, LogError};
pub use names::is_name;
pub use place::{Key, Place};
pub use policy::{GuestPolicy, Policy};
pub use policy_text::read_policy;
pub use reading::read_sample;
pub use sample::{BadLine, BadSample, Domain, Sample, SampleError};
