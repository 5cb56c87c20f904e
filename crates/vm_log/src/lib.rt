//! From a host log to a configuration: the domains of a real host as guests that use, epoch by epoch, as much memory as was sampled.
//!
//! [`plan_log`] reads a host log, has [`vm_steer::Steering`] follow the policy sample by sample, and writes the configuration text of the
//! recorded host (`vm_recorded`) once the log has ended, or a limit of such a text would be passed. What of a domain is seen is in
//! `specs/Seen`, the epochs in `specs/Epochs`, the host in `specs/HostOf`, how many samples are taken in `specs/Taking`, and what is
//! written in `specs/Streams`. [`law_in_range`] says that what is taken of any samples is a host in range.
//!
//! Memory goes with the domains and epochs: four bytes for each of both. The time of a sample goes with its domains and the guests.
//!
//! **Proved**, for a reader whose bytes are known: where [`plan_log`] answers `Ok`, the policy isn't refused, what was written is
//! the text of the host of the samples that are taken, and nothing else, and it is told how many epochs it has, how many bad
//! samples were passed over, and which limit ended the reading (`plans`, definition `Plans` over `host_of` and `taken_of`). Each
//! error but want of memory has its cause; nothing was written then, or a front of the text where the write failed (`failed`,
//! definition `Fails`). A reader or a writer that fails in the call is told (`reader_failed`, `writer_failed`). For every policy in
//! range and every list of samples, what is taken of them is a recorded host in its ranges, whose text has at most 16777216 bytes
//! ([`law_in_range`]).
//!
//! **Only tried**: a second reading of the format beside it, on an independent program's examples, made logs, and logs at each
//! limit (`tools/log-check`, `tools/hostile-logs`). **Not claimed**: how memory and time grow. Each sample takes time for all
//! domains that were ever left alone.
#![tactic(auto)]

mod alone;
mod closing;
mod counting;
mod entries;
mod frames;
mod guests;
mod judging;
mod kept;
mod law;
mod log_error;
mod named;
mod planned;
mod raising;
mod recording;
mod stream;

pub use law::law_in_range;
pub use log_error::PlanError;
pub use planned::Planned;
pub use stream::plan_log;
