//! What a thread has for its runs.
use std::alloc::Global;
use vm_config::Config;
use vm_tally::Shelf;
use vm_variants::Changes;

/// What a thread has for its runs: a configuration, until memory is refused in a run, changes like those of each of them, which say
/// what guests they change, and the rooms that guests of its last run left.
#[derive(Drop)]
pub(crate) struct Workplace {
    pub(crate) alloc: Global,
    pub(crate) config: Option<Config>,
    pub(crate) like: Changes,
    pub(crate) shelf: Shelf,
}
