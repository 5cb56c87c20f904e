//! A libvirt host whose domains all change from sample to sample, made a configuration of its log.
use crate::digest::Digest;
use crate::host_log::{HostLog, policy, samples};
use crate::random::Random;
use crate::runs::plan_of;
use std::alloc::Global;
use vm_sim::RunError;

const SAMPLES: u32 = 1_500;

const DOMAINS: u32 = 64;

// In GiB: two thirds of what the domains may have.
const MEMORY: u32 = 170;

// The samples of an epoch: so many that no trace has too many steps.
const EVERY: u32 = 10;

/// The configuration of the host.
pub fn log(alloc: Global, seed: u64, part: u32, digest: &mut Digest) -> Result<(), RunError> {
    let mut random = Random::new(seed, 11);
    let policy = policy(alloc, &mut random, DOMAINS, MEMORY)?;
    let samples = samples(alloc, &mut random, DOMAINS)?;
    let count = SAMPLES / part.max(1) + 1;
    plan_of(
        alloc,
        EVERY,
        HostLog::new(&policy, samples.as_slice(), count),
        digest,
    )
}
