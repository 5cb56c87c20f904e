//! A libvirt host whose domains all change from sample to sample, steered by its log.
use crate::digest::Digest;
use crate::host_log::{HostLog, policy, samples};
use crate::random::Random;
use crate::runs::orders_of;
use std::alloc::Global;
use vm_sim::RunError;

const SAMPLES: u32 = 1_500;

// As many as a sample may have.
const DOMAINS: u32 = 256;

// In GiB: two thirds of what the domains may have.
const MEMORY: u32 = 680;

/// The orders to the domains.
pub fn steer(alloc: Global, seed: u64, part: u32, digest: &mut Digest) -> Result<(), RunError> {
    let mut random = Random::new(seed, 10);
    let policy = policy(alloc, &mut random, DOMAINS, MEMORY)?;
    let samples = samples(alloc, &mut random, DOMAINS)?;
    let count = SAMPLES / part.max(1) + 1;
    orders_of(
        alloc,
        HostLog::new(&policy, samples.as_slice(), count),
        digest,
    )
}
