//! A recorded program, made a guest.
use crate::digest::Digest;
use crate::random::Random;
use crate::recording::{Phase, Recording};
use crate::runs::import_of;
use std::alloc::{AllocError, Global};
use vm_import::ImportSettings;
use vm_sim::RunError;

// The phases of the program, which make some 17 million accesses.
const PHASES: u32 = 64;

fn all_phases(alloc: Global, random: &mut Random, count: u32) -> Result<Vec<Phase>, AllocError> {
    let mut phases = Vec::new(alloc);
    for number in 0..count {
        phases.push(Phase::new(alloc, random, number)?)?;
    }
    Ok(phases)
}

// Those of `vmtrace` where its words say nothing.
fn usual_settings(alloc: Global) -> Result<ImportSettings, AllocError> {
    Ok(ImportSettings {
        name: String::from_str(alloc, "guest")?,
        min: None,
        interval: 1_000_000,
        quantum: 1024,
        skip: 0,
        steps: 1_000_000,
        has_code: true,
    })
}

/// The guest of the recorded program.
pub fn import(alloc: Global, seed: u64, part: u32, digest: &mut Digest) -> Result<(), RunError> {
    let mut random = Random::new(seed, 8);
    let phases = all_phases(alloc, &mut random, PHASES / part.max(1) + 1)?;
    let settings = usual_settings(alloc)?;
    import_of(alloc, &settings, Recording::new(phases.as_slice()), digest)
}
