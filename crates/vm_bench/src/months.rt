//! Months out of a day: guests that are destroyed and started over.
use crate::digest::Digest;
use crate::random::Random;
use crate::runs::report_of;
use crate::text::{Draft, Machine, Text};
use std::alloc::{AllocError, Global};
use std::thread::Threads;
use vm_sim::RunError;

const GUESTS: u32 = 8;

const SIZE: u32 = 4096;

// The steps of a day, which is an epoch.
const STEPS: u32 = 20_000;

// A guest that mostly writes.
fn push_guest(
    guests: &mut Text,
    random: &mut Random,
    number: u32,
    steps: u32,
) -> Result<(), AllocError> {
    guests.begin_guest("month", number, SIZE, 1024, ",\"rate\":64")?;
    for _ in 0..steps {
        let (page, offset) = (random.skewed(SIZE), random.below(4080));
        if random.below(12) == 0 {
            guests.read_step(page, offset, random.below(8) + 1)?;
        } else {
            let length = random.skewed(8) + 1;
            guests.write_step(random, page, offset, length)?;
        }
    }
    guests.end_guest()
}

// Each guest is started anew.
fn push_restarts(commands: &mut Text, epoch: u32) -> Result<(), AllocError> {
    for number in 0..GUESTS {
        commands.command(epoch, "destroy", "month", number, "")?;
        commands.command(epoch, "start", "month", number, "")?;
    }
    Ok(())
}

// All guests, and a new start of each before each epoch but the first.
fn push_all(
    draft: &mut Draft,
    random: &mut Random,
    steps: u32,
    epochs: u32,
) -> Result<(), AllocError> {
    for number in 0..GUESTS {
        push_guest(&mut draft.guests, random, number, steps)?;
    }
    for epoch in 1..epochs {
        push_restarts(&mut draft.commands, epoch)?;
    }
    Ok(())
}

/// Days of guests that begin anew each day.
pub fn months<RT: Threads + Sync>(
    rt: &RT,
    alloc: Global,
    seed: u64,
    part: u32,
    digest: &mut Digest,
) -> Result<(), RunError> {
    let mut random = Random::new(seed, 2);
    let mut draft = Draft::new(alloc);
    let epochs = 100 / part.max(1) + 1;
    push_all(&mut draft, &mut random, STEPS / part.max(1), epochs)?;
    let machine = Machine {
        frames: 20_000,
        tax: 7500,
        page_rate: 64,
        quantum: STEPS,
        epochs,
    };
    report_of(rt, alloc, 1, &machine, &draft, digest)
}
