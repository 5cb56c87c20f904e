//! A recorded day, to see on which machine it fits.
use crate::digest::Digest;
use crate::random::Random;
use crate::runs::report_of;
use crate::text::{Draft, Machine, Text};
use std::alloc::{AllocError, Global};
use std::thread::Threads;
use vm_sim::RunError;

const GUESTS: u32 = 32;

const SIZE: u32 = 2048;

// Machines that have a half to a quarter, about, of what the guests are promised.
const FRAMES: [u32; 4] = [43_690, 32_768, 24_576, 16_384];

// A guest whose working set of 512 pages moves on by a page each 16 steps. The working set's first pages are the likelier ones, but
// in a day no few pages take most touches: the tenth of the used pages that is used most takes less than a fifth of them.
fn push_guest(
    guests: &mut Text,
    random: &mut Random,
    number: u32,
    steps: u32,
) -> Result<(), AllocError> {
    guests.begin_guest("day", number, SIZE, 64, ",\"samples\":100,\"period\":100")?;
    for step in 0..steps {
        let page = (step / 16 + random.skewed(512)) % SIZE;
        let (offset, length) = (random.below(4080), random.below(16) + 1);
        if random.below(2) == 0 {
            guests.write_step(random, page, offset, length)?;
        } else {
            guests.read_step(page, offset, length)?;
        }
    }
    guests.end_guest()
}

/// All guests of the day.
pub fn push_guests(guests: &mut Text, random: &mut Random, steps: u32) -> Result<(), AllocError> {
    for number in 0..GUESTS {
        push_guest(guests, random, number, steps)?;
    }
    Ok(())
}

// The day on each machine.
fn run_all<RT: Threads + Sync>(
    rt: &RT,
    alloc: Global,
    draft: &Draft,
    epochs: u32,
    digest: &mut Digest,
) -> Result<(), RunError> {
    for frames in FRAMES {
        let machine = Machine {
            frames,
            tax: 7500,
            page_rate: 16,
            quantum: 200,
            epochs,
        };
        report_of(rt, alloc, 1, &machine, draft, digest)?;
    }
    Ok(())
}

/// A day, on each machine.
pub fn day<RT: Threads + Sync>(
    rt: &RT,
    alloc: Global,
    seed: u64,
    part: u32,
    digest: &mut Digest,
) -> Result<(), RunError> {
    let mut random = Random::new(seed, 1);
    let mut draft = Draft::new(alloc);
    push_guests(&mut draft.guests, &mut random, 16_000 / part.max(1))?;
    run_all(rt, alloc, &draft, 100 / part.max(1) + 1, digest)
}
