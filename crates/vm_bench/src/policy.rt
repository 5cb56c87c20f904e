//! One text under many taxes, and its series as a table and as a drawing.
use crate::digest::Digest;
use crate::random::Random;
use crate::runs::{report_of, series_of};
use crate::text::{Draft, Machine, Text};
use std::alloc::{AllocError, Global};
use std::thread::Threads;
use vm_sim::RunError;

const GUESTS: u32 = 48;

const SIZE: u32 = 512;

const TAXES: [u32; 3] = [0, 5000, 9900];

// Every other guest touches few pages and leaves the rest idle.
fn push_guest(
    guests: &mut Text,
    random: &mut Random,
    number: u32,
    steps: u32,
) -> Result<(), AllocError> {
    let fields = ",\"samples\":50,\"period\":50";
    guests.begin_guest("policy", number, SIZE, 32, fields)?;
    let used = if number % 2 == 0 { SIZE } else { SIZE / 4 };
    for _ in 0..steps {
        let (page, offset) = (random.skewed(used), random.below(4080));
        if random.below(3) == 0 {
            guests.read_step(page, offset, random.below(16) + 1)?;
        } else {
            let length = random.below(4) + 1;
            guests.write_step(random, page, offset, length)?;
        }
    }
    guests.end_guest()
}

// A guest is started anew, or gets another number of shares.
fn push_change(commands: &mut Text, random: &mut Random, epoch: u32) -> Result<(), AllocError> {
    let number = random.below(GUESTS);
    if random.below(3) == 0 {
        let shares = random.below(5_000) + 1;
        return commands.command_with(epoch, "memshares", "policy", number, (" ", shares, ""));
    }
    commands.command(epoch, "destroy", "policy", number, "")?;
    commands.command(epoch, "start", "policy", number, "")
}

// All guests, and a change before each third epoch.
fn push_all(
    draft: &mut Draft,
    random: &mut Random,
    steps: u32,
    epochs: u32,
) -> Result<(), AllocError> {
    for number in 0..GUESTS {
        push_guest(&mut draft.guests, random, number, steps)?;
    }
    for change in 1..epochs / 3 {
        push_change(&mut draft.commands, random, change * 3)?;
    }
    Ok(())
}

fn machine(tax: u32, epochs: u32) -> Machine {
    Machine {
        frames: 14_000,
        tax,
        page_rate: 16,
        quantum: 20,
        epochs,
    }
}

// The text under each tax.
fn run_all<RT: Threads + Sync>(
    rt: &RT,
    alloc: Global,
    draft: &Draft,
    epochs: u32,
    digest: &mut Digest,
) -> Result<(), RunError> {
    for tax in TAXES {
        report_of(rt, alloc, 1, &machine(tax, epochs), draft, digest)?;
    }
    Ok(())
}

/// The series of the text, and the text under each tax.
pub fn policy<RT: Threads + Sync>(
    rt: &RT,
    alloc: Global,
    seed: u64,
    part: u32,
    digest: &mut Digest,
) -> Result<(), RunError> {
    let mut random = Random::new(seed, 4);
    let mut draft = Draft::new(alloc);
    let epochs = 3_000 / part.max(1) + 1;
    push_all(&mut draft, &mut random, 4_000 / part.max(1), epochs)?;
    series_of(rt, alloc, &machine(7500, epochs), &draft, digest)?;
    run_all(rt, alloc, &draft, epochs, digest)
}
