//! A fleet of guests under commands.
use crate::digest::Digest;
use crate::random::Random;
use crate::runs::report_of;
use crate::text::{Draft, Machine, Text};
use std::alloc::{AllocError, Global};
use std::thread::Threads;
use vm_sim::RunError;

const FRAMES: u32 = 262_144;

// What an operator does to one guest.
fn push_change(
    commands: &mut Text,
    random: &mut Random,
    epoch: u32,
    guests: u32,
) -> Result<(), AllocError> {
    let number = random.below(guests.max(1));
    let pages = random.skewed(16_384) + 1;
    match random.below(20) {
        0..=8 => { commands.command_with(epoch, "setmem", "vm", number, (" ", pages * 4, "k")) }
        9..=12 => {
            let minimum = pages / 64 + 1;
            let rest = (" --min-guarantee ", minimum * 4, "k");
            commands.command_with(epoch, "memtune", "vm", number, rest)
        }
        13..=14 => {
            let shares = random.below(10_000) + 1;
            commands.command_with(epoch, "memshares", "vm", number, (" ", shares, ""))
        }
        15..=16 => commands.command(epoch, "destroy", "vm", number, ""),
        17..=18 => commands.command(epoch, "start", "vm", number, ""),
        _ => commands.command(epoch, "dommemstat", "vm", number, ""),
    }
}

// A machine whose guests get and give up so many frames at a boundary, for so many epochs.
fn machine(page_rate: u32, epochs: u32) -> Machine {
    Machine {
        frames: FRAMES,
        tax: 7500,
        page_rate,
        quantum: 100,
        epochs,
    }
}

// A guest that does nothing.
fn push_guest(
    guests: &mut Text,
    number: u32,
    size: u32,
    minimum: u32,
    fields: &str,
) -> Result<(), AllocError> {
    guests.begin_guest("vm", number, size, minimum, fields)?;
    guests.end_guest()
}

// 256 guests, of which caps, minimums and shares are moved, and which are stopped and started.
fn push_mixed(draft: &mut Draft, random: &mut Random, changes: u32) -> Result<(), AllocError> {
    for number in 0..256 {
        push_guest(&mut draft.guests, number, FRAMES, 16, ",\"rate\":64")?;
    }
    for change in 0..changes {
        push_change(&mut draft.commands, random, change / 4, 256)?;
    }
    Ok(())
}

fn mixed<RT: Threads + Sync>(
    rt: &RT,
    alloc: Global,
    random: &mut Random,
    part: u32,
    digest: &mut Digest,
) -> Result<(), RunError> {
    let mut draft = Draft::new(alloc);
    let epochs = 1_000 / part.max(1) + 1;
    push_mixed(&mut draft, random, epochs.min(1_000) * 4)?;
    report_of(rt, alloc, 1, &machine(16, epochs), &draft, digest)
}

// 16 guests whose balloons go up and down.
fn push_balloons(draft: &mut Draft, random: &mut Random, epochs: u32) -> Result<(), AllocError> {
    for number in 0..16 {
        let tell = if number % 2 == 0 {
            ",\"tell\":true"
        } else {
            ",\"tell\":false"
        };
        push_guest(&mut draft.guests, number, FRAMES, 1, tell)?;
    }
    for epoch in 0..epochs {
        let number = random.below(16);
        let size = random.skewed(1_048_576) + 4;
        draft
            .commands
            .command_with(epoch, "setmem", "vm", number, (" ", size, "k"))?;
    }
    Ok(())
}

fn balloons<RT: Threads + Sync>(
    rt: &RT,
    alloc: Global,
    random: &mut Random,
    part: u32,
    digest: &mut Digest,
) -> Result<(), RunError> {
    let mut draft = Draft::new(alloc);
    let epochs = 4_000 / part.max(1) + 1;
    push_balloons(&mut draft, random, epochs)?;
    report_of(rt, alloc, 1, &machine(16, epochs), &draft, digest)
}

// Before an epoch the large guest starts or stops, and another one gets another size.
fn push_move(commands: &mut Text, random: &mut Random, epoch: u32) -> Result<(), AllocError> {
    let word = if epoch % 2 == 1 { "start" } else { "destroy" };
    commands.command(epoch, word, "vm", 0, "")?;
    let (number, size) = (random.below(255) + 1, random.below(8_192) + 64);
    commands.command_with(epoch, "setmem", "vm", number, (" ", size, "k"))
}

// One guest that starts and stops, and takes most of what 255 others have.
fn push_moves(draft: &mut Draft, random: &mut Random, epochs: u32) -> Result<(), AllocError> {
    let fields = ",\"autostart\":false";
    push_guest(&mut draft.guests, 0, FRAMES, 100_000, fields)?;
    for number in 1..256 {
        push_guest(&mut draft.guests, number, 2_048, 16, "")?;
    }
    for epoch in 1..epochs {
        push_move(&mut draft.commands, random, epoch)?;
    }
    Ok(())
}

fn moves<RT: Threads + Sync>(
    rt: &RT,
    alloc: Global,
    random: &mut Random,
    part: u32,
    digest: &mut Digest,
) -> Result<(), RunError> {
    let mut draft = Draft::new(alloc);
    let epochs = 400 / part.max(1) + 2;
    push_moves(&mut draft, random, epochs)?;
    report_of(rt, alloc, 1, &machine(64, epochs), &draft, digest)
}

/// The three fleets.
pub fn fleet<RT: Threads + Sync>(
    rt: &RT,
    alloc: Global,
    seed: u64,
    part: u32,
    digest: &mut Digest,
) -> Result<(), RunError> {
    let mut random = Random::new(seed, 3);
    mixed(rt, alloc, &mut random, part, digest)?;
    balloons(rt, alloc, &mut random, part, digest)?;
    moves(rt, alloc, &mut random, part, digest)
}
