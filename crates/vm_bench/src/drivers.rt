//! Tests of balloon drivers: many small texts, and long ones of raw buffers.
use crate::digest::Digest;
use crate::random::Random;
use crate::runs::report_of;
use crate::text::{Draft, Machine, Text};
use std::alloc::{AllocError, Global};
use std::thread::Threads;
use vm_sim::RunError;

// Buffers of random pages, and then as many reads.
fn push_buffers(
    guests: &mut Text,
    random: &mut Random,
    size: u32,
    pages: u32,
) -> Result<(), AllocError> {
    for _ in 0..8 {
        let queue = if random.below(2) == 0 { "i" } else { "d" };
        guests.post_step(random, queue, size, pages)?;
    }
    for _ in 0..8 {
        guests.read_step(random.below(size.max(1)), 0, 1)?;
    }
    Ok(())
}

// A guest that posts buffers of its own.
fn push_guest(
    guests: &mut Text,
    random: &mut Random,
    number: u32,
    size: u32,
    rounds: u32,
) -> Result<(), AllocError> {
    let tell = if number % 2 == 0 {
        ",\"tell\":true"
    } else {
        ",\"tell\":false"
    };
    guests.begin_guest("driver", number, size, size / 2, tell)?;
    for _ in 0..rounds {
        push_buffers(guests, random, size, size.min(1_024) / 64)?;
    }
    guests.end_guest()
}

// A few small guests, and two commands.
fn push_small(draft: &mut Draft, random: &mut Random) -> Result<(), AllocError> {
    for number in 0..4 {
        push_guest(&mut draft.guests, random, number, 64, 3)?;
    }
    let rest = (" ", (random.below(64) + 32) * 4, "k");
    draft.commands.command_with(2, "setmem", "driver", 1, rest)?;
    draft.commands.command(4, "dommemstat", "driver", 2, "")
}

fn small<RT: Threads + Sync>(
    rt: &RT,
    alloc: Global,
    random: &mut Random,
    digest: &mut Digest,
) -> Result<(), RunError> {
    let mut draft = Draft::new(alloc);
    push_small(&mut draft, random)?;
    let machine = Machine {
        frames: 200,
        tax: 7500,
        page_rate: 16,
        quantum: 8,
        epochs: 16,
    };
    report_of(rt, alloc, 1, &machine, &draft, digest)
}

// Guests that post for long.
fn push_long(guests: &mut Text, random: &mut Random, rounds: u32) -> Result<(), AllocError> {
    for number in 0..16 {
        push_guest(guests, random, number, 4_096, rounds)?;
    }
    Ok(())
}

fn long<RT: Threads + Sync>(
    rt: &RT,
    alloc: Global,
    random: &mut Random,
    part: u32,
    digest: &mut Digest,
) -> Result<(), RunError> {
    let mut draft = Draft::new(alloc);
    push_long(&mut draft.guests, random, 700 / part.max(1))?;
    let machine = Machine {
        frames: 65_536,
        tax: 7500,
        page_rate: 16,
        quantum: 64,
        epochs: 1_000 / part.max(1) + 1,
    };
    report_of(rt, alloc, 1, &machine, &draft, digest)
}

/// Small texts, and long ones.
pub fn drivers<RT: Threads + Sync>(
    rt: &RT,
    alloc: Global,
    seed: u64,
    part: u32,
    digest: &mut Digest,
) -> Result<(), RunError> {
    let mut random = Random::new(seed, 5);
    for _ in 0..2_000 / part.max(1) + 1 {
        small(rt, alloc, &mut random, digest)?;
    }
    for _ in 0..6 / part.max(1) + 1 {
        long(rt, alloc, &mut random, part, digest)?;
    }
    Ok(())
}
