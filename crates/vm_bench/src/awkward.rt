//! Texts that are awkward: short epochs on two workers, whole pages swapped, pages by turns from both ends of a guest, many commands
//! to guests whose names differ in their last bytes, and close sampling.
//!
//! These guests write and never read, and a report has the bytes of reads alone: so the digest tells no byte of a page that is
//! swapped.
use crate::digest::Digest;
use crate::random::Random;
use crate::runs::report_of;
use crate::text::{Draft, Machine, Text};
use std::alloc::{AllocError, Global};
use std::thread::Threads;
use vm_sim::RunError;

const LONG_NAME: &str = "a-name-as-long-as-may-be-no";

// A guest that writes so many bytes to random pages in each step.
fn push_writer(
    guests: &mut Text,
    random: &mut Random,
    pages: u32,
    length: u32,
    steps: u32,
) -> Result<(), AllocError> {
    for _ in 0..steps {
        let (page, offset) = (random.below(pages.max(1)), random.below(4080));
        guests.write_step(random, page, offset, length)?;
    }
    guests.end_guest()
}

// Guests with few steps in many short epochs.
fn push_short(guests: &mut Text, random: &mut Random, steps: u32) -> Result<(), AllocError> {
    for number in 0..64 {
        guests.begin_guest("short", number, 256, 64, "")?;
        push_writer(guests, random, 256, 1, steps)?;
    }
    Ok(())
}

fn short_epochs<RT: Threads + Sync>(
    rt: &RT,
    alloc: Global,
    random: &mut Random,
    part: u32,
    digest: &mut Digest,
) -> Result<(), RunError> {
    let mut draft = Draft::new(alloc);
    push_short(&mut draft.guests, random, 2_000 / part.max(1))?;
    let machine = Machine {
        frames: 12_000,
        tax: 7500,
        page_rate: 16,
        quantum: 4,
        epochs: 2_000 / part.max(1) + 1,
    };
    report_of(rt, alloc, 2, &machine, &draft, digest)
}

// Guests whose nearly each step swaps a page that was written to often.
fn push_whole(guests: &mut Text, random: &mut Random, steps: u32) -> Result<(), AllocError> {
    for number in 0..16 {
        guests.begin_guest("whole", number, 4_096, 256, "")?;
        push_writer(guests, random, 1_024, 13, steps)?;
    }
    Ok(())
}

fn whole_pages<RT: Threads + Sync>(
    rt: &RT,
    alloc: Global,
    random: &mut Random,
    part: u32,
    digest: &mut Digest,
) -> Result<(), RunError> {
    let mut draft = Draft::new(alloc);
    push_whole(&mut draft.guests, random, 20_000 / part.max(1))?;
    let machine = Machine {
        frames: 6_000,
        tax: 7500,
        page_rate: 16,
        quantum: 600,
        epochs: 70 / part.max(1) + 1,
    };
    report_of(rt, alloc, 2, &machine, &draft, digest)
}

const LARGE: u32 = 262_144;

// A large guest that touches pages by turns at its ends.
fn push_ends_guest(
    guests: &mut Text,
    random: &mut Random,
    number: u32,
    steps: u32,
) -> Result<(), AllocError> {
    guests.begin_guest("ends", number, LARGE, 64, ",\"samples\":10,\"period\":8")?;
    for step in 0..steps.min(12_000) {
        let near = step * 16 + random.below(16);
        let page = if step % 2 == 0 {
            near
        } else {
            LARGE - 1 - near
        };
        guests.write_step(random, page, 0, 1)?;
    }
    guests.end_guest()
}

fn push_ends(guests: &mut Text, random: &mut Random, steps: u32) -> Result<(), AllocError> {
    for number in 0..8 {
        push_ends_guest(guests, random, number, steps)?;
    }
    Ok(())
}

fn both_ends<RT: Threads + Sync>(
    rt: &RT,
    alloc: Global,
    random: &mut Random,
    part: u32,
    digest: &mut Digest,
) -> Result<(), RunError> {
    let mut draft = Draft::new(alloc);
    push_ends(&mut draft.guests, random, 12_000 / part.max(1))?;
    let machine = Machine {
        frames: 8_192,
        tax: 7500,
        page_rate: 16,
        quantum: 8,
        epochs: 3_000 / part.max(1) + 1,
    };
    report_of(rt, alloc, 1, &machine, &draft, digest)
}

// Many commands in few epochs, to guests whose names differ in their last bytes.
fn push_commands(draft: &mut Draft, random: &mut Random, changes: u32) -> Result<(), AllocError> {
    for number in 100..356 {
        draft.guests.begin_guest(LONG_NAME, number, 1_024, 16, "")?;
        draft.guests.end_guest()?;
    }
    for change in 0..changes {
        let (number, pages) = (random.below(256) + 100, random.below(1_024) + 16);
        let rest = (" ", pages * 4, "k");
        draft
            .commands
            .command_with(change / 1_000, "setmem", LONG_NAME, number, rest)?;
    }
    Ok(())
}

fn many_commands<RT: Threads + Sync>(
    rt: &RT,
    alloc: Global,
    random: &mut Random,
    part: u32,
    digest: &mut Digest,
) -> Result<(), RunError> {
    let mut draft = Draft::new(alloc);
    push_commands(&mut draft, random, 10_000 / part.max(1))?;
    let machine = Machine {
        frames: 65_536,
        tax: 7500,
        page_rate: 16,
        quantum: 100,
        epochs: 12,
    };
    report_of(rt, alloc, 1, &machine, &draft, digest)
}

// Guests that are sampled at each few steps.
fn push_close(guests: &mut Text, random: &mut Random, steps: u32) -> Result<(), AllocError> {
    let fields = ",\"samples\":1000,\"period\":4";
    for number in 0..8 {
        guests.begin_guest("close", number, 1_024, 512, fields)?;
        push_writer(guests, random, 1_024, 1, steps)?;
    }
    Ok(())
}

fn close_samples<RT: Threads + Sync>(
    rt: &RT,
    alloc: Global,
    random: &mut Random,
    part: u32,
    digest: &mut Digest,
) -> Result<(), RunError> {
    let mut draft = Draft::new(alloc);
    push_close(&mut draft.guests, random, 20_000 / part.max(1))?;
    let machine = Machine {
        frames: 9_000,
        tax: 7500,
        page_rate: 16,
        quantum: 500,
        epochs: 42,
    };
    report_of(rt, alloc, 1, &machine, &draft, digest)
}

/// The awkward texts, those of short epochs and of whole pages on two workers.
pub fn awkward<RT: Threads + Sync>(
    rt: &RT,
    alloc: Global,
    seed: u64,
    part: u32,
    digest: &mut Digest,
) -> Result<(), RunError> {
    let mut random = Random::new(seed, 6);
    short_epochs(rt, alloc, &mut random, part, digest)?;
    whole_pages(rt, alloc, &mut random, part, digest)?;
    both_ends(rt, alloc, &mut random, part, digest)?;
    for _ in 0..3 {
        many_commands(rt, alloc, &mut random, part, digest)?;
    }
    close_samples(rt, alloc, &mut random, part, digest)
}
