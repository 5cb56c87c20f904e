//! Guests whose steps go over many pages each, among whom idle memory is moved.
use crate::digest::Digest;
use crate::random::Random;
use crate::runs::report_of;
use crate::text::{Draft, Machine, Text};
use std::alloc::{AllocError, Global};
use std::thread::Threads;
use vm_sim::RunError;

const GUESTS: u32 = 64;

// As many pages as a step can reach.
const SIZE: u32 = 1_536;

// A step begins at one of so many pages, the lower the likelier.
const STARTS: u32 = 896;

// It touches at least so many pages.
const LEAST: u32 = 128;

// It touches fewer than so many more.
const SPREAD: u32 = 512;

// An epoch: pages are touched, in one epoch of four the first quarter of them is freed, and then the guest yields.
fn push_epoch(guests: &mut Text, random: &mut Random) -> Result<(), AllocError> {
    let (page, count) = (random.skewed(STARTS), random.below(SPREAD) + LEAST);
    guests.touch_step(page, count)?;
    if random.below(4) == 0 {
        guests.free_step(page, count / 4)?;
    }
    guests.yield_step()
}

// Every eighth guest has no driver of its own. The others use up to 256 ballooned pages an epoch before the device hears of it, so
// that they rarely wait.
fn push_guest(
    guests: &mut Text,
    random: &mut Random,
    number: u32,
    epochs: u32,
) -> Result<(), AllocError> {
    let fields = if number % 8 == 0 {
        ",\"driver\":\"none\""
    } else {
        ",\"rate\":256,\"tell\":false"
    };
    guests.begin_guest("steps", number, SIZE, 128, fields)?;
    for _ in 0..epochs {
        push_epoch(guests, random)?;
    }
    guests.end_guest()
}

// All guests.
fn push_guests(guests: &mut Text, random: &mut Random, epochs: u32) -> Result<(), AllocError> {
    for number in 0..GUESTS {
        push_guest(guests, random, number, epochs)?;
    }
    Ok(())
}

/// The report of the guests.
pub fn steps<RT: Threads + Sync>(
    rt: &RT,
    alloc: Global,
    seed: u64,
    part: u32,
    digest: &mut Digest,
) -> Result<(), RunError> {
    let mut random = Random::new(seed, 9);
    let mut draft = Draft::rebalanced(alloc, 256);
    let epochs = 300 / part.max(1) + 1;
    push_guests(&mut draft.guests, &mut random, epochs)?;
    let machine = Machine {
        frames: 65_536,
        tax: 7500,
        page_rate: 16,
        quantum: 1_000,
        epochs,
    };
    report_of(rt, alloc, 1, &machine, &draft, digest)
}
