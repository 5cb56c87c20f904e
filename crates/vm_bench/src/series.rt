//! The series of many guests that do little over many epochs, as a table and as a drawing.
use crate::digest::Digest;
use crate::random::Random;
use crate::runs::series_of;
use crate::text::{Draft, Machine, Text};
use std::alloc::{AllocError, Global};
use std::thread::Threads;
use vm_sim::RunError;

const GUESTS: u32 = 256;

// The most letters of a name: with the three digits that may follow, as many bytes as a name may have.
const LETTERS: u32 = 29;

// The letters that a name begins with, as many as a random number says, or none.
fn random_letters(alloc: Global, random: &mut Random) -> Result<String, AllocError> {
    let mut letters = String::new(alloc);
    for _ in 0..random.below(LETTERS + 1) {
        letters.push(char::from(b'a' + random.below(26) as u8))?;
    }
    Ok(letters)
}

// A guest that writes a byte in each of at most seven early epochs, and is idle in all others.
fn push_guest(
    alloc: Global,
    guests: &mut Text,
    random: &mut Random,
    number: u32,
) -> Result<(), AllocError> {
    let name = random_letters(alloc, random)?;
    let minimum = random.below(4) + 1;
    let size = minimum + random.below(8);
    guests.begin_guest(name.as_str(), number, size, minimum, "")?;
    for _ in 0..random.below(8) {
        let (page, offset) = (random.below(size), random.below(4096));
        guests.write_step(random, page, offset, 1)?;
    }
    guests.end_guest()
}

// All guests.
fn push_guests(alloc: Global, guests: &mut Text, random: &mut Random) -> Result<(), AllocError> {
    for number in 0..GUESTS {
        push_guest(alloc, guests, random, number)?;
    }
    Ok(())
}

/// The series of the guests.
pub fn series<RT: Threads + Sync>(
    rt: &RT,
    alloc: Global,
    seed: u64,
    part: u32,
    digest: &mut Digest,
) -> Result<(), RunError> {
    let mut random = Random::new(seed, 7);
    let mut draft = Draft::new(alloc);
    push_guests(alloc, &mut draft.guests, &mut random)?;
    let machine = Machine {
        frames: 4_096,
        tax: 7500,
        page_rate: 16,
        quantum: 1,
        epochs: 7_000 / part.max(1) + 1,
    };
    series_of(rt, alloc, &machine, &draft, digest)
}
