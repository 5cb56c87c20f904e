// Working sets of intervals.
ghost use Rattle.std.specs.Prelude.{◌≡◌, ◌≤◌, ◌+◌, ◌^◌, IsTrue};

use crate::pairs::Pair;
use crate::table::Outcome;
use std::alloc::{AllocError, Global};
use vm_import::{Effect, RankedTouch, WorkingSet};

// An access: what it does, and with how many bytes from which address on.
#[derive(Clone, Copy)]
struct Reached {
    effect: Effect,
    address: u64,
    size: u16,
}

fn effect_of(word: &str) -> Option<Effect> {
    match word {
        "read" => Some(Effect::Read),
        "write" => Some(Effect::Write),
        "modify" => Some(Effect::Modify),
        _ => None,
    }
}

impl Reached {
    fn of(text: &str) -> Option<Self> {
        let mut words = text.split_whitespace();
        let reached = Reached {
            effect: effect_of(words.next()?)?,
            address: u64::from_str_radix(words.next()?, 16).ok()?,
            size: words.next()?.parse::<u16>().ok()?,
        };
        if words.next().is_some() {
            return None;
        }
        Some(reached)
    }

    // Whether its bytes have addresses, and are 1 to 1024.
    fn is_access(self) -> bool
        ensures some { IsTrue result → 1 ≤ self.size }
        ensures few { IsTrue result → self.size ≤ 1024 }
        ensures addressed { IsTrue result → self.address + self.size ≤ 2 ^ 64 }
    {
        if self.size == 0 || self.size > 1024 {
            return false;
        }
        self.address <= u64::MAX - (u64::from(self.size) - 1)
    }
}

// Adds the access that a text is. The answer is whether it is one.
fn add(set: &mut WorkingSet, text: &str) -> Result<bool, AllocError> {
    let Some(reached) = Reached::of(text) else {
        return Ok(false);
    };
    if !reached.is_access() {
        return Ok(false);
    }
    if set.page_count() > 1000 {
        return Ok(false);
    }
    set.access(reached.effect, reached.address, reached.size)?;
    Ok(true)
}

// Adds the accesses of an interval. The answer is whether all of them are some.
fn add_all(set: &mut WorkingSet, accesses: &str) -> Result<bool, AllocError> {
    let mut are_all = true;
    for access in accesses.split(';') {
        are_all = add(set, access)? && are_all;
    }
    Ok(are_all)
}

fn push_kept(out: &mut String, kept: &[RankedTouch]) -> Result<(), AllocError> {
    for touch in kept {
        let word = if touch.writes { "write" } else { "read" };
        write!(out, "{word} {} at {}, ", touch.rank, touch.offset)?;
    }
    Ok(())
}

// Tells an interval: how many pages there are before it and after it, and what is kept of it. The answer is whether it is one.
fn tell_interval(
    set: &mut WorkingSet,
    accesses: &str,
    out: &mut String,
) -> Result<bool, AllocError> {
    push_kept(out, set.kept())?;
    write!(out, "{} to ", set.page_count())?;
    let are_all = add_all(set, accesses)?;
    write!(out, "{} pages: ", set.page_count())?;
    push_kept(out, set.kept())?;
    Ok(are_all)
}

/// Tries a line.
pub(crate) fn outcome(alloc: Global, line: &str) -> Result<Outcome, AllocError> {
    let Some(pair) = Pair::of(line) else {
        return Ok(Outcome::Malformed);
    };
    let mut set = WorkingSet::new(alloc);
    let mut out = String::new(alloc);
    for accesses in pair.text.split('/') {
        if !tell_interval(&mut set, accesses, &mut out)? {
            return Ok(Outcome::Malformed);
        }
        set.begin_interval();
    }
    out.push_str("end")?;
    Outcome::of(alloc, pair.wanted, &out)
}
