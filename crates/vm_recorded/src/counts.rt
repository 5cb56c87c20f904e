//! What the epochs of a guest come to.
ghost use Rattle.std.specs.Prelude.{◌≡◌, ◌≤◌, ◌^◌, [], length, Option};
ghost use Rattle.vm_recorded.specs.Counts.{absent_for, bytes_in, counted, counts_of};
ghost use Rattle.vm_recorded.specs.Parts.{ended_steps};
ghost use Rattle.vm_recorded.specs.Traces.{freed, steps_in, touched};

use crate::numbers::digits;

/// What the epochs of a guest come to.
#[derive(Clone, Copy, Debug, PartialEq, Eq)]
pub struct Counts {
    /// What it used in the last epoch in which it had a use, in units; 0 before.
    pub last: u32,
    /// The steps of all epochs.
    pub steps: u64,
    /// The most steps of one epoch.
    pub longest: u64,
    /// What its steps take in the text, with a comma behind each. The text has one less.
    pub bytes: u64,
}

// What `"y",` takes.
const YIELD_BYTES: u64 = 4;

// The steps of an epoch.
pub(crate) fn steps_in(last: u32, used: Option<u32>) -> u64
    ensures exact { result ≡ steps_in last used }
    ensures few { result ≤ 2 ^ 34 }
{
    match used {
        Some(units) => u64::from(last.saturating_sub(units)) + (u64::from(units) + 1),
        None => 1,
    }
}

// What the step that frees takes in the text, with its comma.
#[tactic(auto, unfolding(crate::specs::Texts::quoted))]
fn freed_bytes(last: u32, units: u32) -> u64
    ensures exact { result ≡ length (ended_steps (freed last units)) }
    ensures few { result ≤ 50 }
{
    if units >= last {
        return 0;
    }
    6 + digits(u64::from(units)) + digits(u64::from(last - units))
}

// What the step that touches takes.
#[tactic(auto, unfolding(crate::specs::Texts::quoted))]
fn touched_bytes(units: u32) -> u64
    ensures exact { result ≡ length (ended_steps (touched units)) }
    ensures few { result ≤ 30 }
{
    if units == 0 {
        return 0;
    }
    7 + digits(u64::from(units))
}

// What the steps of an epoch take.
#[tactic(auto, using(crate::proofs::CountLemmas::bytes_in_none, crate::proofs::CountLemmas::bytes_in_some))]
fn bytes_in(last: u32, used: Option<u32>) -> u64
    ensures exact { result ≡ bytes_in last used }
    ensures few { result ≤ 100 }
{
    match used {
        Some(units) => freed_bytes(last, units) + touched_bytes(units) + YIELD_BYTES,
        None => YIELD_BYTES,
    }
}

impl Counts {
    /// No epoch.
    #[tactic(auto, unfolding(crate::specs::Counts::counts_of))]
    pub fn none() -> Self
        ensures { result ≡ counts_of [] }
    {
        Counts {
            last: 0,
            steps: 0,
            longest: 0,
            bytes: 0,
        }
    }

    /// With one epoch more, in which the guest used so much, or nothing is told.
    pub fn with(self, used: Option<u32>) -> Self
        requires steps { self.steps ≤ 2 ^ 60 }
        requires bytes { self.bytes ≤ 2 ^ 60 }
        ensures { result ≡ counted self used }
    {
        let steps = steps_in(self.last, used);
        Counts {
            last: used.unwrap_or(self.last),
            steps: self.steps + steps,
            longest: self.longest.max(steps),
            bytes: self.bytes + bytes_in(self.last, used),
        }
    }

    /// With so many epochs more without a use.
    pub fn absent(self, epochs: u32) -> Self
        requires steps { self.steps ≤ 2 ^ 60 }
        requires bytes { self.bytes ≤ 2 ^ 60 }
        ensures { result ≡ absent_for epochs self }
    {
        if epochs == 0 {
            return self;
        }
        Counts {
            last: self.last,
            steps: self.steps + u64::from(epochs),
            longest: self.longest.max(1),
            bytes: self.bytes + YIELD_BYTES * u64::from(epochs),
        }
    }
}
