//! The two scales of a chart: values upwards, and places from left to right.
ghost use Rattle.std.specs.Prelude.{◌≡◌, ◌*◌, ◌/◌, ◌<◌, ◌≤◌, ◌^◌};
ghost use Rattle.vm_drawing.specs.Scale.{parts_for, round_up, round_within, scale_of_words, scale_to, step_for, tick_step, top_of, x_of, y_of};

pub(crate) type Pixels = u128;

/// The axis along the charts of a drawing, from left to right.
#[derive(Clone, Copy, Debug, PartialEq, Eq)]
pub struct Axis {
    /// The place at the left edge.
    pub first: u64,
    /// The place at the right edge.
    pub last: u64,
    /// Whether nothing begins at the right edge, so that it has no tick.
    pub is_open: bool,
}

// The values of a chart, upwards.
#[derive(Clone, Copy)]
pub(crate) struct Scale {
    // in pixels
    pub(crate) height: u32,
    // from one level to the next
    pub(crate) step: u64,
    // how many steps there are
    pub(crate) parts: u64,
}

// Most numbers have 64 bits, whose division is many times faster.
fn quotient(dividend: u128, divisor: u128) -> u128
    requires { 0 < divisor }
    ensures { result ≡ dividend / divisor }
{
    if let Ok(small) = u64::try_from(dividend) {
        if let Ok(by) = u64::try_from(divisor) {
            return u128::from(small / by);
        }
    }
    dividend / divisor
}

// ---- round numbers

fn round_within(power: u64, least: u64) -> u64
    requires bound { power ≤ 10 ^ 18 }
    requires enough { least ≤ 5 * power }
    ensures value { result ≡ round_within power least }
    ensures enough { least ≤ result }
    ensures some { power ≤ result }
{
    if least <= power {
        power
    } else if least <= 2 * power {
        2 * power
    } else {
        5 * power
    }
}

// The least of 1, 2, 5, 10, 20, 50 and so on that is at least as great.
fn round_up(least: u64) -> u64
    ensures value { result ≡ round_up least }
    ensures some { 0 < result }
    ensures enough { least < 4 * 10 ^ 18 → least ≤ result }
{
    let mut power: u64 = 1;
    for decade in 0..19u8 {
        if least <= 5 * power {
            return round_within(power, least);
        }
        power *= 10;
    }
    power
}

// The least round step of which so many reach a value.
fn step_for(parts: u64, value: u64) -> u64
    requires { 5 ≤ parts }
    ensures value { result ≡ step_for parts value }
    ensures some { 0 < result }
    ensures enough { value ≤ parts * result }
{
    round_up(value.div_ceil(parts))
}

// ---- values

// The least number of steps that reach a value, at least one.
fn parts_for(step: u64, value: u64) -> u64
    requires some { 0 < step }
    requires enough { value ≤ 5 * step }
    ensures value { result ≡ parts_for step value }
    ensures few { result ≤ 5 }
{
    value.div_ceil(step).max(1)
}

impl Scale {
    // The scale of numbers up to a greatest value.
    pub(crate) fn to(greatest: u64) -> Self
        ensures value { result ≡ scale_to greatest }
        ensures few { result.parts ≤ 100 }
    {
        let step = step_for(5, greatest);
        Scale {
            height: 200,
            step,
            parts: parts_for(step, greatest),
        }
    }

    // The scale of so many words.
    pub(crate) fn of_words(words: usize) -> Self
        requires { words ≤ 100 }
        ensures value { result ≡ scale_of_words words }
        ensures few { result.parts ≤ 100 }
    {
        Scale {
            height: 75,
            step: 1,
            parts: (words as u64).saturating_sub(1).max(1),
        }
    }

    // The value at the upper edge.
    fn top(self) -> u128
        requires { self.parts ≤ 100 }
        ensures { result ≡ top_of self }
    {
        u128::from(self.step) * u128::from(self.parts)
    }

    // How high a value stands.
    pub(crate) fn y_of(self, value: u128) -> Pixels
        requires few { self.parts ≤ 100 }
        requires value { value < 2 ^ 80 }
        ensures { result ≡ y_of self value }
    {
        quotient(value * u128::from(self.height), self.top().max(1))
    }
}

// ---- places

impl Axis {
    // How far right of the left edge a place is.
    pub(crate) fn x_of(self, place: u128) -> Pixels
        requires { place < 2 ^ 70 }
        ensures value { result ≡ x_of self place }
        ensures bound { result < 2 ^ 80 }
    {
        let beyond = place.saturating_sub(u128::from(self.first));
        let length = self.last.saturating_sub(self.first);
        quotient(beyond * 880, u128::from(length).max(1))
    }

    // The least round step of which ten reach along the axis.
    pub(crate) fn tick_step(self) -> u64
        ensures value { result ≡ tick_step self }
        ensures some { 0 < result }
    {
        step_for(10, self.last.saturating_sub(self.first))
    }
}
