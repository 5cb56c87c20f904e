// How large a guest and its machine are.
ghost use Rattle.std.specs.Prelude.{◌≡◌, ◌≤◌, ◌<◌, ◌+◌, ◌^◌};
ghost use Rattle.vm_import.specs.Guests.{epochs_of, frames_for, min_of};
ghost use Rattle.vm_import.specs.Intervals.{rounded_up};
ghost use Rattle.vm_import.specs.Settings.{settings_of};
ghost use Rattle.vm_import.specs.Steps.{idle_behind};

use crate::settings::ImportSettings;

/// The most pages of a guest, and frames of a machine.
pub(crate) const MAX_PAGES: u64 = 262144;

// A quotient, rounded up.
fn rounded_up(number: u64, divisor: u32) -> u64
    requires some { 1 ≤ divisor }
    requires small { number < 2 ^ 63 + 2 ^ 62 }
    ensures { result ≡ rounded_up number divisor }
{
    (number + u64::from(divisor - 1)) / u64::from(divisor)
}

// How many idle steps follow so many steps of an interval.
pub(crate) fn idle_behind(quantum: u32, steps: u64) -> u64
    requires some { 1 ≤ quantum }
    requires small { steps < 2 ^ 63 }
    ensures exact { result ≡ idle_behind quantum steps }
    ensures few { result ≤ quantum }
    ensures filled { quantum ≤ steps + result }
{
    rounded_up(steps.max(1), quantum) * u64::from(quantum) - steps
}

// The epochs of so many steps.
pub(crate) fn epochs_of(quantum: u32, steps: u64) -> u64
    requires some { 1 ≤ quantum }
    requires small { steps < 2 ^ 63 + 2 ^ 62 }
    ensures { result ≡ epochs_of quantum steps }
{
    rounded_up(steps, quantum)
}

// A guest's minimum.
pub(crate) fn min_of(settings: &ImportSettings, size: u64) -> u64
    ensures exact { result ≡ min_of (settings_of settings.now) size }
    ensures within { result ≤ size }
{
    match settings.min {
        Some(pages) => u64::from(pages).min(size),
        None => size / 2 + size % 2,
    }
}

// The frames of a machine for a guest.
pub(crate) fn frames_for(size: u64) -> u64
    ensures { result ≡ frames_for size }
{
    if size < MAX_PAGES {
        (size + size / 10 + 1).min(MAX_PAGES)
    } else {
        MAX_PAGES
    }
}
