// What a domain holds and uses, in units.
ghost use Rattle.std.specs.Prelude.{◌≡◌, ◌*◌, ◌<◌, ◌≤◌, ◌^◌};
ghost use Rattle.vm_steer.specs.Numbers.{active_of, fast_of, fraction_of, has_swapped, held_of, idle_of, idle_told, less_cache, size_of, slow_of, swap_in_of, units_up, used_of};
ghost use Rattle.vm_steer.specs.Look.{measures_of};

use crate::balloon::Balloon;
use crate::remembered::Remembered;

// What a domain holds and uses in a sample.
#[derive(Clone, Copy)]
pub(crate) struct Measures {
    // In units, without what was promised.
    pub(crate) held: u32,
    // In units.
    pub(crate) used: u32,
    // KiB that its guest read from swap.
    pub(crate) swap_in: u64,
    // The averages and the greatest of what it uses of what it holds, of 65536.
    pub(crate) slow: u32,
    pub(crate) fast: u32,
    pub(crate) active: u32,
}

// KiB in units, rounded up.
pub(crate) fn units_up(unit: u32, kib: u64) -> u64
    requires { 4 ≤ unit }
    ensures { result ≡ units_up unit kib }
{
    kib.div_ceil(u64::from(unit))
}

// All that a domain may hold.
pub(crate) fn size_of(unit: u32, maximum: u64) -> u64
    requires { 4 ≤ unit }
    ensures { result ≡ size_of unit maximum }
{
    maximum / u64::from(unit)
}

// What it holds: at least 1, and at most its size.
fn held_of(unit: u32, current: u64, size: u32) -> u32
    requires unit { 4 ≤ unit }
    requires some { 1 ≤ size }
    ensures exact { result ≡ held_of unit current size }
    ensures some { 1 ≤ result }
    ensures few { result ≤ size }
{
    u64::from(size).min(units_up(unit, current).max(1)) as u32
}

// What a guest could give, in KiB. The product can pass 64 bits.
fn less_cache(cache: u32, usable: u64, unused: u64) -> u64
    requires { cache ≤ 100 }
    ensures { result ≡ less_cache cache usable unused }
{
    if unused >= usable {
        return usable;
    }
    let dropped = u128::from(usable - unused) * u128::from(100 - cache) / 100;
    unused + dropped as u64
}

// What it could give by what it tells.
fn idle_told(cache: u32, usable: Option<u64>, unused: Option<u64>) -> u64
    requires { cache ≤ 100 }
    ensures { result ≡ idle_told cache usable unused }
{
    match (usable, unused) {
        (None, None) => 0,
        (None, Some(unused)) => unused,
        (Some(usable), None) => usable,
        (Some(usable), Some(unused)) => less_cache(cache, usable, unused),
    }
}

// What was read from swap.
fn swap_in_of(last: &Option<Remembered>, told: Option<u64>) -> u64
    ensures { result ≡ swap_in_of last.now told }
{
    match (last, told) {
        (_, Some(swap_in)) => swap_in,
        (Some(last), None) => last.swap_in,
        (None, None) => 0,
    }
}

// Whether a unit or more was read from swap since the last sample.
fn has_swapped(unit: u32, last: &Option<Remembered>, swap_in: u64) -> bool
    ensures { result ≡ has_swapped unit last.now swap_in }
{
    match last {
        Some(last) => swap_in.saturating_sub(last.swap_in) >= u64::from(unit),
        None => false,
    }
}

// Who swaps has nothing idle.
fn idle_of(swapped: bool, told: u64) -> u64
    ensures { result ≡ idle_of swapped told }
{
    if swapped { 0 } else { told }
}

// What it uses.
fn used_of(unit: u32, current: u64, idle: u64, held: u32) -> u32
    requires { 4 ≤ unit }
    ensures exact { result ≡ used_of unit current idle held }
    ensures few { result ≤ held }
{
    u64::from(held).min(units_up(unit, current.saturating_sub(idle))) as u32
}

// What it uses of what it holds, of 65536.
fn fraction_of(used: u32, held: u32) -> u32
    requires some { 1 ≤ held }
    requires within { used ≤ held }
    ensures exact { result ≡ fraction_of used held }
    ensures part { result ≤ 65536 }
{
    (65536 * u64::from(used) / u64::from(held)) as u32
}

// The slow average.
fn slow_of(last: &Option<Remembered>, fraction: u32) -> u32
    requires { fraction ≤ 65536 }
    ensures exact { result ≡ slow_of last.now fraction }
    ensures part { result ≤ 65536 }
{
    match last {
        Some(last) => (7 * last.slow + fraction) / 8,
        None => fraction,
    }
}

// The fast one.
fn fast_of(last: &Option<Remembered>, fraction: u32) -> u32
    requires { fraction ≤ 65536 }
    ensures exact { result ≡ fast_of last.now fraction }
    ensures part { result ≤ 65536 }
{
    match last {
        Some(last) => (last.fast + fraction) / 2,
        None => fraction,
    }
}

// The greatest of both and of what it uses now.
fn active_of(slow: u32, fast: u32, fraction: u32) -> u32
    ensures { result ≡ active_of slow fast fraction }
{
    slow.max(fast).max(fraction)
}

// All of them.
#[tactic(auto, unfolding(crate::specs::Look::measures_of))]
pub(crate) fn measures_of(
    unit: u32,
    cache: u32,
    last: &Option<Remembered>,
    balloon: &Balloon,
    size: u32,
) -> Measures
    requires unit { 4 ≤ unit }
    requires cache { cache ≤ 100 }
    requires some { 1 ≤ size }
    ensures exact { result ≡ measures_of unit cache last.now balloon.now size }
    ensures held { result.held ≤ size }
    ensures some_held { 1 ≤ result.held }
    ensures used { result.used ≤ result.held }
    ensures slow { result.slow ≤ 65536 }
    ensures fast { result.fast ≤ 65536 }
    ensures active { result.active ≤ 65536 }
{
    let held = held_of(unit, balloon.current, size);
    let swap_in = swap_in_of(last, balloon.swap_in);
    let told = idle_told(cache, balloon.usable, balloon.unused);
    let idle = idle_of(has_swapped(unit, last, swap_in), told);
    let used = used_of(unit, balloon.current, idle, held);
    let fraction = fraction_of(used, held);
    let slow = slow_of(last, fraction);
    let fast = fast_of(last, fraction);
    let active = active_of(slow, fast, fraction);
    Measures {
        held,
        used,
        swap_in,
        slow,
        fast,
        active,
    }
}
