//! A percentage of its size as the minimum of each guest.
ghost use Rattle.std.specs.Prelude.{◌≡◌, ◌≤◌, All, map};
ghost use Rattle.vm_guest.specs.Config.{IsWithinLimits};
ghost use Rattle.vm_variants.specs.Variants.{with_min_percent, with_minimums};

use crate::parts::{put_guests, take_guests};
use std::alloc::Global;
use vm_config::Config;
use vm_domains::GuestSpec;

// That of one guest.
fn set_minimum(guest: &mut GuestSpec, percent: u32)
    requires some { 1 ≤ percent }
    requires within { percent ≤ 100 }
    ensures guest { guest.new ≡ with_min_percent percent guest.old }
    ensures limits { IsWithinLimits guest.new }
{
    guest.min = (percent * guest.size).div_ceil(100);
}

// That of each of a list.
fn set_each(guests: &mut [GuestSpec], percent: u32)
    requires some { 1 ≤ percent }
    requires within { percent ≤ 100 }
    requires limits { All IsWithinLimits guests.old }
    ensures guests { guests.new ≡ map (with_min_percent percent) guests.old }
    ensures limits { All IsWithinLimits guests.new }
{
    for guest in guests.iter_mut() {
        set_minimum(guest, percent);
    }
}

/// Gives each guest a percentage of its size as its minimum, 1 to 100 percent, rounded up to whole pages. All else stays. Takes no
/// memory.
pub fn set_minimums(alloc: Global, config: &mut Config, percent: u32)
    requires some { 1 ≤ percent }
    requires within { percent ≤ 100 }
    ensures { config.new ≡ with_minimums percent config.old }
{
    let (names, mut guests) = take_guests(alloc, config);
    set_each(&mut guests, percent);
    put_guests(config, names, guests);
}
