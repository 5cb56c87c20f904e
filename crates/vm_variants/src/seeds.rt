//! A number that is added to the seed of each guest.
ghost use Rattle.std.specs.Prelude.{◌≡◌, All, map};
ghost use Rattle.vm_guest.specs.Config.{IsWithinLimits};
ghost use Rattle.vm_variants.specs.Variants.{with_seed_added, with_seeds_added};

use crate::parts::{put_guests, take_guests};
use std::alloc::Global;
use vm_config::Config;
use vm_domains::GuestSpec;

// To the seed of one guest.
fn add_to_seed(guest: &mut GuestSpec, added: u64)
    ensures guest { guest.new ≡ with_seed_added added guest.old }
    ensures limits { IsWithinLimits guest.new }
{
    guest.seed = guest.seed.wrapping_add(added);
}

// To that of each of a list.
fn add_to_each(guests: &mut [GuestSpec], added: u64)
    requires { All IsWithinLimits guests.old }
    ensures guests { guests.new ≡ map (with_seed_added added) guests.old }
    ensures limits { All IsWithinLimits guests.new }
{
    for guest in guests.iter_mut() {
        add_to_seed(guest, added);
    }
}

/// Adds a number to the seed of each guest, modulo 2^64: adding a and then b is adding a + b modulo 2^64 (`law_seeds`). All else stays.
/// Takes no memory.
pub fn add_to_seeds(alloc: Global, config: &mut Config, added: u64)
    ensures { config.new ≡ with_seeds_added added config.old }
{
    let (names, mut guests) = take_guests(alloc, config);
    add_to_each(&mut guests, added);
    put_guests(config, names, guests);
}
