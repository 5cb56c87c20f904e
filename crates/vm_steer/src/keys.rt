// Numbers that tell names apart, so that few names are compared.
ghost use Rattle.std.specs.Prelude.{◌≡◌, IfOk};
ghost use Rattle.vm_steer.specs.Keys.{key_of, keys_of};

use std::alloc::{AllocError, Global};
use vm_samples::GuestPolicy;

// Any large prime.
const SPREAD: u32 = 1_048_573;

// A number of a name. Names that have one are mostly the same.
#[tactic(auto, unfolding(crate::specs::Keys::key_of))]
pub(crate) fn key_of(name: &[u8]) -> u32
    ensures { result ≡ key_of name.now }
{
    let mut key = 0;
    for byte in name {
        key = key % SPREAD * 257 + u32::from(*byte);
    }
    key
}

fn key_of_guest(guest: &GuestPolicy) -> u32
    ensures { result ≡ key_of guest.now.name }
{
    key_of(guest.name.as_bytes())
}

// Those of the guests that a policy names.
pub(crate) fn keys_of(alloc: Global, guests: &[GuestPolicy]) -> Result<Vec<u32>, AllocError>
    ensures { IfOk result (λ keys. keys.items ≡ keys_of guests.now) }
{
    let mut keys = Vec::with_capacity(alloc, guests.len())?;
    for guest in guests {
        keys.push(key_of_guest(guest))?;
    }
    Ok(keys)
}
