// How long the commands of a host are, counted guest by guest.
ghost use Rattle.std.specs.Prelude.{◌≡◌, ◌≤◌, ◌+◌, ◌^◌, All, length};
ghost use Rattle.vm_recorded.specs.Commands.{capped_at, start_at};
ghost use Rattle.vm_recorded.specs.Lengths.{coming_bytes, commands_bytes, going_bytes, own_bytes};
ghost use Rattle.vm_recorded.specs.Parts.{ended};

use crate::guest::RecordedGuest;
use crate::numbers::{digits, kib_of};

// The words of a command `destroy`, with the comma behind it.
const DESTROY_WORDS: u64 = 26;

// .. of a command `start`.
const START_WORDS: u64 = 24;

// .. of a command `setmem`.
const SETMEM_WORDS: u64 = 26;

// What ends a guest.
#[tactic(auto, unfolding(crate::specs::Lengths::going_bytes, crate::specs::Commands::command_of))]
fn going_len(guest: &RecordedGuest) -> u64
    requires { length guest.now.name ≤ 2 ^ 32 }
    ensures exact { result ≡ going_bytes guest.now }
    ensures few { result ≤ 2 ^ 33 }
{
    let end = u64::from(guest.first) + guest.uses.len() as u64;
    DESTROY_WORDS + digits(end) + guest.name.len() as u64
}

// What starts a guest of this name.
#[tactic(auto, unfolding(crate::specs::Commands::command_of))]
fn start_len(at: u32, name: &[u8]) -> u64
    requires { length name.now ≤ 2 ^ 32 }
    ensures exact { result ≡ length (ended (start_at at name.now)) }
    ensures few { result ≤ 2 ^ 33 }
{
    if at == 0 {
        return 0;
    }
    START_WORDS + digits(u64::from(at)) + name.len() as u64
}

// What lets a guest have less than its size.
#[tactic(auto, unfolding(crate::specs::Commands::command_of))]
fn capped_len(unit: u32, at: u32, guest: &RecordedGuest) -> u64
    requires { length guest.now.name ≤ 2 ^ 32 }
    ensures exact { result ≡ length (ended (capped_at unit at guest.now)) }
    ensures few { result ≤ 2 ^ 33 }
{
    if guest.cap >= guest.size {
        return 0;
    }
    SETMEM_WORDS + digits(u64::from(at)) + guest.name.len() as u64 + digits(kib_of(guest.cap, unit))
}

// What a guest begins with.
#[tactic(auto, unfolding(crate::specs::Lengths::coming_bytes))]
fn coming_len(unit: u32, guest: &RecordedGuest) -> u64
    requires { length guest.now.name ≤ 2 ^ 32 }
    ensures exact { result ≡ coming_bytes unit guest.now }
    ensures few { result ≤ 2 ^ 34 }
{
    start_len(guest.first, &guest.name) + capped_len(unit, guest.first, guest)
}

// What a guest has of the commands of so many epochs.
fn own_len(unit: u32, epochs: u32, guest: &RecordedGuest) -> u64
    requires { length guest.now.name ≤ 2 ^ 32 }
    ensures exact { result ≡ own_bytes unit epochs guest.now }
    ensures few { result ≤ 2 ^ 35 }
{
    let end = u64::from(guest.first) + guest.uses.len() as u64;
    let going = if end < u64::from(epochs) {
        going_len(guest)
    } else {
        0
    };
    let coming = if guest.first < epochs {
        coming_len(unit, guest)
    } else {
        0
    };
    going + coming
}

// The commands of all guests, with a comma behind each.
pub(crate) fn commands_len(unit: u32, epochs: u32, guests: &[RecordedGuest]) -> u64
    requires few { length guests.now ≤ 256 }
    requires names { All (λ g. length g.name ≤ 2 ^ 32) guests.now }
    ensures exact { result ≡ commands_bytes unit epochs guests.now }
    ensures few { result ≤ 2 ^ 44 }
{
    let mut total = 0;
    for guest in guests {
        total += own_len(unit, epochs, guest);
    }
    total
}
