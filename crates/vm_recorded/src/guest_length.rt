// How long the texts of guests are.
ghost use Rattle.std.specs.Prelude.{◌≡◌, ◌≤◌, ◌+◌, ◌^◌, All, length};
ghost use Rattle.vm_recorded.specs.Counts.{counts_for, counts_of};
ghost use Rattle.vm_recorded.specs.Lengths.{guests_bytes};
ghost use Rattle.vm_recorded.specs.Texts.{guest_head, guest_text};

use crate::counts::Counts;
use crate::guest::RecordedGuest;
use crate::numbers::digits;

// The words up to the first step of a guest that isn't there from the beginning.
const HEAD_WORDS: u64 = 105;

// Up to the first step.
#[tactic(auto, unfolding(crate::specs::Texts::guest_head))]
fn head_len(quantum: u64, number: u64, guest: &RecordedGuest) -> u64
    requires { length guest.now.name ≤ 2 ^ 32 }
    ensures exact { result ≡ length (guest_head quantum number guest.now) }
    ensures few { result ≤ 2 ^ 32 + 300 }
{
    let autostart = if guest.first == 0 { 1 } else { 0 };
    HEAD_WORDS - autostart
        + guest.name.len() as u64
        + digits(u64::from(guest.size))
        + digits(u64::from(guest.min))
        + digits(u64::from(guest.shares))
        + digits(quantum)
        + digits(number)
}

// The words behind the last step.
const END_WORDS: u64 = 2;

// A whole guest, whose epochs come to so much.
#[tactic(auto, unfolding(crate::specs::Texts::guest_text))]
fn guest_len(quantum: u64, number: u64, guest: &RecordedGuest, counts: Counts) -> u64
    requires name { length guest.now.name ≤ 2 ^ 32 }
    requires counts { counts ≡ counts_of guest.now.uses }
    requires bytes { counts.bytes ≤ 2 ^ 50 }
    ensures exact { result ≡ length (guest_text quantum number guest.now) }
    ensures few { result ≤ 2 ^ 51 }
{
    head_len(quantum, number, guest) + counts.bytes.saturating_sub(1) + END_WORDS
}

// All guests, with a comma behind each.
pub(crate) fn guests_len(quantum: u64, guests: &[RecordedGuest], counts: &[Counts]) -> u64
    requires few { length guests.now ≤ 256 }
    requires counts { counts.now ≡ counts_for guests.now }
    requires bytes { All (λ c. c.bytes ≤ 2 ^ 50) counts.now }
    requires names { All (λ g. length g.name ≤ 2 ^ 32) guests.now }
    ensures exact { result ≡ guests_bytes quantum 0 guests.now }
    ensures few { result ≤ 2 ^ 60 }
{
    let mut total = 0;
    for (number, guest) in guests.iter().enumerate() {
        total += guest_len(quantum, number as u64, guest, counts[number]) + 1;
    }
    total
}
