// The guests of a text, and what they come to.
ghost use Rattle.std.specs.Prelude.{◌≡◌, ◌≤◌, ◌<◌, ◌+◌, ◌^◌, ◌++◌, ◌∷◌, [], OnOk, length};
ghost use Rattle.vm_recorded.specs.Hosts.{quantum_for, swap_for};
ghost use Rattle.vm_recorded.specs.Parts.{ended, labelled, listed_guests};
ghost use Rattle.vm_recorded.specs.Pieces.{guest_pieces};
ghost use Rattle.vm_recorded.specs.Texts.{autostart, guest_text, guest_texts};
ghost use Rattle.vm_recorded.specs.Traces.{longest_from};

use crate::counts::steps_in;
use crate::guest::RecordedGuest;
use crate::numbers::push_number;
use crate::trace::{drop_comma, push_steps};
use crate::used::Use;
use std::alloc::AllocError;

// What swap can take of all guests.
pub(crate) fn swap_for(guests: &[RecordedGuest]) -> u64
    requires { length guests.now ≤ 256 }
    ensures exact { result ≡ swap_for guests.now }
    ensures few { result < 2 ^ 41 }
{
    let mut total = 0;
    for guest in guests {
        total += u64::from(guest.size.saturating_sub(guest.min));
    }
    total
}

// The most steps of an epoch.
fn longest_of(uses: &[Use]) -> u64
    ensures { result ≡ longest_from 0 uses.now }
{
    let mut last = 0;
    let mut longest = 0;
    for told in uses {
        let used = told.get();
        longest = steps_in(last, used).max(longest);
        last = used.unwrap_or(last);
    }
    longest
}

// The most steps that an epoch of a guest has, at least 1.
pub(crate) fn quantum_for(guests: &[RecordedGuest]) -> u64
    ensures { result ≡ quantum_for guests.now }
{
    let mut quantum = 1;
    for guest in guests {
        quantum = longest_of(&guest.uses).max(quantum);
    }
    quantum
}

// Adds a number behind its label.
#[tactic(auto, unfolding(crate::specs::Parts::labelled))]
pub(crate) fn push_labelled(text: &mut Vec<u8>, label: &[u8], number: u64) -> Result<(), AllocError>
    ensures { OnOk result (text.new.items ≡ text.old.items ++ labelled label.now number) }
{
    text.extend_from_slice(label)?;
    push_number(text, number)
}

// Whether a guest is there from the beginning.
fn autostart(first: u32) -> &'static [u8]
    ensures { result.now ≡ autostart first }
{
    if first == 0 { b"true" } else { b"false" }
}

// Adds a guest up to its first step.
#[tactic(auto, unfolding(crate::specs::Pieces::guest_pieces))]
fn push_head(
    text: &mut Vec<u8>,
    quantum: u64,
    number: u64,
    guest: &RecordedGuest,
) -> Result<(), AllocError>
    ensures { OnOk result (text.new.items ≡ text.old.items ++ guest_pieces quantum number guest.now) }
{
    text.extend_from_slice(b"{\"name\":\"")?;
    text.extend_from_slice(&guest.name)?;
    push_labelled(text, b"\",\"size\":", u64::from(guest.size))?;
    push_labelled(text, b",\"min\":", u64::from(guest.min))?;
    push_labelled(text, b",\"shares\":", u64::from(guest.shares))?;
    push_labelled(text, b",\"period\":", quantum)?;
    push_labelled(text, b",\"rate\":256,\"seed\":", number)?;
    text.extend_from_slice(b",\"autostart\":")?;
    text.extend_from_slice(autostart(guest.first))?;
    text.extend_from_slice(b",\"tell\":false,\"trace\":[")
}

// Adds a guest, with a comma behind it.
#[tactic(auto, using(crate::proofs::PartLemmas::guest_pieces_are), unfolding(crate::specs::Texts::guest_text))]
fn push_guest(
    text: &mut Vec<u8>,
    quantum: u64,
    number: u64,
    guest: &RecordedGuest,
) -> Result<(), AllocError>
    ensures { OnOk result (text.new.items ≡ text.old.items ++ ended (guest_text quantum number guest.now ∷ [])) }
{
    push_head(text, quantum, number, guest)?;
    push_steps(text, &guest.uses)?;
    text.extend_from_slice(b"]},")
}

// Adds all guests, with a comma behind each.
fn push_all(text: &mut Vec<u8>, quantum: u64, guests: &[RecordedGuest]) -> Result<(), AllocError>
    ensures { OnOk result (text.new.items ≡ text.old.items ++ ended (guest_texts quantum 0 guests.now)) }
{
    for (number, guest) in guests.iter().enumerate() {
        push_guest(text, quantum, number as u64, guest)?;
    }
    Ok(())
}

// Adds all guests, with a comma between each two.
#[tactic(auto, using(crate::proofs::PartLemmas::comma_dropped), unfolding(crate::specs::Parts::listed_guests))]
pub(crate) fn push_guests(
    text: &mut Vec<u8>,
    quantum: u64,
    guests: &[RecordedGuest],
) -> Result<(), AllocError>
    ensures { OnOk result (text.new.items ≡ text.old.items ++ listed_guests quantum guests.now) }
{
    let start = text.len();
    push_all(text, quantum, guests)?;
    drop_comma(text, start);
    Ok(())
}
