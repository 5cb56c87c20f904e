// The commands of a host: each with a comma behind it.
ghost use Rattle.std.specs.Prelude.{◌≡◌, ◌++◌, ◌∷◌, [], OnOk, codes};
ghost use Rattle.std.specs.Fmt.{decimal};
ghost use Rattle.vm_recorded.specs.Commands.{all_come, all_go, capped_at, comes_at, command_of, commands_from, goes_at, start_at};
ghost use Rattle.vm_recorded.specs.Parts.{ended, listed_commands, opened_at};

use crate::guest::RecordedGuest;
use crate::numbers::{kib_of, push_number};
use crate::trace::drop_comma;
use std::alloc::AllocError;

// Adds a command up to its line.
fn push_opening(text: &mut Vec<u8>, at: u32) -> Result<(), AllocError>
    ensures { OnOk result (text.new.items ≡ text.old.items ++ opened_at at) }
{
    text.extend_from_slice(b"{\"at\":")?;
    push_number(text, u64::from(at))?;
    text.extend_from_slice(b",\"line\":\"")
}

// Adds the command that ends a guest behind its last epoch.
#[tactic(auto, unfolding(crate::specs::Commands::command_of))]
fn push_going(text: &mut Vec<u8>, at: u32, guest: &RecordedGuest) -> Result<(), AllocError>
    ensures { OnOk result (text.new.items ≡ text.old.items ++ ended (goes_at at guest.now)) }
{
    if u64::from(guest.first) + guest.uses.len() as u64 != u64::from(at) {
        return Ok(());
    }
    push_opening(text, at)?;
    text.extend_from_slice(b"destroy ")?;
    text.extend_from_slice(&guest.name)?;
    text.extend_from_slice(b"\"},")
}

// Adds the command that starts a guest of this name.
#[tactic(auto, unfolding(crate::specs::Commands::command_of))]
fn push_starting(text: &mut Vec<u8>, at: u32, name: &[u8]) -> Result<(), AllocError>
    ensures { OnOk result (text.new.items ≡ text.old.items ++ ended (command_of at (codes "start " ++ name.now) ∷ [])) }
{
    push_opening(text, at)?;
    text.extend_from_slice(b"start ")?;
    text.extend_from_slice(name)?;
    text.extend_from_slice(b"\"},")
}

// The same, unless the guest is there from the beginning.
fn push_start(text: &mut Vec<u8>, at: u32, name: &[u8]) -> Result<(), AllocError>
    ensures { OnOk result (text.new.items ≡ text.old.items ++ ended (start_at at name.now)) }
{
    if at == 0 {
        return Ok(());
    }
    push_starting(text, at, name)
}

// Adds the command by which a guest of this name may have so much.
fn push_setmem(text: &mut Vec<u8>, at: u32, name: &[u8], kib: u64) -> Result<(), AllocError>
    ensures { OnOk result (text.new.items ≡ text.old.items ++ ended (command_of at (codes "setmem " ++ (name.now ++ (codes " " ++ decimal kib))) ∷ [])) }
{
    push_opening(text, at)?;
    text.extend_from_slice(b"setmem ")?;
    text.extend_from_slice(name)?;
    text.extend_from_slice(b" ")?;
    push_number(text, kib)?;
    text.extend_from_slice(b"\"},")
}

// The same, unless that is all of its size.
fn push_capped(
    text: &mut Vec<u8>,
    unit: u32,
    at: u32,
    guest: &RecordedGuest,
) -> Result<(), AllocError>
    ensures { OnOk result (text.new.items ≡ text.old.items ++ ended (capped_at unit at guest.now)) }
{
    if guest.cap >= guest.size {
        return Ok(());
    }
    push_setmem(text, at, &guest.name, kib_of(guest.cap, unit))
}

// Adds what a guest begins with.
fn push_coming(
    text: &mut Vec<u8>,
    unit: u32,
    at: u32,
    guest: &RecordedGuest,
) -> Result<(), AllocError>
    ensures { OnOk result (text.new.items ≡ text.old.items ++ ended (comes_at unit at guest.now)) }
{
    if guest.first != at {
        return Ok(());
    }
    push_start(text, at, &guest.name)?;
    push_capped(text, unit, at, guest)
}

// Adds the commands of those that go.
fn push_all_going(text: &mut Vec<u8>, at: u32, guests: &[RecordedGuest]) -> Result<(), AllocError>
    ensures { OnOk result (text.new.items ≡ text.old.items ++ ended (all_go at guests.now)) }
{
    for guest in guests {
        push_going(text, at, guest)?;
    }
    Ok(())
}

// Adds the commands of those that come.
fn push_all_coming(
    text: &mut Vec<u8>,
    unit: u32,
    at: u32,
    guests: &[RecordedGuest],
) -> Result<(), AllocError>
    ensures { OnOk result (text.new.items ≡ text.old.items ++ ended (all_come unit at guests.now)) }
{
    for guest in guests {
        push_coming(text, unit, at, guest)?;
    }
    Ok(())
}

// Adds the commands of so many epochs.
fn push_epochs(
    text: &mut Vec<u8>,
    unit: u32,
    epochs: u32,
    guests: &[RecordedGuest],
) -> Result<(), AllocError>
    ensures { OnOk result (text.new.items ≡ text.old.items ++ ended (commands_from unit 0 epochs guests.now)) }
{
    for at in 0..epochs {
        push_all_going(text, at, guests)?;
        push_all_coming(text, unit, at, guests)?;
    }
    Ok(())
}

// Adds all commands, with a comma between each two.
#[tactic(auto, using(crate::proofs::PartLemmas::comma_dropped), unfolding(crate::specs::Parts::listed_commands))]
pub(crate) fn push_commands(
    text: &mut Vec<u8>,
    unit: u32,
    epochs: u32,
    guests: &[RecordedGuest],
) -> Result<(), AllocError>
    ensures { OnOk result (text.new.items ≡ text.old.items ++ listed_commands unit epochs guests.now) }
{
    let start = text.len();
    push_epochs(text, unit, epochs, guests)?;
    drop_comma(text, start);
    Ok(())
}
