// A guest whose minimum is set.
ghost use Rattle.std.specs.Prelude.{◌≡◌, ℕ, ◌+◌, ◌-◌, ◌<◌, ◌≤◌, ◌^◌, OnOk, OnErr, true};
ghost use Rattle.std.specs.FinSet as set;
ghost use Rattle.vm_guest.specs.Boundary.{with_frames};
ghost use Rattle.vm_guest.specs.Record.{reserve};
ghost use Rattle.vm_pool.specs.Changes.{with_min_held};
ghost use Rattle.vm_pool.specs.Moves.{TakesFrames};
ghost use Rattle.vm_pool.specs.Slots.{IsStanding};

use std::alloc::AllocError;
use vm_frames::Machine;
use vm_guest::{Guest, more_reserve};

// Sets the minimum of a guest, and gives it the frames that it lacks, which the machine has free. Its swap area grows where the minimum
// is below each that it had. Where memory is refused, nothing changes.
pub(crate) fn set_min(
    guest: &mut Guest,
    least: u32,
    machine: &mut Machine,
) -> Result<(), AllocError>
    requires from { 1 ≤ least }
    requires to { least ≤ guest.old.guest.allotment.cap }
    requires enough { set.len machine.old.out + (least - guest.old.guest.memory.held) ≤ machine.old.total }
    requires standing { IsStanding guest.old }
    requires out { (number : ℕ) → set.contains guest.old.frames number ≡ true → set.contains machine.old.out number ≡ true }
    ensures guest { OnOk result (guest.new.guest ≡ with_min_held least guest.old.guest) }
    ensures capacity { OnOk result (guest.new.capacity ≡ reserve (with_min_held least guest.old.guest)) }
    ensures frames { OnOk result (TakesFrames (least - guest.old.guest.memory.held) machine.old machine.new guest.old.frames guest.new.frames) }
    ensures lowered { OnErr result (least < guest.old.guest.allotment.least_min) }
    ensures unchanged { OnErr result (guest.new ≡ guest.old) }
    ensures machine { OnErr result (machine.new ≡ machine.old) }
{
    let view = guest.view();
    let slots = more_reserve(view.size, guest.reserve(), least);
    guest.grow_swap(slots)?;
    guest.set_min(least);
    add_spares(guest, least.saturating_sub(view.held), machine);
    Ok(())
}

// So many frames join the spares of a guest that lacks them.
pub(crate) fn add_spares(guest: &mut Guest, count: u32, machine: &mut Machine)
    requires few { count ≤ guest.old.guest.allotment.target - guest.old.guest.memory.held }
    requires enough { set.len machine.old.out + count ≤ machine.old.total }
    requires out { (number : ℕ) → set.contains guest.old.frames number ≡ true → set.contains machine.old.out number ≡ true }
    ensures guest { guest.new.guest ≡ with_frames guest.old.guest (guest.old.guest.memory.held + count) }
    ensures capacity { guest.new.capacity ≡ guest.old.capacity }
    ensures frames { TakesFrames count machine.old machine.new guest.old.frames guest.new.frames }
{
    guest.add_spares(count, machine);
}
