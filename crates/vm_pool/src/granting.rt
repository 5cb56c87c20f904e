// A guest whose target rises.
ghost use Rattle.std.specs.Prelude.{◌≡◌, ℕ, ◌+◌, ◌-◌, ◌≤◌, true};
ghost use Rattle.std.specs.FinSet as set;
ghost use Rattle.vm_pool.specs.Growth.{grown};
ghost use Rattle.vm_pool.specs.Moves.{TakesFrames};
ghost use Rattle.vm_pool.specs.Slots.{IsStanding};

use crate::minimum::add_spares;
use vm_frames::Machine;
use vm_guest::Guest;

// Raises the target of a guest by so many frames, and gives it those that it lacks then, which the machine has free.
pub(crate) fn grant(guest: &mut Guest, count: u32, machine: &mut Machine)
    requires demand { count ≤ guest.old.guest.allotment.demand }
    requires room { guest.old.guest.allotment.target + count ≤ guest.old.guest.allotment.cap }
    requires enough { set.len machine.old.out + (guest.old.guest.allotment.target + count - guest.old.guest.memory.held) ≤ machine.old.total }
    requires standing { IsStanding guest.old }
    requires out { (number : ℕ) → set.contains guest.old.frames number ≡ true → set.contains machine.old.out number ≡ true }
    ensures guest { guest.new.guest ≡ grown count guest.old.guest }
    ensures capacity { guest.new.capacity ≡ guest.old.capacity }
    ensures frames { TakesFrames (guest.old.guest.allotment.target + count - guest.old.guest.memory.held) machine.old machine.new guest.old.frames guest.new.frames }
{
    let view = guest.view();
    let lacking = (view.target + count).saturating_sub(view.held);
    guest.raise_target(count);
    add_spares(guest, lacking, machine);
}
