// One place of a pool: a stopped guest's specification, or a guest.
ghost use Rattle.std.specs.Prelude.{◌≡◌, ℕ, ◌+◌, ◌-◌, ◌*◌, ◌<◌, ◌≤◌, ◌^◌, All, Bool, IfOk, IfSome, IsSomeAnd, OnOk, OnErr, Some, None, [], true, length, map, slice_get, vec_len, vec_capacity};
ghost use Rattle.std.specs.FinSet as set;
ghost use Rattle.std.specs.Option.{option_map};
ghost use Rattle.vm_guest.specs.Boundary.{lowered, ordered, released, serviced, without_spares, with_cap, with_shares};
ghost use Rattle.vm_guest.specs.Frames.{times_among};
ghost use Rattle.vm_guest.specs.Room.{room_for};
ghost use Rattle.vm_guest.specs.Start.{started};
ghost use Rattle.vm_pool.specs.Changes.{lacking, surplus_of, with_min_held};
ghost use Rattle.vm_pool.specs.Growth.{frames_to_grow, grown};
ghost use Rattle.vm_pool.specs.Moves.{once_if, Moves};
ghost use Rattle.vm_pool.specs.Guests.{running};
ghost use Rattle.vm_pool.specs.Pool.{held_by, total_held};
ghost use Rattle.vm_pool.specs.Slots.{config_in, guest_in, holders, holds, is_away, slot_changed, spec_in, IsRunning, IsSettled, IsStopped};

use crate::seat::{Idle, Seated};
use crate::shelf::Shelf;
use crate::{granting, minimum};
use std::alloc::{AllocError, Global};
use std::mem;
use vm_board::Work;
use vm_frames::{Frame, Machine};
use vm_guest::{Guest, GuestRoom, GuestSpec};

pub(crate) enum Slot {
    Stopped(Idle),
    Running(Seated),
    // The guest starts, stops, or runs its epoch.
    Away,
}

impl Work for Slot {
    ghost use Rattle.vm_pool.specs.Slots.{slot_run};
    ghost use Rattle.vm_pool.specs.Turns.{MayRun};

    ghost ready = { MayRun };

    // The guest's epoch as a whole.
    ghost pieces = { λ _. 1 };

    ghost piece = { λ _ slot. slot_run slot };

    fn run(&mut self) {
        if let Slot::Running(seated) = self {
            seated.guest_mut().run_epoch();
        }
    }
}

// The guest of a slot, if one runs there.
pub(crate) fn guest_of(slot: &Slot) -> Option<&Guest>
    ensures { option_map (λ g. g.now.guest) result ≡ guest_in slot.now }
{
    match slot {
        Slot::Running(seated) => Some(seated.guest()),
        Slot::Stopped(_) => None,
        Slot::Away => None,
    }
}

// The specification of a slot's guest, if it is stopped.
pub(crate) fn spec_of(slot: &Slot) -> Option<&GuestSpec>
    ensures { option_map (λ s. s.now) result ≡ spec_in slot.now }
{
    match slot {
        Slot::Stopped(idle) => Some(idle.spec()),
        Slot::Running(_) => None,
        Slot::Away => None,
    }
}

// Puts something into the slot of a guest that is away.
pub(crate) fn fill(slot: &mut Slot, new: Slot)
    requires { is_away slot.old ≡ true }
    ensures { slot.new ≡ new }
{
    match mem::replace(slot, new) {
        Slot::Away => {}
        Slot::Stopped(_idle) => unreachable!(),
        Slot::Running(_seated) => unreachable!(),
    }
}

// The memory that the stopped guest of a slot needs to start.
pub(crate) fn room_to_start(alloc: Global, slot: &Slot) -> Result<GuestRoom, AllocError>
    requires { IsStopped slot.now }
    ensures { IfOk result (λ room. room ≡ room_for (config_in slot.now)) }
{
    match slot {
        Slot::Stopped(idle) => GuestRoom::new(alloc, idle.spec()),
        Slot::Running(_) => unreachable!(),
        Slot::Away => unreachable!(),
    }
}

// The same, from the shelf where a room there serves.
pub(crate) fn take_room(
    shelf: &mut Shelf,
    alloc: Global,
    slot: &Slot,
) -> Result<GuestRoom, AllocError>
    requires { IsStopped slot.now }
    ensures { IfOk result (λ room. room ≡ room_for (config_in slot.now)) }
{
    match slot {
        Slot::Stopped(idle) => shelf.take(alloc, idle.spec()),
        Slot::Running(_) => unreachable!(),
        Slot::Away => unreachable!(),
    }
}

// Starts the stopped guest of a slot in its room. The machine has its minimum free.
pub(crate) fn start(slot: &mut Slot, room: GuestRoom, machine: &mut Machine)
    requires stopped { IsStopped slot.old }
    requires room { room ≡ room_for (config_in slot.old) }
    requires enough { set.len machine.old.out + (config_in slot.old).min ≤ machine.old.total }
    ensures { Moves (Some (started (config_in slot.old))) slot.old slot.new machine.old machine.new }
{
    match mem::replace(slot, Slot::Away) {
        Slot::Stopped(idle) => {
            let (spec, seat) = idle.leave();
            let guest = Guest::start_in(spec, room, machine);
            fill(slot, Slot::Running(seat.with_guest(guest)));
        }
        Slot::Running(_seated) => unreachable!(),
        Slot::Away => unreachable!(),
    }
}

// Stops the running guest of a slot. Its frames go back to the machine, and its room is left.
pub(crate) fn stop(slot: &mut Slot, machine: &mut Machine) -> GuestRoom
    requires runs { IsRunning slot.old }
    requires out { (number : ℕ) → holds number slot.old ≡ true → set.contains machine.old.out number ≡ true }
    ensures { Moves None slot.old slot.new machine.old machine.new }
{
    match mem::replace(slot, Slot::Away) {
        Slot::Running(seated) => {
            let (guest, seat) = seated.leave();
            let (spec, room) = guest.stop_keeping(machine);
            fill(slot, Slot::Stopped(seat.with_spec(spec)));
            room
        }
        Slot::Stopped(_idle) => unreachable!(),
        Slot::Away => unreachable!(),
    }
}

// Serves the device of a slot's guest.
pub(crate) fn serve(slot: &mut Slot)
    ensures { slot.new ≡ slot_changed serviced slot.old }
{
    if let Slot::Running(seated) = slot {
        seated.guest_mut().serve();
    }
}

// The guest of a slot gives back the spares above its target.
pub(crate) fn spares_back(slot: &mut Slot, machine: &mut Machine)
    requires settled { IsSettled slot.old }
    requires out { (number : ℕ) → holds number slot.old ≡ true → set.contains machine.old.out number ≡ true }
    ensures { Moves (option_map without_spares (guest_in slot.old)) slot.old slot.new machine.old machine.new }
{
    if let Slot::Running(seated) = slot {
        let _ = seated.guest_mut().spares_back(machine);
    }
}

// The guest of a slot gives back so many frames above its target.
pub(crate) fn release(slot: &mut Slot, count: u32, machine: &mut Machine)
    requires few { count ≤ surplus_of (guest_in slot.old) }
    requires settled { IsSettled slot.old }
    requires out { (number : ℕ) → holds number slot.old ≡ true → set.contains machine.old.out number ≡ true }
    ensures { Moves (option_map (released count) (guest_in slot.old)) slot.old slot.new machine.old machine.new }
{
    if let Slot::Running(seated) = slot {
        seated.guest_mut().release(count, machine);
    }
}

// Lowers the target of a slot's guest by so many frames.
pub(crate) fn revoke(slot: &mut Slot, count: u32)
    requires { IfSome (guest_in slot.old) (λ g. g.allotment.min + count ≤ g.allotment.target) }
    ensures { slot.new ≡ slot_changed (lowered count) slot.old }
{
    if let Slot::Running(seated) = slot {
        seated.guest_mut().lower_target(count);
    }
}

// Raises the target of a slot's guest by so many frames. Free ones go to it where it holds fewer then.
pub(crate) fn grant(slot: &mut Slot, count: u32, machine: &mut Machine)
    requires demand { IfSome (guest_in slot.old) (λ g. count ≤ g.allotment.demand) }
    requires room { IfSome (guest_in slot.old) (λ g. g.allotment.target + count ≤ g.allotment.cap) }
    requires enough { set.len machine.old.out + frames_to_grow count (guest_in slot.old) ≤ machine.old.total }
    requires settled { IsSettled slot.old }
    requires out { (number : ℕ) → holds number slot.old ≡ true → set.contains machine.old.out number ≡ true }
    ensures { Moves (option_map (grown count) (guest_in slot.old)) slot.old slot.new machine.old machine.new }
{
    if let Slot::Running(seated) = slot {
        granting::grant(seated.guest_mut(), count, machine);
    }
}

// Sets the most frames that the guest of a slot may get.
pub(crate) fn set_cap(slot: &mut Slot, cap: u32)
    requires from { IfSome (guest_in slot.old) (λ g. g.allotment.min ≤ cap) }
    requires to { IfSome (guest_in slot.old) (λ g. cap ≤ g.config.size) }
    ensures { slot.new ≡ slot_changed (λ g. with_cap g cap) slot.old }
{
    if let Slot::Running(seated) = slot {
        seated.guest_mut().set_cap(cap);
    }
}

// Sets the shares of a slot's guest.
pub(crate) fn set_shares(slot: &mut Slot, shares: u32)
    requires some { 1 ≤ shares }
    requires few { shares ≤ 1000000 }
    ensures { slot.new ≡ slot_changed (λ g. with_shares g shares) slot.old }
{
    if let Slot::Running(seated) = slot {
        seated.guest_mut().set_shares(shares);
    }
}

// The guest of a slot gets its orders for the next epoch.
pub(crate) fn order(slot: &mut Slot, blocked: bool)
    ensures { slot.new ≡ slot_changed (λ g. ordered g blocked) slot.old }
{
    if let Slot::Running(seated) = slot {
        seated.guest_mut().order(blocked);
    }
}

// Sets the minimum of a slot's guest, which gets the frames that it lacks. Where memory is refused, nothing changes.
pub(crate) fn set_min(slot: &mut Slot, least: u32, machine: &mut Machine) -> Result<(), AllocError>
    requires from { 1 ≤ least }
    requires to { IfSome (guest_in slot.old) (λ g. least ≤ g.allotment.cap) }
    requires enough { set.len machine.old.out + lacking least (guest_in slot.old) ≤ machine.old.total }
    requires settled { IsSettled slot.old }
    requires out { (number : ℕ) → holds number slot.old ≡ true → set.contains machine.old.out number ≡ true }
    ensures done { OnOk result (Moves (option_map (with_min_held least) (guest_in slot.old)) slot.old slot.new machine.old machine.new) }
    ensures lowered { OnErr result (IsSomeAnd (guest_in slot.old) (λ g. least < g.allotment.least_min)) }
    ensures slot { OnErr result (slot.new ≡ slot.old) }
    ensures machine { OnErr result (machine.new ≡ machine.old) }
{
    if let Slot::Running(seated) = slot {
        minimum::set_min(seated.guest_mut(), least, machine)?;
    }
    Ok(())
}

// Ends a slot. The frames of its guest go back to their machine, its room goes to the shelf, and the specification comes back.
fn close(slot: Slot, shelf: &mut Shelf, machine: &mut Machine) -> GuestSpec
    requires settled { IsSettled slot }
    requires out { (number : ℕ) → holds number slot ≡ true → set.contains machine.old.out number ≡ true }
    ensures total { machine.new.total ≡ machine.old.total }
    ensures others { (number : ℕ) → once_if (set.contains machine.new.out number) + once_if (holds number slot)
        ≡ once_if (set.contains machine.old.out number) }
    ensures count { set.len machine.new.out + held_by (guest_in slot) ≡ set.len machine.old.out }
    ensures spec { result ≡ config_in slot }
{
    match slot {
        Slot::Running(seated) => {
            let (guest, _seat) = seated.leave();
            let (spec, room) = guest.stop_keeping(machine);
            shelf.keep(room);
            spec
        }
        Slot::Stopped(idle) => {
            let (spec, _seat) = idle.leave();
            spec
        }
        Slot::Away => unreachable!(),
    }
}

// Ends all slots. The frames of their guests go back to their machine, the others stay out, their rooms go to the shelf, and the
// specifications come back in order, in the room that is there for them.
pub(crate) fn close_all(
    slots: Vec<Slot>,
    others: &[Frame],
    shelf: &mut Shelf,
    machine: &mut Machine,
    specs: &mut Vec<GuestSpec>,
)
    requires settled { All IsSettled slots.items }
    requires none { specs.old.items ≡ [] }
    requires room { vec_len slots ≤ vec_capacity specs.old }
    requires owners { (number : ℕ) → holders number slots.items + times_among number others.now ≡ once_if (set.contains machine.old.out number) }
    requires held { set.len machine.old.out ≡ total_held (map guest_in slots.items) + length others.now }
    ensures owners { (number : ℕ) → times_among number others.now ≡ once_if (set.contains machine.new.out number) }
    ensures held { set.len machine.new.out ≡ length others.now }
    ensures specs { specs.new.items ≡ map config_in slots.items }
{
    let mut slots = slots;
    while let Some(slot) = slots.pop() {
        specs.push_reserved(close(slot, shelf, machine));
    }
    slots.destroy_empty();
    specs.reverse();
}
