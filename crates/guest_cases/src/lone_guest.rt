// A guest on a machine of its own.
ghost use Rattle.std.specs.Prelude.{◌≡◌, IfOk, OnOk, OnErr, IsTrue, false};
ghost use Rattle.std.specs.FinSet as set;
ghost use Rattle.vm_guest.specs.Room.{room_for};
ghost use Rattle.vm_guest.specs.View.{view_of};

use crate::call::Call;
use crate::facts::Facts;
use crate::fault::Fault;
use crate::shown::{bytes_text, reads_text, stats_text, work_text};
use std::alloc::{AllocError, Global};
use std::marker::Model;
use vm_frames::{Frame, Machine, PAGE_BYTES};
use vm_guest::{Guest, GuestRoom, GuestSpec, GuestView};

/// Whether what a call wants holds.
fn allowed(holds: bool) -> Result<(), Fault>
    ensures { OnOk result (IsTrue holds) }
{
    if holds {
        Ok(())
    } else {
        Err(Fault::NotAllowed)
    }
}

// What is seen of a guest, and no more: a clause of `view` tells all that is true of every guest as well.
fn seen(guest: &Guest) -> GuestView
    ensures { result ≡ view_of guest.now.guest }
{
    guest.view()
}

// Takes a free frame.
fn take_frame(machine: &mut Machine) -> Result<Frame, Fault>
    ensures free { IfOk result (λ frame. set.contains machine.old.out frame.number ≡ false) }
    ensures taken { IfOk result (λ frame. machine.new ≡ record machine.old { out = set.insert machine.old.out frame.number }) }
    ensures none { OnErr result (machine.new ≡ machine.old) }
{
    match machine.take() {
        Some(frame) => Ok(frame),
        None => Err(Fault::NotAllowed),
    }
}

// The numbers of the first two frames that a machine hands out of which no frame is out. It ends then.
#[tactic(auto, using(vm_frames::proofs::NumberSets::set_members))]
fn first_frames(machine: Machine) -> Option<(u32, u32)>
    requires { machine.out ≡ set.empty }
{
    let mut machine = machine;
    let Some(first) = machine.take() else {
        machine.close();
        return None;
    };
    let Some(second) = machine.take() else {
        machine.give(first);
        machine.close();
        return None;
    };
    let numbers = (first.number(), second.number());
    machine.give(second);
    machine.give(first);
    machine.close();
    Some(numbers)
}

// The second of two rooms for a guest. The first one goes.
fn second_room(alloc: Global, spec: &GuestSpec) -> Result<GuestRoom, AllocError>
    ensures { IfOk result (λ room. room ≡ room_for spec.now) }
{
    let _unused = GuestRoom::new(alloc, spec)?;
    GuestRoom::new(alloc, spec)
}

/// A guest, and a machine that no other guest has frames of.
pub struct LoneGuest {
    guest: Guest,
    machine: Machine,
    // Nothing was posted since the device was served.
    served: bool,
    // The swap area is as it was at the start.
    first: bool,
}

impl Model for LoneGuest {
    ghost use Rattle.std.specs.Coded.{codes};
    ghost use Rattle.vm_guest.specs.Frames.{numbers_code};
    ghost use Rattle.vm_guest.specs.State.{GuestState};
    ghost use Rattle.guest_cases.specs.Lone.{IsLone};

    ghost Value = { GuestState };

    ghost coded = { Prim.hlevel (codes, numbers_code) };

    ghost view = { λ g. g.guest };

    ghost invariant = { λ g. IsLone g.machine.out g.served g.first g.guest };
}

impl LoneGuest {
    /// On a machine of so many frames.
    pub fn start(alloc: Global, spec: GuestSpec, frames: u32) -> Result<LoneGuest, Fault> {
        let mut machine = Machine::new(alloc, frames)?;
        if spec.min > frames {
            machine.close();
            return Err(Fault::NotAllowed);
        }
        match Guest::start(alloc, spec, &mut machine) {
            Ok(guest) => Ok(LoneGuest {
                guest,
                machine,
                served: true,
                first: true,
            }),
            Err(_spec) => {
                machine.close();
                Err(Fault::Memory)
            }
        }
    }

    /// The same in a room that was made before, beside one that went.
    pub fn start_in_room(alloc: Global, spec: GuestSpec, frames: u32) -> Result<LoneGuest, Fault> {
        let room = second_room(alloc, &spec)?;
        let mut machine = Machine::new(alloc, frames)?;
        if spec.min > frames {
            machine.close();
            return Err(Fault::NotAllowed);
        }
        let guest = Guest::start_in(spec, room, &mut machine);
        Ok(LoneGuest {
            guest,
            machine,
            served: true,
            first: true,
        })
    }

    fn order(&mut self, blocked: bool) {
        self.guest.order(blocked);
    }

    fn epoch(&mut self) -> Result<(), Fault> {
        allowed(self.served)?;
        self.guest.prepare()?;
        self.served = false;
        self.guest.run_epoch();
        Ok(())
    }

    fn serve(&mut self) {
        self.guest.serve();
        self.served = true;
    }

    /// Gives spares back, and tells how many.
    pub fn spares_back(&mut self) -> Result<u32, Fault> {
        let view = seen(&self.guest);
        allowed(view.target <= view.held)?;
        let count = self.guest.spares_back(&mut self.machine);
        Ok(count)
    }

    /// A boundary without commands, and an epoch.
    pub fn next_epoch(&mut self) -> Result<(), Fault> {
        self.serve();
        self.spares_back()?;
        self.order(false);
        self.epoch()
    }

    fn release(&mut self, count: u32) -> Result<(), Fault> {
        let view = seen(&self.guest);
        allowed(view.target <= view.held)?;
        allowed(count <= view.held - view.target)?;
        self.guest.release(count, &mut self.machine);
        Ok(())
    }

    fn revoke(&mut self) -> Result<(), Fault> {
        let view = seen(&self.guest);
        allowed(view.min < view.target)?;
        self.guest.revoke();
        Ok(())
    }

    // Lowers the target, at most to the minimum.
    fn lower_target(&mut self, count: u32) -> Result<(), Fault> {
        let view = seen(&self.guest);
        allowed(view.min <= view.target)?;
        allowed(count <= view.target - view.min)?;
        self.guest.lower_target(count);
        Ok(())
    }

    // A grant of a frame that the guest lacks.
    fn grant(&mut self) -> Result<(), Fault> {
        let view = seen(&self.guest);
        allowed(0 < view.demand)?;
        allowed(view.target < view.cap)?;
        allowed(view.target == view.held)?;
        let frame = take_frame(&mut self.machine)?;
        self.guest.grant(Some(frame));
        Ok(())
    }

    // A grant of a frame that the guest holds.
    fn grant_held(&mut self) -> Result<(), Fault> {
        let view = seen(&self.guest);
        allowed(0 < view.demand)?;
        allowed(view.target < view.cap)?;
        allowed(view.target < view.held)?;
        self.guest.grant(None);
        Ok(())
    }

    // Raises the target, for which frames have to come where the guest holds fewer then.
    fn raise_target(&mut self, count: u32) -> Result<(), Fault> {
        let view = seen(&self.guest);
        allowed(u64::from(count) <= view.demand)?;
        allowed(view.target <= view.cap)?;
        allowed(count <= view.cap - view.target)?;
        self.guest.raise_target(count);
        Ok(())
    }

    fn add_spare(&mut self) -> Result<(), Fault> {
        let view = seen(&self.guest);
        allowed(view.held < view.target)?;
        let frame = take_frame(&mut self.machine)?;
        self.guest.add_spare(frame);
        Ok(())
    }

    fn set_cap(&mut self, cap: u32) -> Result<(), Fault> {
        let view = seen(&self.guest);
        allowed(view.min <= cap)?;
        allowed(cap <= view.size)?;
        self.guest.set_cap(cap);
        Ok(())
    }

    // Sets a minimum for which swap is set aside.
    fn set_min(&mut self, least: u32) -> Result<(), Fault> {
        let view = self.guest.view();
        allowed(1 <= least)?;
        allowed(least <= view.cap)?;
        allowed(view.size - least <= self.guest.reserve())?;
        self.guest.set_min(least);
        Ok(())
    }

    // Sets a minimum below the least one so far, for which the swap area grows. This is done once.
    fn lower_min(&mut self, least: u32) -> Result<(), Fault> {
        allowed(self.first)?;
        let view = self.guest.view();
        allowed(1 <= least)?;
        allowed(least <= view.cap)?;
        let reserve = self.guest.reserve();
        allowed(reserve <= view.size - least)?;
        let more = view.size - least - reserve;
        allowed(more <= 262_144)?;
        self.first = false;
        self.guest.grow_swap(more)?;
        self.guest.set_min(least);
        Ok(())
    }

    fn set_shares(&mut self, shares: u32) -> Result<(), Fault> {
        allowed(1 <= shares)?;
        allowed(shares <= 1_000_000)?;
        self.guest.set_shares(shares);
        Ok(())
    }

    /// Makes a call, where it is allowed.
    pub fn call(&mut self, call: Call) -> Result<(), Fault> {
        match call {
            Call::Order { blocked } => self.order(blocked),
            Call::Epoch => self.epoch()?,
            Call::Serve => self.serve(),
            Call::NextEpoch => self.next_epoch()?,
            Call::Revoke => self.revoke()?,
            Call::Grant => self.grant()?,
            Call::GrantHeld => self.grant_held()?,
            Call::AddSpare => self.add_spare()?,
            Call::Release(count) => self.release(count)?,
            Call::LowerTarget(count) => self.lower_target(count)?,
            Call::RaiseTarget(count) => self.raise_target(count)?,
            Call::SetCap(cap) => self.set_cap(cap)?,
            Call::SetMin(least) => self.set_min(least)?,
            Call::LowerMin(least) => self.lower_min(least)?,
            Call::SetShares(shares) => self.set_shares(shares)?,
        }
        Ok(())
    }

    /// What is shown of the guest.
    pub fn facts(&self) -> Facts {
        Facts::of(&seen(&self.guest))
    }

    /// The steps of the next epoch, the pages that they are on, and the nanoseconds beside them.
    pub fn work(&self, alloc: Global) -> Result<String, AllocError> {
        work_text(alloc, &self.guest.work_ahead())
    }

    /// How many pages can lie in the swap area.
    pub fn reserve(&self) -> u32 {
        self.guest.reserve()
    }

    /// How many frames are free.
    pub fn free(&self) -> u32 {
        self.machine.free()
    }

    /// What the driver has said of the guest's memory.
    pub fn stats(&self, alloc: Global) -> Result<String, AllocError> {
        stats_text(alloc, &self.guest.stats())
    }

    /// The reads of the last epoch.
    pub fn reads(&self, alloc: Global) -> Result<String, AllocError> {
        reads_text(alloc, self.guest.reads())
    }

    /// The first bytes of a page and the last one, or that there is no such page, which has to leave the bytes as they were.
    pub fn page(&self, alloc: Global, page: u32) -> Result<String, AllocError> {
        let mut found = [7; PAGE_BYTES];
        let is_there = self.guest.peek(page, &mut found);
        let ends = [found[0], found[1], found[4095]];
        if is_there {
            bytes_text(alloc, &[Some(ends[0]), Some(ends[1]), Some(ends[2])])
        } else if ends == [7; 3] {
            bytes_text(alloc, &[None])
        } else {
            bytes_text(alloc, &[])
        }
    }

    // The first byte of a page.
    fn first_byte(&self, page: u32) -> Option<u8> {
        let mut bytes = [0; PAGE_BYTES];
        if self.guest.peek(page, &mut bytes) {
            Some(bytes[0])
        } else {
            None
        }
    }

    /// The first bytes of the first four pages.
    pub fn first_bytes(&self, alloc: Global) -> Result<String, AllocError> {
        let bytes = [
            self.first_byte(0),
            self.first_byte(1),
            self.first_byte(2),
            self.first_byte(3),
        ];
        bytes_text(alloc, &bytes)
    }

    // Stops the guest. All frames of the machine are free then.
    fn stop(self) -> (GuestSpec, Machine)
        ensures empty { result.1.out ≡ set.empty }
        ensures none { set.len result.1.out ≡ 0 }
    {
        let LoneGuest {
            guest,
            mut machine,
            served: _,
            first: _,
        } = self;
        let spec = guest.stop(&mut machine);
        (spec, machine)
    }

    /// Ends the guest, whose specification comes back.
    pub fn end(self) -> GuestSpec {
        let (spec, machine) = self.stop();
        machine.close();
        spec
    }

    /// Ends it, and tells the numbers of the first two frames that its machine hands out then.
    pub fn end_before(self) -> Option<(u32, u32)> {
        let (_spec, machine) = self.stop();
        first_frames(machine)
    }
}
