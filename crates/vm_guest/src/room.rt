ghost use Rattle.std.specs.Prelude.{◌≡◌, ◌+◌, ◌-◌, ◌<◌, ◌≤◌, ◌↔◌, IfOk, IsTrue, OnErr, OnOk};
ghost use Rattle.std.specs.FinSet as set;
ghost use Rattle.vm_guest.specs.Frames.{GivesOut, TakesBack};
ghost use Rattle.vm_guest.specs.Parts.{record_of, IsFit};
ghost use Rattle.vm_guest.specs.Room.{room_for, Serves};
ghost use Rattle.vm_guest.specs.Start.{started};

use crate::config::GuestSpec;
use crate::memory::{HeldMemory, MemoryRoom, set_slots};
use crate::parts::GuestParts;
use crate::start::{RoomBesideMemory, first_parts, last_parts};
use std::alloc::{AllocError, Global};
use std::marker::Model;
use vm_frames::Machine;

/// The memory that a guest needs beside its frames, taken before it starts, so that its start can't fail. A guest that stops may
/// leave it to another one ([`Guest::stop_keeping`](crate::Guest::stop_keeping)).
///
/// A contract sees it as a `RoomView`: for how many pages and slots of swap it is, and the sampler and the generator that the
/// guest begins with. A guest can start in it that has the configuration of the specification that it was made or fitted for.
pub struct GuestRoom {
    room: RoomBesideMemory,
    memory: MemoryRoom,
}

impl Model for GuestRoom {
    ghost use Rattle.vm_guest.specs.Room.{RoomView};

    ghost Value = { RoomView };

    ghost use Rattle.vm_guest.specs.RoomFields.{room_of, IsGuestRoom};

    ghost view = { room_of };

    ghost invariant = { IsGuestRoom };
}

impl Drop for GuestRoom {
    fn drop(self) {
        let GuestRoom { room, memory } = self;
        drop(room);
        memory.close();
    }
}

impl GuestRoom {
    /// Room for a guest with this specification. An error says that memory was refused.
    pub fn new(alloc: Global, spec: &GuestSpec) -> Result<GuestRoom, AllocError>
        ensures { IfOk result (λ room. room ≡ room_for spec.now) }
    {
        let memory = MemoryRoom::new(alloc, spec.size, spec.size - spec.min)?;
        match RoomBesideMemory::new(alloc, spec) {
            Ok(room) => Ok(GuestRoom { room, memory }),
            Err(error) => {
                memory.close();
                Err(error)
            }
        }
    }

    /// Whether it can be fitted for a guest with this specification: it is for as many pages, and as many of them are drawn.
    pub fn serves(&self, spec: &GuestSpec) -> bool
        ensures { IsTrue result ↔ Serves self.now spec.now }
    {
        self.room.sampler.size() == spec.size && self.room.sampler.draws() == spec.samples
    }

    /// Makes a room that serves such guests the room for a guest with this specification. It is then as a new one, whatever guest
    /// left it.
    ///
    /// Memory is asked for only where the swap area has to have more slots. Where it is refused, nothing changes.
    pub fn fit(&mut self, spec: &GuestSpec) -> Result<(), AllocError>
        requires { Serves self.old spec.now }
        ensures ok { OnOk result (self.new ≡ room_for spec.now) }
        ensures err { OnErr result (self.new ≡ self.old) }
        ensures memory { OnErr result (self.old.slots < spec.now.size - spec.now.min) }
    {
        set_slots(&mut self.memory.swap, spec.size - spec.min)?;
        self.room.fit(spec);
        Ok(())
    }

    // The room that a guest leaves as it ends, emptied, and its specification. Its frames go back to their machine.
    pub(crate) fn left_by(parts: GuestParts, machine: &mut Machine) -> (GuestSpec, GuestRoom)
        requires fit { IsFit parts }
        requires out { IsTrue (set.is_subset parts.memory.frames machine.old.out) }
        ensures spec { result.0 ≡ parts.spec }
        ensures serves { Serves result.1 parts.spec }
        ensures frames { TakesBack machine.old machine.new parts.memory.frames }
        ensures count { set.len machine.new.out + parts.memory.memory.held ≡ set.len machine.old.out }
    {
        let (spec, held, room) = last_parts(parts);
        let memory = held.empty(machine);
        (spec, GuestRoom { room, memory })
    }

    // What a guest is that starts in this room, which is for it, with its minimum of frames, which the machine has free.
    pub(crate) fn start(self, spec: GuestSpec, machine: &mut Machine) -> GuestParts
        requires room { self ≡ room_for spec }
        requires enough { set.len machine.old.out + spec.min ≤ machine.old.total }
        ensures record { record_of result ≡ started spec }
        ensures fit { IsFit result }
        ensures capacity { result.memory.capacity ≡ spec.size - spec.min }
        ensures frames { GivesOut machine.old machine.new result.memory.frames }
        ensures count { set.len machine.new.out ≡ set.len machine.old.out + spec.min }
    {
        let GuestRoom {
            room,
            memory: unused,
        } = self;
        let memory = HeldMemory::new(unused, spec.min, machine);
        first_parts(spec, memory, room)
    }
}
