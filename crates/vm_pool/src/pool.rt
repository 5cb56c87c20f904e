ghost use Rattle.std.specs.Prelude.{◌≡◌, ℕ, ◌+◌, ◌<◌, ◌≤◌, ◌↔◌, IfOk, IfErr, IfSome, IsSome, IsSomeAnd, OnOk, OnErr, IsTrue, None, [], fold, length, map, replicate, slice_get, vec_len, vec_capacity};
ghost use Rattle.std.specs.Option.{option_map};
ghost use Rattle.vm_board.specs.Gates.{PassedOnce};
ghost use Rattle.vm_guest.specs.Boundary.{ordered, revoked, serviced, with_cap, with_shares, without_spares};
ghost use Rattle.vm_guest.specs.Good.{HasNothingPosted, IsGood};
ghost use Rattle.vm_guest.specs.Record.{reserve, steps_left};
ghost use Rattle.vm_guest.specs.View.{view_of};
ghost use Rattle.vm_pool.specs.CanMove.{CanGrant, CanRevoke};
ghost use Rattle.vm_pool.specs.Changes.{after_epoch, all_changed, changed, with_free, frames_to_start, granted_at, lacking, released_at, spares_of, started_at, stopped_at, surplus_of, blocked_above, with_min_at, with_orders, with_released, with_spares_back, is_above_in, AreReleasable};
ghost use Rattle.vm_pool.specs.Pool.{first_pool, guest_at, most_aside, overhead_frames, running_count, stopped_config, Conserves, EachGuest, HasTarget, IsRoomAt};
ghost use Rattle.vm_pool.specs.Readers.{peeked, stalled_of, Peeks};
ghost use Rattle.vm_pool.specs.declared.slot.Slot.TheVariants.{Stopped};

use crate::aside::put_back;
use crate::round::{run_epochs, run_epochs_alone};
use crate::seat::{Seat, free_seats};
use crate::shelf::Shelf;
use crate::slot::{
    Slot, close_all, grant, guest_of, order, release, revoke, room_to_start, serve, set_cap,
    set_min, set_shares, spares_back, spec_of, start, stop, take_room,
};
use std::alloc::{AllocError, Global};
use std::marker::Model;
use std::thread::Threads;
use vm_board::Gate;
use vm_frames::{Frame, Machine, PAGE_BYTES};
use vm_guest::{Guest, GuestRoom, GuestSpec, GuestView, PageRead, Stats, take_frames};

/// A machine with its guests, by position. It has to be closed, since the guests hold the machine's frames.
///
/// A clause sees it as a `PoolView`: plain data without frames. Pages and frames have 4096 bytes. Where no guest runs at a
/// position, a call about the guest there changes nothing, unless it says that one has to run.
pub struct Pool {
    machine: Machine,
    overhead: u32,
    // The frames set aside for running guests, with room for all that may be.
    aside: Vec<Frame>,
    slots: Vec<Slot>,
    // None, with room for those of all guests, which come back where the pool ends.
    specs: Vec<GuestSpec>,
    // The rooms that stopped guests left, with room for one of each guest. No contract sees them.
    shelf: Shelf,
}

impl Model for Pool {
    ghost use Rattle.vm_pool.specs.Pool.{PoolView};

    ghost Value = { PoolView };

    ghost use Rattle.vm_pool.specs.PoolFields.{pool_of, IsPool};

    ghost view = { pool_of };

    ghost invariant = { IsPool };
}

impl Pool {
    /// A machine of so many frames with these guests, none of which runs. For each that runs, so many frames are set aside as
    /// overhead (Waldspurger, OSDI 2002, section 6.2). Where memory is refused, the specifications come back.
    pub fn new(
        alloc: Global,
        frames: u32,
        overhead: u32,
        specs: Vec<GuestSpec>,
    ) -> Result<Pool, Vec<GuestSpec>>
        requires few { vec_len specs ≤ 256 }
        ensures first { IfOk result (λ pool. pool ≡ first_pool frames overhead specs.items) }
        ensures back { IfErr result (λ back. back ≡ specs) }
    {
        Pool::with_shelf(alloc, frames, overhead, specs, Shelf::new(alloc))
    }

    /// The same with the rooms that guests of other pools left, for guests of this one to start in. Where memory is refused, they are
    /// let go.
    pub fn with_shelf(
        alloc: Global,
        frames: u32,
        overhead: u32,
        specs: Vec<GuestSpec>,
        shelf: Shelf,
    ) -> Result<Pool, Vec<GuestSpec>>
        requires few { vec_len specs ≤ 256 }
        ensures first { IfOk result (λ pool. pool ≡ first_pool frames overhead specs.items) }
        ensures back { IfErr result (λ back. back ≡ specs) }
    {
        let mut shelf = shelf;
        if shelf.reserve(specs.len()).is_err() {
            return Err(specs);
        }
        let Ok(seats) = free_seats(alloc, specs.len()) else {
            return Err(specs);
        };
        let Ok(slots) = Vec::with_capacity(alloc, specs.len()) else {
            return Err(specs);
        };
        let most = most_aside(overhead, specs.len(), frames);
        let Ok(aside) = Vec::with_capacity(alloc, most) else {
            slots.destroy_empty();
            return Err(specs);
        };
        let Ok(machine) = Machine::new(alloc, frames) else {
            slots.destroy_empty();
            aside.destroy_empty();
            return Err(specs);
        };
        let mut left = specs;
        let slots = stopped(slots, seats, &mut left);
        Ok(Pool {
            machine,
            overhead,
            aside,
            slots,
            specs: left,
            shelf,
        })
    }

    /// How many guests there are, whether they run or not.
    pub fn len(&self) -> usize
        ensures guests { result ≡ length self.now.guests }
        ensures configs { result ≡ length self.now.configs }
    {
        self.slots.len()
    }

    /// How many frames are free. With those that guests hold and those set aside they add up to the machine, always.
    pub fn free(&self) -> u32
        ensures free { result ≡ self.now.free }
        ensures conserves { Conserves self.now }
    {
        self.machine.free()
    }

    /// How many frames the machine has.
    pub fn frames(&self) -> u32
        ensures { result ≡ self.now.frames }
    {
        self.machine.total()
    }

    /// How many frames are set aside for each guest that runs.
    pub fn overhead(&self) -> u32
        ensures { result ≡ self.now.overhead }
    {
        self.overhead
    }

    /// How many frames are set aside for the running guests together.
    pub fn overhead_frames(&self) -> u32
        ensures { result ≡ overhead_frames self.now }
    {
        self.aside.len() as u32
    }

    /// Whether a guest runs at a position.
    pub fn is_running(&self, position: usize) -> bool
        ensures { IsTrue result ↔ IsSome (guest_at self.now position) }
    {
        self.guest(position).is_some()
    }

    /// How the guest at a position is set up, if it is stopped.
    pub fn stopped(&self, position: usize) -> Option<&GuestSpec>
        ensures { option_map (λ s. s.now) result ≡ stopped_config self.now position }
    {
        spec_of(self.slots.get(position)?)
    }

    /// What is shown of the guest at a position, if one runs there.
    pub fn view(&self, position: usize) -> Option<GuestView>
        ensures value { result ≡ option_map view_of (guest_at self.now position) }

        // The active fraction is at most the whole.
        ensures active { IfSome result (λ v. v.active ≤ 65536) }

        // What is true of every guest.
        ensures good { IfSome (guest_at self.now position) IsGood }
    {
        Some(self.guest(position)?.view())
    }

    /// How many slots of swap are set aside for the guest at a position, if one runs there.
    pub fn reserve(&self, position: usize) -> Option<u32>
        ensures { result ≡ option_map reserve (guest_at self.now position) }
    {
        Some(self.guest(position)?.reserve())
    }

    /// The reads of the last epoch of the guest at a position, in order, if one runs there.
    pub fn reads(&self, position: usize) -> Option<&[PageRead]>
        ensures { option_map (λ s. s.now) result ≡ option_map (λ g. g.reads) (guest_at self.now position) }
    {
        Some(self.guest(position)?.reads())
    }

    /// The page on which the guest at a position stalled in its last epoch, if one runs there and did.
    pub fn stalled(&self, position: usize) -> Option<u32>
        ensures { result ≡ stalled_of (guest_at self.now position) }
    {
        self.guest(position)?.stalled()
    }

    /// How many steps of its trace the guest at a position has not executed, if one runs there.
    pub fn steps_left(&self, position: usize) -> Option<u64>
        ensures { result ≡ option_map steps_left (guest_at self.now position) }
    {
        Some(self.guest(position)?.steps_left())
    }

    /// What the driver of the guest at a position said last of its memory, if one runs there (`virsh dommemstat`).
    pub fn stats(&self, position: usize) -> Option<Stats>
        ensures { result ≡ option_map (λ g. g.device.stats) (guest_at self.now position) }
    {
        Some(self.guest(position)?.stats())
    }

    /// Copies a page of guest memory, wherever it is. It answers false, and copies nothing, exactly where no guest runs at the
    /// position or the page is not below its size.
    pub fn peek(&self, position: usize, page: u32, bytes: &mut [u8; PAGE_BYTES]) -> bool
        ensures { Peeks (peeked (guest_at self.now position) page) result bytes.old bytes.new }
    {
        match self.guest(position) {
            Some(guest) => guest.peek(page, bytes),
            None => false,
        }
    }

    /// Takes the memory that the guest at a position, which is stopped, needs to start.
    pub fn room_to_start(&self, alloc: Global, position: usize) -> Result<GuestRoom, AllocError>
        requires within { position < length self.now.guests }
        requires stopped { guest_at self.now position ≡ None }
        ensures { IfOk result (IsRoomAt self.now position) }
    {
        room_to_start(alloc, &self.slots[position])
    }

    /// The memory that the guest at a position, which is stopped, needs to start: the room that a guest of the same size and samples
    /// left, if there is one, and else a new one, for which a room that another guest left is let go. So no more rooms are kept than
    /// guests ever ran at once.
    ///
    /// Memory is asked for only where no such guest left its room, or where the swap area in it has to have more slots.
    pub fn take_room(&mut self, alloc: Global, position: usize) -> Result<GuestRoom, AllocError>
        requires within { position < length self.old.guests }
        requires stopped { guest_at self.old position ≡ None }
        ensures room { IfOk result (IsRoomAt self.old position) }
        ensures unchanged { self.new ≡ self.old }
    {
        take_room(&mut self.shelf, alloc, &self.slots[position])
    }

    /// Starts the guest at a position, which is stopped, in its room (`virsh start`). Its minimum and its overhead have to be free. It
    /// takes no memory.
    pub fn start(&mut self, position: usize, room: GuestRoom)
        requires within { position < length self.old.guests }
        requires stopped { guest_at self.old position ≡ None }
        requires room { IsRoomAt self.old position room }
        requires enough { frames_to_start self.old.overhead (slice_get self.old.configs position) ≤ self.old.free }
        ensures { self.new ≡ started_at self.old position }
    {
        start(&mut self.slots[position], room, &mut self.machine);
        take_frames(&mut self.aside, self.overhead, &mut self.machine);
    }

    /// Stops the guest that runs at a position (`virsh destroy`). Its frames and its overhead are free then. Its room is kept for
    /// [`Pool::take_room`].
    pub fn stop(&mut self, position: usize)
        requires { IsSome (guest_at self.old position) }
        ensures { self.new ≡ stopped_at self.old position }
    {
        let room = stop(&mut self.slots[position], &mut self.machine);
        put_back(&mut self.aside, self.overhead, &mut self.machine);
        self.shelf.keep(room);
    }

    // Serves the device of the guest at a position.
    fn serve(&mut self, position: usize)
        requires { position < length self.old.guests }
        ensures { self.new ≡ changed serviced self.old position }
    {
        serve(&mut self.slots[position]);
    }

    /// Serves the balloon device of each guest (OASIS VIRTIO 1.2, section 5.5.6). No buffer is posted then.
    pub fn serve_all(&mut self)
        ensures { self.new ≡ all_changed serviced self.old }
    {
        for position in 0..self.len() {
            self.serve(position);
        }
    }

    // The guest at a position gives back the spares above its target.
    fn spares_back(&mut self, position: usize)
        requires { position < length self.old.guests }
        ensures { self.new ≡ with_free without_spares (spares_of (guest_at self.old position)) self.old position }
    {
        spares_back(&mut self.slots[position], &mut self.machine);
    }

    /// Each guest gives back the spares above its target.
    pub fn spares_back_all(&mut self)
        ensures { self.new ≡ with_spares_back self.old }
    {
        for position in 0..self.len() {
            self.spares_back(position);
        }
    }

    /// Each guest gives back so many frames above its target, one by one: a spare, or else the frame of a victim.
    pub fn release_all(&mut self, counts: &[u32])
        requires length { length counts.now ≡ length self.old.guests }
        requires few { AreReleasable counts.now self.old.guests }
        ensures { self.new ≡ with_released counts.now self.old }
    {
        for position in 0..counts.len() {
            self.release(position, counts[position]);
        }
    }

    /// The guest at a position gives back so many frames above its target, one by one: a spare, or else the frame of a victim,
    /// which goes to its swap area (Waldspurger, OSDI 2002, section 3.3).
    pub fn release(&mut self, position: usize, count: u32)
        requires within { position < length self.old.guests }
        requires few { count ≤ surplus_of (guest_at self.old position) }
        ensures { self.new ≡ released_at count self.old position }
    {
        release(&mut self.slots[position], count, &mut self.machine);
    }

    /// Lowers the target of the guest at a position by so many frames, one after the other (Waldspurger, OSDI 2002, section 5.1).
    pub fn revoke(&mut self, position: usize, count: u32)
        requires { CanRevoke self.old (replicate count position) }
        ensures { self.new ≡ fold (changed revoked) self.old (replicate count position) }
    {
        if count > 0 {
            revoke(&mut self.slots[position], count);
        }
    }

    /// Raises the target of the guest at a position by so many frames that it asked for, one after the other. A free frame goes to it
    /// exactly where it has none above its target.
    pub fn grant(&mut self, position: usize, count: u32)
        requires { CanGrant self.old (replicate count position) }
        ensures { self.new ≡ fold granted_at self.old (replicate count position) }
    {
        if count > 0 {
            grant(&mut self.slots[position], count, &mut self.machine);
        }
    }

    /// Sets the most frames that the guest at a position may get (`virsh setmem`). A raised cap is a demand for the difference;
    /// the target falls to a lowered one.
    pub fn set_cap(&mut self, position: usize, cap: u32)
        requires within { position < length self.old.guests }
        requires from { IfSome (guest_at self.old position) (λ g. g.allotment.min ≤ cap) }
        requires to { IfSome (guest_at self.old position) (λ g. cap ≤ g.config.size) }
        ensures { self.new ≡ changed (λ g. with_cap g cap) self.old position }
    {
        set_cap(&mut self.slots[position], cap);
    }

    /// Sets the shares of the guest at a position (Waldspurger, OSDI 2002, section 5.1).
    pub fn set_shares(&mut self, position: usize, shares: u32)
        requires within { position < length self.old.guests }
        requires some { 1 ≤ shares }
        requires few { shares ≤ 1000000 }
        ensures { self.new ≡ changed (λ g. with_shares g shares) self.old position }
    {
        set_shares(&mut self.slots[position], shares);
    }

    /// Sets the frames that are never taken from the guest at a position (`virsh memtune --min-guarantee`), and gives it the
    /// frames that it lacks for them, which have to be free. Its swap area grows with the reserve, where the minimum is below each
    /// that it had; for that alone memory is wanted. Where it is refused, nothing changes.
    pub fn set_min(&mut self, position: usize, least: u32) -> Result<(), AllocError>
        requires within { position < length self.old.guests }
        requires from { 1 ≤ least }
        requires to { IfSome (guest_at self.old position) (λ g. least ≤ g.allotment.cap) }
        requires enough { lacking least (guest_at self.old position) ≤ self.old.free }
        ensures done { OnOk result (self.new ≡ with_min_at least self.old position) }
        ensures lowered { OnErr result (IsSomeAnd (guest_at self.old position) (λ g. least < g.allotment.least_min)) }
        ensures unchanged { OnErr result (self.new ≡ self.old) }
    {
        set_min(&mut self.slots[position], least, &mut self.machine)?;
        Ok(())
    }

    /// Gives each guest its orders for the next epoch; where `blocks`, one that holds more than its target may not run.
    pub fn order_all(&mut self, blocks: bool)
        ensures { self.new ≡ with_orders blocks self.old }
    {
        for position in 0..self.len() {
            self.order_waiting(position, blocks);
        }
    }

    // Gives the guest at a position its orders; where `blocks`, it may not run while it holds more than its target.
    fn order_waiting(&mut self, position: usize, blocks: bool)
        requires { position < length self.old.guests }
        ensures { self.new ≡ changed (λ g. ordered g (blocked_above blocks g)) self.old position }
    {
        let blocked = blocks && self.is_above(position);
        self.order(position, blocked);
    }

    // Whether the guest at a position holds more than its target.
    fn is_above(&self, position: usize) -> bool
        ensures { result ≡ is_above_in (guest_at self.now position) }
    {
        match self.view(position) {
            Some(view) => view.target < view.held,
            None => false,
        }
    }

    /// Gives the guest at a position its orders for the next epoch: how many pages are to be in the balloon, and whether it may
    /// run. What its last epoch showed is over.
    pub fn order(&mut self, position: usize, blocked: bool)
        requires { position < length self.old.guests }
        ensures { self.new ≡ changed (λ g. ordered g blocked) self.old position }
    {
        order(&mut self.slots[position], blocked);
    }

    /// Each running guest runs its epoch, on at most `workers` threads, the caller's among them. Guests are numbered in order;
    /// a thread enters the gate with a guest's number before it runs the guest, and leaves it after. Each number passes it once, and
    /// the numbers of each thread rise.
    ///
    /// Where the gate never waits, no more threads are used than have enough to do: a short epoch doesn't wait for threads to start.
    ///
    /// Each guest has to be served. Memory is asked for only where a guest runs; where it is refused, no guest runs its epoch, and
    /// nothing changes.
    pub fn epoch<R: Threads + Sync, G: Gate + Sync>(
        &mut self,
        rt: &R,
        alloc: Global,
        gate: &G,
        workers: u32,
    ) -> Result<(), AllocError>
        requires workers { (0 < workers) × (workers ≤ 64) }
        requires served { EachGuest HasNothingPosted self.old }
        ensures done { OnOk result (self.new ≡ after_epoch self.old) }
        ensures unchanged { OnErr result (self.new ≡ self.old) }
        ensures memory { OnErr result (0 < running_count self.old.guests) }
        ensures passed { OnOk result (PassedOnce G.passed workers (running_count self.old.guests)) }
    {
        run_epochs(rt, alloc, gate, workers, &mut self.slots)?;
        Ok(())
    }

    /// Each running guest runs its epoch on the caller's thread, in order, as [`Pool::epoch`] has one worker do it. It needs no
    /// runtime.
    ///
    /// Each guest has to be served. Memory is asked for only where a guest runs; where it is refused, no guest runs its epoch, and
    /// nothing changes.
    pub fn epoch_alone<G: Gate>(&mut self, gate: &G) -> Result<(), AllocError>
        requires { EachGuest HasNothingPosted self.old }
        ensures done { OnOk result (self.new ≡ after_epoch self.old) }
        ensures unchanged { OnErr result (self.new ≡ self.old) }
        ensures memory { OnErr result (0 < running_count self.old.guests) }
        ensures passed { OnOk result (PassedOnce G.passed 1 (running_count self.old.guests)) }
    {
        run_epochs_alone(gate, &mut self.slots)?;
        Ok(())
    }

    /// Ends a pool. Its guests are stopped, all frames go back to the machine, which can be closed only then, the rooms that were kept
    /// are let go, and the specifications come back in order. It takes no memory.
    pub fn close(self) -> Vec<GuestSpec>
        ensures { result.items ≡ self.configs }
    {
        let (specs, shelf) = self.close_keeping();
        drop(shelf);
        specs
    }

    /// Ends a pool as [`Pool::close`] does, and keeps the rooms of its guests for another one ([`Pool::with_shelf`]). It takes no memory.
    pub fn close_keeping(self) -> (Vec<GuestSpec>, Shelf)
        ensures { result.0.items ≡ self.configs }
    {
        let Pool {
            mut machine,
            overhead: _,
            mut aside,
            slots,
            mut specs,
            mut shelf,
        } = self;
        close_all(slots, &aside, &mut shelf, &mut machine, &mut specs);
        let count = aside.len() as u32;
        put_back(&mut aside, count, &mut machine);
        aside.destroy_empty();
        machine.close();
        (specs, shelf)
    }

    // The guest at a position, if one runs there.
    fn guest(&self, position: usize) -> Option<&Guest>
        ensures value { option_map (λ g. g.now.guest) result ≡ guest_at self.now position }
        ensures target { IfSome (guest_at self.now position) HasTarget }
    {
        guest_of(self.slots.get(position)?)
    }
}

// How many frames may be set aside at once: the overhead of each guest, and no more than there are.
fn most_aside(overhead: u32, guests: usize, frames: u32) -> usize
    requires { guests ≤ 256 }
    ensures { result ≡ most_aside overhead guests frames }
{
    (overhead as usize * guests).min(frames as usize)
}

// A slot with each specification and a seat, in order, put into the room that is there for them.
fn stopped(slots: Vec<Slot>, seats: Vec<Seat>, specs: &mut Vec<GuestSpec>) -> Vec<Slot>
    requires none { slots.items ≡ [] }
    requires room { vec_len specs.old ≤ vec_capacity slots }
    requires seats { vec_len seats ≡ vec_len specs.old }
    ensures slots { result.items ≡ map Stopped specs.old.items }
    ensures none { specs.new.items ≡ [] }
    ensures room { vec_capacity specs.new ≡ vec_capacity specs.old }
{
    let mut slots = slots;
    let mut seats = seats;
    while let Some(spec) = specs.pop() {
        match seats.pop() {
            Some(seat) => slots.push_reserved(Slot::Stopped(seat.with_spec(spec))),
            None => unreachable!(),
        }
    }
    slots.reverse();
    slots
}
