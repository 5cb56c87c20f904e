ghost use Rattle.std.specs.Prelude.{◌≡◌, ◌+◌, ◌-◌, ◌<◌, ◌≤◌, ◌↔◌, ◌^◌, IsTrue, IsSome, IfOk, IfErr, IfSome, OnOk, OnErr, length, min, true, false};
ghost use Rattle.std.specs.Bool.{OnTrue, OnFalse};
ghost use Rattle.std.specs.FinSet as set;
ghost use Rattle.vm_guest.specs.Boundary.{granted, lowered, ordered, released, revoked, serviced, spares_over, with_cap, with_frames, with_target_raised, with_min, with_shares, with_spare, without_spares};
ghost use Rattle.vm_guest.specs.Frames.{GivesOut, GivesOutSome, TakesBack, TakesBackSome, with_frame};
ghost use Rattle.vm_guest.specs.Good.{HasNothingPosted};
ghost use Rattle.vm_guest.specs.Memory.{bytes_of};
ghost use Rattle.vm_guest.specs.Record.{reserve, steps_left};
ghost use Rattle.vm_guest.specs.Room.{room_for, Serves};
ghost use Rattle.vm_guest.specs.Start.{started};
ghost use Rattle.vm_guest.specs.State.{state_epoch, with_guest, IsBacked};
ghost use Rattle.vm_guest.specs.View.{view_of};
ghost use Rattle.vm_guest.specs.Work.{work_ahead};

use crate::config::GuestSpec;
use crate::epoch::run;
use crate::parts::GuestParts;
use crate::reads::PageRead;
use crate::release::release;
use crate::room::GuestRoom;
use crate::service::serve;
use crate::view::{GuestView, view_of};
use crate::work::{WorkAhead, work_ahead};
use std::alloc::{AllocError, Global};
use std::marker::Model;
use vm_balloon::Stats;
use vm_frames::{Frame, Machine, PAGE_BYTES};

/// A running guest, with the frames that it holds. It has to be stopped.
///
/// A contract sees it as a `GuestState`: its record, which is plain data, how many pages its swap area has room for, the numbers
/// of the frames that it holds, and whether it is prepared for an epoch. Pages and frames have 4096 bytes.
///
/// Only [`GuestRoom::new`], [`GuestRoom::fit`], [`Guest::start`], [`Guest::prepare`] and [`Guest::grow_swap`] take memory.
pub struct Guest {
    // There is room for the reads of an epoch.
    prepared: bool,
    parts: GuestParts,
}

impl Model for Guest {
    ghost use Rattle.std.specs.Coded.{codes};
    ghost use Rattle.vm_guest.specs.Frames.{numbers_code};
    ghost use Rattle.vm_guest.specs.State.{GuestState};

    ghost Value = { GuestState };

    ghost coded = { Prim.hlevel (codes, numbers_code) };

    ghost use Rattle.vm_guest.specs.GuestFields.{state_of, IsGuest};

    ghost view = { state_of };

    ghost invariant = { IsGuest };
}

impl Guest {
    /// A guest that starts with its minimum of frames, which the machine has free. All of its memory is zeros, and it asks for the
    /// rest of its frames (`virsh start`; allocation by minimum and maximum: Waldspurger, OSDI 2002, section 6.1).
    ///
    /// Where memory is refused, the specification comes back and the machine keeps its frames.
    pub fn start(alloc: Global, spec: GuestSpec, machine: &mut Machine) -> Result<Guest, GuestSpec>
        requires enough { set.len machine.old.out + spec.min ≤ machine.old.total }
        ensures record { IfOk result (λ g. g.guest ≡ started spec) }
        ensures capacity { IfOk result (λ g. g.capacity ≡ spec.size - spec.min) }
        ensures unprepared { IfOk result (λ g. g.prepared ≡ false) }
        ensures frames { IfOk result (λ g. GivesOut machine.old machine.new g.frames) }
        ensures count { OnOk result (set.len machine.new.out ≡ set.len machine.old.out + spec.min) }
        ensures back { IfErr result (λ back. back ≡ spec) }
        ensures refused { OnErr result (machine.new ≡ machine.old) }
    {
        let Ok(room) = GuestRoom::new(alloc, &spec) else {
            return Err(spec);
        };
        Ok(Guest::start_in(spec, room, machine))
    }

    /// The same in a room that is for the specification. It takes no memory.
    pub fn start_in(spec: GuestSpec, room: GuestRoom, machine: &mut Machine) -> Guest
        requires room { room ≡ room_for spec }
        requires enough { set.len machine.old.out + spec.min ≤ machine.old.total }
        ensures record { result.guest ≡ started spec }
        ensures capacity { result.capacity ≡ spec.size - spec.min }
        ensures unprepared { result.prepared ≡ false }
        ensures frames { GivesOut machine.old machine.new result.frames }
        ensures count { set.len machine.new.out ≡ set.len machine.old.out + spec.min }
    {
        Guest {
            parts: room.start(spec, machine),
            prepared: false,
        }
    }

    /// Makes room for the reads of an epoch. Where memory is refused, which is only before the end of the trace, nothing changes.
    pub fn prepare(&mut self) -> Result<(), AllocError>
        ensures ok { OnOk result (self.new ≡ record self.old { prepared = true }) }
        ensures err { OnErr result (self.new ≡ self.old) }
        ensures memory { OnErr result (self.old.guest.progress.position < length self.old.guest.config.trace) }
    {
        let left = self.parts.spec.trace.len() - self.parts.progress.position as usize;
        let room = left.min(self.parts.spec.quantum as usize);
        self.parts.reads.reserve(room)?;
        self.prepared = true;
        Ok(())
    }

    /// How long the guest's next epoch takes, by what can be seen before it: an estimate, which changes nothing but on how many threads
    /// an epoch is run.
    pub fn work_ahead(&self) -> WorkAhead
        ensures work { result ≡ work_ahead self.now.guest }
        ensures steps { result.steps ≤ 262144 }
        ensures pages { result.pages < 2 ^ 33 }
        ensures beside { result.beside ≤ 400000000 }
    {
        work_ahead(&self.parts)
    }

    /// Runs an epoch, unless the guest is blocked: a driver of its own acts, it runs as many steps as its quantum says, idle ones
    /// after a yield and after its trace, up to one that stalls, and it tells which pages it used early. It takes no memory, and
    /// is no longer prepared.
    pub fn run_epoch(&mut self)
        requires prepared { self.old.prepared ≡ true }
        requires nothing { HasNothingPosted self.old.guest }
        ensures { self.new ≡ state_epoch self.old }
    {
        self.prepared = false;
        run(&mut self.parts);
    }

    /// Serves the balloon device (OASIS VIRTIO 1.2, section 5.5.6): a page whose inflate is accepted becomes zeros, and its frame a
    /// spare. Then no buffer is posted, and no page counts as used early.
    pub fn serve(&mut self)
        ensures { self.new ≡ with_guest self.old (serviced self.old.guest) }
    {
        serve(&mut self.parts);
    }

    /// Gives back the spares that are above the target, and tells how many.
    pub fn spares_back(&mut self, machine: &mut Machine) -> u32
        requires target { self.old.guest.allotment.target ≤ self.old.guest.memory.held }
        requires out { IsTrue (set.is_subset self.old.frames machine.old.out) }
        ensures count { result ≡ spares_over self.old.guest }
        ensures record { self.new.guest ≡ without_spares self.old.guest }
        ensures frames { TakesBackSome machine.old machine.new self.old.frames self.new.frames }
        ensures total { set.len machine.new.out + result ≡ set.len machine.old.out }
        ensures capacity { self.new.capacity ≡ self.old.capacity }
        ensures prepared { self.new.prepared ≡ self.old.prepared }
    {
        let spares = self.parts.memory.held() - self.parts.memory.resident();
        let surplus = self.parts.memory.held() - self.parts.allotment.target;
        let count = spares.min(surplus);
        release(&mut self.parts, count, machine);
        count
    }

    /// Gives back so many frames above the target, one by one: a spare, or else the frame of a victim, which goes to the swap area
    /// (Waldspurger, OSDI 2002, section 3.3).
    pub fn release(&mut self, count: u32, machine: &mut Machine)
        requires few { count ≤ self.old.guest.memory.held - self.old.guest.allotment.target }
        requires out { IsTrue (set.is_subset self.old.frames machine.old.out) }
        ensures record { self.new.guest ≡ released count self.old.guest }
        ensures frames { TakesBackSome machine.old machine.new self.old.frames self.new.frames }
        ensures total { set.len machine.new.out + count ≡ set.len machine.old.out }
        ensures capacity { self.new.capacity ≡ self.old.capacity }
        ensures prepared { self.new.prepared ≡ self.old.prepared }
    {
        release(&mut self.parts, count, machine);
    }

    /// Lowers the target by a frame (Waldspurger, OSDI 2002, section 5.1).
    pub fn revoke(&mut self)
        requires { self.old.guest.allotment.min < self.old.guest.allotment.target }
        ensures { self.new ≡ with_guest self.old (revoked self.old.guest) }
    {
        self.parts.allotment.target -= 1;
    }

    /// Lowers the target by so many frames, at most to the minimum (Waldspurger, OSDI 2002, section 5.1).
    pub fn lower_target(&mut self, count: u32)
        requires { self.old.guest.allotment.min + count ≤ self.old.guest.allotment.target }
        ensures { self.new ≡ with_guest self.old (lowered count self.old.guest) }
    {
        self.parts.allotment.target -= count;
    }

    /// Raises the target by a frame that the guest asked for. The frame comes with it exactly where the guest has none above its
    /// target.
    pub fn grant(&mut self, frame: Option<Frame>)
        requires demand { 0 < self.old.guest.allotment.demand }
        requires room { self.old.guest.allotment.target < self.old.guest.allotment.cap }
        requires full { IsSome frame ↔ (self.old.guest.memory.held ≡ self.old.guest.allotment.target) }
        requires new_number { IfSome frame (λ f. set.contains self.old.frames f.number ≡ false) }
        ensures record { self.new.guest ≡ granted self.old.guest }
        ensures frames { self.new.frames ≡ with_frame self.old.frames frame }
        ensures capacity { self.new.capacity ≡ self.old.capacity }
        ensures prepared { self.new.prepared ≡ self.old.prepared }
    {
        if let Some(spare) = frame {
            self.parts.memory.add_spare(spare);
        }
        self.parts.allotment.target += 1;
        self.parts.allotment.demand -= 1;
    }

    /// Raises the target by so many frames that the guest asked for. Where it holds fewer then, frames have to come to it (`add_spares`).
    pub fn raise_target(&mut self, count: u32)
        requires demand { count ≤ self.old.guest.allotment.demand }
        requires room { self.old.guest.allotment.target + count ≤ self.old.guest.allotment.cap }
        ensures { self.new ≡ with_guest self.old (with_target_raised count self.old.guest) }
    {
        let allotment = &mut self.parts.allotment;
        allotment.target += count;
        allotment.demand -= u64::from(count);
    }

    /// A frame joins the spares of a guest that has fewer frames than its target.
    pub fn add_spare(&mut self, frame: Frame)
        requires fewer { self.old.guest.memory.held < self.old.guest.allotment.target }
        requires new_number { set.contains self.old.frames frame.number ≡ false }
        ensures record { self.new.guest ≡ with_spare self.old.guest }
        ensures frames { self.new.frames ≡ set.insert self.old.frames frame.number }
        ensures capacity { self.new.capacity ≡ self.old.capacity }
        ensures prepared { self.new.prepared ≡ self.old.prepared }
    {
        self.parts.memory.add_spare(frame);
    }

    /// So many frames, which the machine has free, join the spares of a guest that holds as many fewer than its target.
    pub fn add_spares(&mut self, count: u32, machine: &mut Machine)
        requires few { count ≤ self.old.guest.allotment.target - self.old.guest.memory.held }
        requires enough { set.len machine.old.out + count ≤ machine.old.total }
        requires out { IsTrue (set.is_subset self.old.frames machine.old.out) }
        ensures record { self.new.guest ≡ with_frames self.old.guest (self.old.guest.memory.held + count) }
        ensures frames { GivesOutSome machine.old machine.new self.old.frames self.new.frames }
        ensures total { set.len machine.new.out ≡ set.len machine.old.out + count }
        ensures capacity { self.new.capacity ≡ self.old.capacity }
        ensures prepared { self.new.prepared ≡ self.old.prepared }
    {
        self.parts.memory.add_spares(count, machine);
    }

    /// Sets the most frames that the guest may get (`virsh setmem`). A raised cap is a demand for the difference; the target falls to a
    /// lowered one.
    pub fn set_cap(&mut self, cap: u32)
        requires from { self.old.guest.allotment.min ≤ cap }
        requires to { cap ≤ self.old.guest.config.size }
        ensures { self.new ≡ with_guest self.old (with_cap self.old.guest cap) }
    {
        let allotment = &mut self.parts.allotment;
        let more = cap.saturating_sub(allotment.cap);
        allotment.demand = allotment.demand.saturating_add(u64::from(more));
        allotment.target = allotment.target.min(cap);
        allotment.cap = cap;
    }

    /// Sets the frames that are never taken from the guest (`virsh memtune --min-guarantee`). The target rises to a raised minimum,
    /// and frames have to come to it then; the swap area has to have room for all pages above the least minimum.
    pub fn set_min(&mut self, least: u32)
        requires from { 1 ≤ least }
        requires to { least ≤ self.old.guest.allotment.cap }
        requires swap { self.old.guest.config.size - least ≤ self.old.capacity }
        ensures { self.new ≡ with_guest self.old (with_min self.old.guest least) }
    {
        let allotment = &mut self.parts.allotment;
        allotment.min = least;
        allotment.least_min = allotment.least_min.min(least);
        allotment.target = allotment.target.max(least);
    }

    /// Sets the guest's shares of the machine's memory (Waldspurger, OSDI 2002, section 5.1).
    pub fn set_shares(&mut self, shares: u32)
        requires some { 1 ≤ shares }
        requires few { shares ≤ 1000000 }
        ensures { self.new ≡ with_guest self.old (with_shares self.old.guest shares) }
    {
        self.parts.allotment.shares = shares;
    }

    /// Makes room in the swap area for so many pages more. Where memory is refused, which is only for some, nothing changes.
    pub fn grow_swap(&mut self, more: u32) -> Result<(), AllocError>
        requires { self.old.capacity + more < 2 ^ 32 }
        ensures ok { OnOk result (self.new ≡ record self.old { capacity = self.old.capacity + more }) }
        ensures err { OnErr result (self.new ≡ self.old) }
        ensures memory { OnErr result (0 < more) }
    {
        self.parts.memory.grow_swap(more)
    }

    /// Gives the orders for the next epoch: how many pages are to be in the balloon (`num_pages`: OASIS VIRTIO 1.2, section 5.5.4), and
    /// whether the guest may run. What the last epoch showed, its reads and the page that it stalled on, is over.
    pub fn order(&mut self, blocked: bool)
        ensures { self.new ≡ with_guest self.old (ordered self.old.guest blocked) }
    {
        let wanted = self.parts.spec.size - self.parts.allotment.target;
        self.parts.device.set_num_pages(wanted);
        self.parts.reads.clear();
        self.parts.progress.stalled_on = None;
        self.parts.progress.blocked = blocked;
    }

    /// What is shown of the guest.
    pub fn view(&self) -> GuestView
        ensures value { result ≡ view_of self.now.guest }

        // The active fraction is at most the whole.
        ensures active { result.active ≤ 65536 }

        // What is true of every guest.
        ensures backed { IsBacked self.now }
    {
        view_of(&self.parts)
    }

    /// How many slots of swap are set aside for the guest: one for each page above its least minimum.
    pub fn reserve(&self) -> u32
        ensures { result ≡ reserve self.now.guest }
    {
        self.parts.spec.size - self.parts.allotment.least_min
    }

    /// The reads of the last epoch, in order.
    pub fn reads(&self) -> &[PageRead]
        ensures { result.now ≡ self.now.guest.reads }
    {
        self.parts.reads.as_slice()
    }

    /// The page on which the guest stalled in its last epoch, if it did. Orders for the next one end that.
    pub fn stalled(&self) -> Option<u32>
        ensures { result ≡ self.now.guest.progress.stalled_on }
    {
        self.parts.progress.stalled_on
    }

    /// How many steps of its trace the guest has not executed.
    pub fn steps_left(&self) -> u64
        ensures { result ≡ steps_left self.now.guest }
    {
        self.parts.spec.trace.len() as u64 - u64::from(self.parts.progress.position)
    }

    /// What the driver said of the guest's memory in the statistics buffer that was served last (`virsh dommemstat`).
    pub fn stats(&self) -> Stats
        ensures { result ≡ self.now.guest.device.stats }
    {
        self.parts.device.stats()
    }

    /// Copies a page of guest memory, wherever it is. It answers false, and copies nothing, exactly where the page is not below
    /// the guest's size.
    pub fn peek(&self, page: u32, bytes: &mut [u8; PAGE_BYTES]) -> bool
        ensures there { IsTrue result ↔ (page < self.now.guest.config.size) }
        ensures copied { OnTrue result (bytes.new ≡ bytes_of self.now.guest.memory page) }
        ensures unchanged { OnFalse result (bytes.new ≡ bytes.old) }
    {
        if page >= self.parts.spec.size {
            return false;
        }
        self.parts.memory.copy_page(page, bytes);
        true
    }

    /// Ends the guest (`virsh destroy`). All of its frames go back to their machine, and its specification comes back.
    pub fn stop(self, machine: &mut Machine) -> GuestSpec
        requires { IsTrue (set.is_subset self.frames machine.old.out) }
        ensures spec { result ≡ self.guest.config }
        ensures frames { TakesBack machine.old machine.new self.frames }
        ensures count { set.len machine.new.out + self.guest.memory.held ≡ set.len machine.old.out }
    {
        let (spec, room) = self.stop_keeping(machine);
        drop(room);
        spec
    }

    /// Ends the guest as [`Guest::stop`] does, and keeps its room, which serves a guest of as many pages and samples. It takes no
    /// memory, and time for what the guest had touched, ballooned and posted, not for its size but for a count for each 2048 pages.
    pub fn stop_keeping(self, machine: &mut Machine) -> (GuestSpec, GuestRoom)
        requires { IsTrue (set.is_subset self.frames machine.old.out) }
        ensures spec { result.0 ≡ self.guest.config }
        ensures room { Serves result.1 self.guest.config }
        ensures frames { TakesBack machine.old machine.new self.frames }
        ensures count { set.len machine.new.out + self.guest.memory.held ≡ set.len machine.old.out }
    {
        let Guest { parts, prepared: _ } = self;
        GuestRoom::left_by(parts, machine)
    }
}
