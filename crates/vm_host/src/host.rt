ghost use Rattle.std.specs.Prelude.{◌≡◌, ◌≢◌, ◌<◌, ◌≤◌, ◌↔◌, ◌⊎◌, IfErr, IfOk, IsTrue, Err, OnErr, OnOk, length, slice_get};
ghost use Rattle.std.specs.Option.{option_map};
ghost use Rattle.vm_board.specs.Gates.{PassedOnce};
ghost use Rattle.vm_domains.specs.Domains.{domains_of, place_of};
ghost use Rattle.vm_guest.specs.Good.{IsGood};
ghost use Rattle.vm_guest.specs.Record.{steps_left};
ghost use Rattle.vm_guest.specs.View.{view_of};
ghost use Rattle.vm_pool.specs.Pool.{running_count, EachGuest, Conserves as PoolConserves};
ghost use Rattle.vm_pool.specs.Readers.{stalled_of, Peeks};
ghost use Rattle.vm_reclaim.specs.Policy.{policy_of};
ghost use Rattle.vm_plan.specs.declared.state.State.TheVariants.{High};
ghost use Rattle.vm_host.specs.declared.host.HostError.TheVariants.{Memory as NoMemory, Failed as HasFailed};
ghost use Rattle.vm_host.specs.declared.phase.Phase.TheVariants.{Waiting, Ready, Failed};
ghost use Rattle.vm_host.specs.Boundary.{past_boundary, boundary_of, FailsAfterSome};
ghost use Rattle.vm_host.specs.Epoch.{after_epoch};
ghost use Rattle.vm_host.specs.Fairness.{IsFairBoundary, IsFairRebalancing};
ghost use Rattle.vm_host.specs.Parts.{world_of};
ghost use Rattle.vm_host.specs.Readers.{overhead_frames, page_at, peeked};
ghost use Rattle.vm_host.specs.World.{first_world, guest_at, with_phase, Conserves, FailsFrom};

use crate::boundary::Boundary;
use crate::lines::Lines;
use crate::parts::Parts;
use crate::phase::Phase;
use crate::stages::bound;
use std::alloc::Global;
use std::marker::Model;
use std::thread::Threads;
use vm_admission::Books;
use vm_domains::{Domains, MachineSpec, Names};
use vm_frames::PAGE_BYTES;
use vm_plan::State;
use vm_pool::{Gate, GuestView, PageRead, Pool, Shelf};

/// Why a host did not go on. It is looked at in this order: `Failed`, then `Memory`.
#[derive(Clone, Copy, Debug, PartialEq, Eq)]
pub enum HostError {
    /// Memory for the host itself was refused.
    Memory,
    /// Memory was refused in an earlier boundary.
    Failed,
}

/// A machine, its domains, and the guests that run. It has to be closed, since the guests hold the machine's frames.
///
/// A clause sees it as a `World`: plain data without frames. A position is the place of a domain in the order in which they
/// were added, counted from 0.
pub struct Host {
    parts: Parts,
    books: Books,
}

impl Model for Host {
    ghost use Rattle.vm_host.specs.World.{World};
    ghost use Rattle.vm_host.specs.Parts.{world_of, IsTied};

    ghost Value = { World };

    ghost view = { λ h. world_of h.parts };

    ghost invariant = { λ h. IsTied h.parts h.books };
}

impl Host {
    /// A host before its first boundary: no guest runs, all frames are free, and the state is `High`. Where memory is refused,
    /// the domains come back.
    pub fn new(alloc: Global, spec: MachineSpec, domains: Domains) -> Result<Host, Domains>
        ensures first { IfOk result (λ host. host ≡ first_world spec domains) }
        ensures back { IfErr result (λ back. back ≡ domains) }
    {
        Host::with_shelf(alloc, spec, domains, Shelf::new(alloc))
    }

    /// The same with the rooms that guests of other hosts left, for guests of this one to start in. Where memory is refused, they are
    /// let go.
    pub fn with_shelf(
        alloc: Global,
        spec: MachineSpec,
        domains: Domains,
        shelf: Shelf,
    ) -> Result<Host, Domains>
        ensures first { IfOk result (λ host. host ≡ first_world spec domains) }
        ensures back { IfErr result (λ back. back ≡ domains) }
    {
        let (names, specs) = domains.into_parts();
        match Pool::with_shelf(alloc, spec.frames, spec.overhead, specs, shelf) {
            Ok(pool) => Ok(Host {
                parts: first_parts(spec, names, pool),
                books: Books::new(spec.frames, spec.swap, spec.overhead),
            }),
            Err(specs) => Err(Domains::from_parts(names, specs)),
        }
    }

    /// What comes before an epoch, in this order:
    ///
    /// - The balloon device of each running guest is served (OASIS VIRTIO 1.2, section 5.5.6).
    /// - Each running guest gives back the spare frames above its target.
    /// - The lines are obeyed in order. A refused one changes nothing.
    /// - The state of memory is found from the free frames (Waldspurger, OSDI 2002, section 6.3).
    /// - Below `High` targets fall, each time that of the guest above its minimum whose adjusted ratio of shares to pages is
    ///   least (min-funding revocation, sections 5.1 and 5.2), until the goal is met or no guest is above its minimum.
    /// - Guests give up frames above their targets (paging, section 6.3), spares first.
    /// - Targets rise for guests that wait for pages.
    /// - In `High` targets fall for guests that would pay more (rebalancing, section 6.3), each time that of the guest above its minimum
    ///   and above what it uses whose adjusted ratio is least. What their balloons return is free at later boundaries.
    /// - Each running guest gets its orders, which end the reads of the last epoch. In `Low`, one above its target is blocked.
    ///
    /// It tells what became of each line, and what it did.
    ///
    /// The commands are `start`, `destroy`, `setmem`, `memtune --min-guarantee` and `dommemstat` of `virsh`, and `memshares`.
    /// A line is read first (`BadLine`, `BadSize`); then come the refusals `NoSuchDomain`, `AlreadyRunning`, `NotRunning`,
    /// `BelowMinimum`, `AboveMaximum`, `NoMemory` and `NoSwap`, as far as the command has them. The last two come exactly where
    /// the machine couldn't cover all minimums with their overhead, or its swap area the rest of each guest (section 6.2): a
    /// guest that was admitted always gets its minimum, for which others give up what they hold above their targets, and then
    /// lose pages of them as above.
    ///
    /// `Failed` comes exactly from a host that has failed, which stays as it is. `Memory` comes only where there is a domain or a
    /// line. It leaves a failed host: that after some of the lines, from the first one on, each of them obeyed as a whole, and with
    /// nothing done that comes after the lines. Its machine and its domains are as before, and its frames add up.
    pub fn boundary(&mut self, alloc: Global, lines: &Lines) -> Result<Boundary, HostError>
        ensures done { OnOk result (self.new ≡ past_boundary self.old lines.now) }
        ensures told { IfOk result (λ told. told ≡ boundary_of self.old lines.now) }
        ensures ready { OnOk result (self.new.phase ≡ Ready) }
        ensures failed { (result ≡ Err HasFailed) ↔ (self.old.phase ≡ Failed) }
        ensures unchanged { result ≡ Err HasFailed → self.new ≡ self.old }
        ensures memory { result ≡ Err NoMemory → FailsAfterSome self.old lines.now self.new }
        ensures wanted { result ≡ Err NoMemory → (0 < length self.old.names) ⊎ (0 < length lines.now) }
        ensures kept { result ≡ Err NoMemory → FailsFrom self.old self.new }
        ensures conserves { Conserves self.new }

        // What it is for.
        ensures good { OnOk result (EachGuest IsGood self.new.pool) }
        ensures fair { OnOk result (IsFairBoundary (policy_of self.old.machine) self.old lines.now) }
        ensures rebalanced { OnOk result (IsFairRebalancing (policy_of self.old.machine) self.old lines.now) }
    {
        if self.parts.phase == Phase::Failed {
            return Err(HostError::Failed);
        }
        match bound(alloc, &mut self.parts, &mut self.books, lines.as_slice()) {
            Ok(told) => Ok(told),
            Err(_) => {
                fail(&mut self.parts);
                Err(HostError::Memory)
            }
        }
    }

    /// Each running guest runs its epoch, on at most `workers` threads, the caller's among them. What comes of it is the same as
    /// if they ran in the order of the domains. Running guests are numbered in that order, from 0; a thread enters the gate with a
    /// guest's number before it runs the guest, and leaves it after. Each number passes the gate once, and the numbers of each thread
    /// rise.
    ///
    /// It asks for a boundary since the last epoch, or for a host that has failed, which `ready` tells. `Failed` comes exactly from
    /// a host that has failed. `Memory` comes before any guest runs its epoch, and only where there are guests that run. Both leave the
    /// host as it is, so that after `Memory` the epoch may be asked for again.
    pub fn epoch<R: Threads + Sync, G: Gate + Sync>(
        &mut self,
        rt: &R,
        alloc: Global,
        gate: &G,
        workers: u32,
    ) -> Result<(), HostError>
        requires workers { (0 < workers) × (workers ≤ 64) }
        requires ready { self.old.phase ≢ Waiting }
        ensures done { OnOk result (self.new ≡ after_epoch self.old) }
        ensures failed { (result ≡ Err HasFailed) ↔ (self.old.phase ≡ Failed) }
        ensures unchanged { OnErr result (self.new ≡ self.old) }
        ensures memory { result ≡ Err NoMemory → 0 < running_count self.old.pool.guests }
        ensures conserves { Conserves self.new }
        ensures good { OnOk result (EachGuest IsGood self.new.pool) }
        ensures passed { OnOk result (PassedOnce G.passed workers (running_count self.old.pool.guests)) }
    {
        if self.parts.phase == Phase::Failed {
            return Err(HostError::Failed);
        }
        if self.parts.pool.epoch(rt, alloc, gate, workers).is_err() {
            return Err(HostError::Memory);
        }
        self.parts.phase = Phase::Waiting;
        Ok(())
    }

    /// The same on the caller's thread alone, which needs no runtime: running guests run their epochs in the order of the domains, and
    /// pass the gate in that order.
    ///
    /// It asks for what [`Host::epoch`] asks for, and fails as that does.
    pub fn epoch_alone<G: Gate>(&mut self, gate: &G) -> Result<(), HostError>
        requires ready { self.old.phase ≢ Waiting }
        ensures done { OnOk result (self.new ≡ after_epoch self.old) }
        ensures failed { (result ≡ Err HasFailed) ↔ (self.old.phase ≡ Failed) }
        ensures unchanged { OnErr result (self.new ≡ self.old) }
        ensures memory { result ≡ Err NoMemory → 0 < running_count self.old.pool.guests }
        ensures conserves { Conserves self.new }
        ensures good { OnOk result (EachGuest IsGood self.new.pool) }
        ensures passed { OnOk result (PassedOnce G.passed 1 (running_count self.old.pool.guests)) }
    {
        if self.parts.phase == Phase::Failed {
            return Err(HostError::Failed);
        }
        if self.parts.pool.epoch_alone(gate).is_err() {
            return Err(HostError::Memory);
        }
        self.parts.phase = Phase::Waiting;
        Ok(())
    }

    /// Whether an epoch may be asked for: there was a boundary since the last one, or the host has failed.
    pub fn ready(&self) -> bool
        ensures { IsTrue result ↔ (self.now.phase ≢ Waiting) }
    {
        self.parts.phase != Phase::Waiting
    }

    /// How much memory is free, in four degrees (Waldspurger, OSDI 2002, section 6.3).
    pub fn state(&self) -> State
        ensures { result ≡ self.now.state }
    {
        self.parts.state
    }

    /// How many frames are free. With those that the guests hold and those in overhead they add up to the machine, always.
    pub fn free(&self) -> u32
        ensures free { result ≡ self.now.pool.free }
        ensures conserves { Conserves self.now }
    {
        self.parts.pool.free()
    }

    /// How many frames are set aside for the tables that the host keeps of its running guests (Waldspurger, OSDI 2002, section 6.2).
    pub fn overhead_frames(&self) -> u32
        ensures { result ≡ overhead_frames self.now }
    {
        self.parts.pool.overhead_frames()
    }

    /// How the machine is set up.
    pub fn machine(&self) -> MachineSpec
        ensures { result ≡ self.now.machine }
    {
        self.parts.spec
    }

    /// How many frames the machine has.
    pub fn frames(&self) -> u32
        ensures { result ≡ self.now.machine.frames }
    {
        self.parts.spec.frames
    }

    /// How many domains there are, at most 256, whether they run or not.
    pub fn len(&self) -> usize
        ensures names { result ≡ length self.now.names }
        ensures few { result ≤ 256 }
    {
        self.parts.names.len()
    }

    /// The name of the domain at a position, if there is one.
    pub fn name(&self, position: usize) -> Option<&str>
        ensures { option_map (λ s. s.now) result ≡ slice_get self.now.names position }
    {
        self.parts.names.get(position)
    }

    /// The position of the domain with a name, if there is one.
    pub fn position(&self, name: &str) -> Option<usize>
        ensures { result ≡ place_of name.now self.now.names }
    {
        self.parts.names.position(name)
    }

    /// What is shown of the guest at a position, if one runs there: its sizes in pages and frames, and its counts (in part what
    /// `virsh dommemstat` shows).
    pub fn view(&self, position: usize) -> Option<GuestView>
        ensures { result ≡ option_map view_of (guest_at self.now position) }
    {
        self.parts.pool.view(position)
    }

    /// The reads of the last epoch of the guest at a position, in order, if one runs there. After a boundary there are none.
    pub fn reads(&self, position: usize) -> Option<&[PageRead]>
        ensures { option_map (λ s. s.now) result ≡ option_map (λ g. g.reads) (guest_at self.now position) }
    {
        self.parts.pool.reads(position)
    }

    /// The page on which the guest at a position stalled in the last epoch, if one runs there and did. After a boundary there is none.
    pub fn stalled(&self, position: usize) -> Option<u32>
        ensures { result ≡ stalled_of (guest_at self.now position) }
    {
        self.parts.pool.stalled(position)
    }

    /// How many steps of its trace the guest at a position has not executed, if one runs there.
    pub fn steps_left(&self, position: usize) -> Option<u64>
        ensures { result ≡ option_map steps_left (guest_at self.now position) }
    {
        self.parts.pool.steps_left(position)
    }

    /// Copies a page of 4096 bytes of guest memory, wherever it is. It answers false, and copies nothing, exactly where no
    /// running guest has the name, the page is not below its size, or the host has failed.
    pub fn peek(&self, name: &str, page: u32, bytes: &mut [u8; PAGE_BYTES]) -> bool
        ensures { Peeks (peeked self.now name.now page) result bytes.old bytes.new }
    {
        match self.parts.phase {
            Phase::Failed => false,
            Phase::Waiting => peek_at(&self.parts, name, page, bytes),
            Phase::Ready => peek_at(&self.parts, name, page, bytes),
        }
    }

    /// Ends a host, a failed one too. Its guests are stopped, all frames go back to the machine, which can be closed only then, and
    /// the domains come back in order, as they were set up. It takes no memory.
    pub fn close(self) -> Domains
        ensures { result ≡ domains_of self.names self.pool.configs }
    {
        let (domains, shelf) = self.close_keeping();
        drop(shelf);
        domains
    }

    /// Ends a host as [`Host::close`] does, and keeps the rooms of its guests for another one ([`Host::with_shelf`]). It takes no memory.
    pub fn close_keeping(self) -> (Domains, Shelf)
        ensures { result.0 ≡ domains_of self.names self.pool.configs }
    {
        let Host { parts, books: _ } = self;
        let Parts {
            spec: _,
            names,
            pool,
            state: _,
            phase: _,
        } = parts;
        let (specs, shelf) = pool.close_keeping();
        (Domains::from_parts(names, specs), shelf)
    }
}

// A host before its first boundary.
fn first_parts(spec: MachineSpec, names: Names, pool: Pool) -> Parts
    ensures { world_of result ≡ record { machine = spec; names = names; pool = pool; state = High; phase = Waiting } }
{
    Parts {
        spec,
        names,
        pool,
        state: State::High,
        phase: Phase::Waiting,
    }
}

// Copies a page of the guest with a name, if there is one.
fn peek_at(parts: &Parts, name: &str, page: u32, bytes: &mut [u8; PAGE_BYTES]) -> bool
    ensures { Peeks (page_at (world_of parts.now) (place_of name.now parts.now.names) page) result bytes.old bytes.new }
{
    match parts.names.position(name) {
        Some(position) => parts.pool.peek(position, page, bytes),
        None => false,
    }
}

// Memory was refused in a boundary. However many lines were obeyed, no frame is lost.
fn fail(parts: &mut Parts)
    ensures failed { world_of parts.new ≡ with_phase (world_of parts.old) Failed }
    ensures adds_up { PoolConserves parts.new.pool }
{
    prove!(parts.pool.free() <= parts.pool.frames());
    parts.phase = Phase::Failed;
}
