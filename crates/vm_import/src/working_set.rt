// The working set of an interval.
ghost use Rattle.std.specs.Prelude.{◌≡◌, ◌+◌, ◌<◌, ◌≤◌, ◌^◌, [], true, length, All, IsTrue, OnOk, OnErr};
ghost use Rattle.vm_import.specs.Kept.{rank_of};
ghost use Rattle.vm_import.specs.SetSteps.{AddsFront, is_covered, touched, touched_all};
ghost use Rattle.vm_import.specs.Touches.{touches_by, touches_of, writes_of};
ghost use Rattle.vm_import.specs.WorkingSets.{working_set, Begins, Extends, GoesOn, GoesOnByFront, IsWithin};

use crate::marks::{Mark, clear_marks, make_room};
use crate::recent::RecentPages;
use crate::touch::{Effect, PAGE_BYTES, RankedTouch, Touch};
use indexmap::IndexSet;
use std::alloc::{AllocError, Global};
use std::marker::Model;

/// What the accesses of an interval touch, each page by its rank.
///
/// A clause sees the pages in the order of their first touches, over all intervals, and the touches of this interval that no earlier
/// one of it covers: an earlier touch of the same page that writes, or that reads as the later one does.
#[derive(Drop)]
pub struct WorkingSet {
    pages: IndexSet<u64>,
    marks: Vec<Mark>,
    kept: Vec<RankedTouch>,
    read: RecentPages,
    written: RecentPages,
}

impl Model for WorkingSet {
    ghost use Rattle.vm_import.specs.Sound.{IsSound};
    ghost use Rattle.vm_import.specs.WorkingSets.{WorkingSetView};

    ghost Value = { WorkingSetView };

    ghost view = { λ set. record { pages = set.pages.keys; kept = set.kept.items } };

    ghost invariant = { λ set. IsSound set.pages.keys set.marks.items set.kept.items set.read set.written };
}

impl WorkingSet {
    /// The first interval begins, and no page was touched.
    pub fn new(alloc: Global) -> Self
        ensures { result ≡ working_set [] [] }
    {
        WorkingSet {
            pages: IndexSet::new(alloc),
            marks: Vec::new(alloc),
            kept: Vec::new(alloc),
            read: RecentPages::new(),
            written: RecentPages::new(),
        }
    }

    /// Adds an access to `size` bytes from `address` on.
    ///
    /// It touches the pages that its bytes are in, in rising order; [`Effect::Modify`] reads all of them before it writes the first.
    /// Memory is refused only for a page that is new, or for a touch that is kept; then the interval has the touches before that one,
    /// and no more.
    #[inline]
    pub fn access(&mut self, effect: Effect, address: u64, size: u16) -> Result<(), AllocError>
        requires some { 1 ≤ size }
        requires few { size ≤ 1024 }
        requires addressed { address + size ≤ 2 ^ 64 }
        requires ranks { length self.old.pages + 4 ≤ 2 ^ 32 }
        ensures ok { OnOk result (GoesOn self.old self.new (touches_of effect address size)) }
        ensures err { OnErr result (GoesOnByFront self.old self.new (touches_of effect address size)) }

        // What was there stays, in any case.
        ensures pages { Extends self.old.pages self.new.pages }
        ensures kept { Extends self.old.kept self.new.kept }
    {
        if self.is_recent(effect, address, size) {
            return Ok(());
        }
        self.look_up(effect, address, size)
    }

    // Whether such touches of the page are known to be covered.
    #[inline(always)]
    fn knows(&self, effect: Effect, page: u64) -> bool
        requires { page < 2 ^ 52 }
        ensures covered { IsTrue result → is_covered self.now.kept (rank_of self.now.pages page) (writes_of effect) ≡ true }
        ensures within { All (IsWithin (length self.now.pages)) self.now.kept }
    {
        if effect.writes() {
            self.written.has(page)
        } else {
            self.read.has(page)
        }
    }

    // Whether the access is within a page of which such touches are known to be covered, and so changes nothing.
    #[inline(always)]
    fn is_recent(&self, effect: Effect, address: u64, size: u16) -> bool
        requires { size ≤ 1024 }
        ensures { IsTrue result → touched_all self.now (touches_of effect address size) ≡ self.now }
    {
        let is_within = address % PAGE_BYTES + u64::from(size) <= PAGE_BYTES;
        is_within && self.knows(effect, address / PAGE_BYTES)
    }

    // Adds an access, and notes its last page.
    #[inline(never)]
    fn look_up(&mut self, effect: Effect, address: u64, size: u16) -> Result<(), AllocError>
        requires some { 1 ≤ size }
        requires few { size ≤ 1024 }
        requires addressed { address + size ≤ 2 ^ 64 }
        requires ranks { length self.old.pages + 4 ≤ 2 ^ 32 }
        ensures ok { OnOk result (self.new ≡ touched_all self.old (touches_of effect address size)) }
        ensures err { OnErr result (AddsFront self.old self.new (touches_of effect address size)) }
    {
        self.touch_all(effect, address, size)?;
        let last = (address + u64::from(size - 1)) / PAGE_BYTES;
        self.read.note(last);
        if effect.writes() {
            self.written.note(last);
        }
        Ok(())
    }

    // Adds the touches of an access.
    fn touch_all(&mut self, effect: Effect, address: u64, size: u16) -> Result<(), AllocError>
        requires few { size ≤ 1024 }
        requires addressed { address + size ≤ 2 ^ 64 }
        requires ranks { length self.old.pages + 4 ≤ 2 ^ 32 }
        ensures ok { OnOk result (self.new ≡ touched_all self.old (touches_of effect address size)) }
        ensures err { OnErr result (AddsFront self.old self.new (touches_of effect address size)) }
    {
        match effect {
            Effect::Read => self.touch_by(false, address, size),
            Effect::Write => self.touch_by(true, address, size),
            Effect::Modify => {
                self.touch_by(false, address, size)?;
                self.touch_by(true, address, size)
            }
        }
    }

    // Adds the touches of an access that reads, or that writes.
    fn touch_by(&mut self, writes: bool, address: u64, size: u16) -> Result<(), AllocError>
        requires few { size ≤ 1024 }
        requires addressed { address + size ≤ 2 ^ 64 }
        requires ranks { length self.old.pages + 2 ≤ 2 ^ 32 }
        ensures ok { OnOk result (self.new ≡ touched_all self.old (touches_by writes address size)) }
        ensures err { OnErr result (AddsFront self.old self.new (touches_by writes address size)) }
        ensures pages { length self.new.pages ≤ length self.old.pages + 2 }
    {
        let page = address / PAGE_BYTES;
        let offset = (address % PAGE_BYTES) as u16;
        self.touch(Touch {
            page,
            offset,
            writes,
        })?;
        if 4096 < offset + size {
            return self.touch(Touch {
                page: page + 1,
                offset: 0,
                writes,
            });
        }
        Ok(())
    }

    // Whether a touch that was kept covers this one.
    fn covers(&self, touch: &Touch) -> bool
        ensures covered { result ≡ is_covered self.now.kept (rank_of self.now.pages touch.now.page) touch.now.writes }
        ensures within { All (IsWithin (length self.now.pages)) self.now.kept }
    {
        match self.pages.get_index_of(&touch.page) {
            Some(rank) => self.marks[rank].covers(touch.writes),
            None => false,
        }
    }

    // Adds a touch.
    fn touch(&mut self, touch: Touch) -> Result<(), AllocError>
        requires offset { touch.offset < 4096 }
        requires ranks { length self.old.pages < 2 ^ 32 }
        ensures ok { OnOk result (self.new ≡ touched self.old touch) }
        ensures err { OnErr result (self.new ≡ self.old) }
        ensures pages { length self.new.pages ≤ length self.old.pages + 1 }
    {
        if self.covers(&touch) {
            return Ok(());
        }
        self.kept.reserve(1)?;
        make_room(&mut self.marks, self.pages.len())?;
        let (rank, _) = self.pages.insert_full(touch.page)?;
        self.marks[rank] = Mark::by(touch.writes);
        self.kept.push_reserved(RankedTouch {
            rank: rank as u32,
            offset: touch.offset,
            writes: touch.writes,
        });
        Ok(())
    }

    /// The touches of this interval that no earlier one of it covers, in order.
    pub fn kept(&self) -> &[RankedTouch]
        ensures kept { result.now ≡ self.now.kept }
        ensures within { All (IsWithin (length self.now.pages)) self.now.kept }
    {
        self.kept.as_slice()
    }

    /// The number of pages touched in all intervals so far.
    pub fn page_count(&self) -> usize
        ensures { result ≡ length self.now.pages }
    {
        self.pages.len()
    }

    /// Begins another interval, in which nothing is covered yet. Takes no memory, and time for what the last interval kept.
    pub fn begin_interval(&mut self)
        ensures begins { Begins self.old self.new }
        ensures pages { self.new.pages ≡ self.old.pages }
        ensures kept { self.new.kept ≡ [] }
    {
        clear_marks(&mut self.marks, &self.kept);
        self.kept.clear();
        self.read = RecentPages::new();
        self.written = RecentPages::new();
    }
}
