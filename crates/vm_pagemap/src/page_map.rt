ghost use Rattle.std.specs.Prelude.{◌≡◌, ℕ, ◌+◌, ◌<◌, ◌≤◌, ◌↔◌, IsTrue, length, slice_range, slice_set, slice_index, unwrap_or, None, IfNone, IfSome, IfOk, OnErr};
ghost use Rattle.std.specs.FinMap as slots;
ghost use Rattle.vm_swap.specs.Area.{zero_bytes};
ghost use Rattle.vm_pages.specs.Pages.{count, members};
ghost use Rattle.vm_patches.specs.Patches.{overwritten};
ghost use Rattle.vm_pagemap.specs.PageMap.{absent_pages, page_at, place_of, bytes_of, frame_of, resident, written, IsIn, IsNotIn};
ghost use Rattle.vm_pagemap.specs.declared.page_map.Page.TheVariants.{In, Out, Absent};

use std::alloc::{AllocError, Global};
use std::marker::Model;
use vm_frames::PAGE_BYTES;
use vm_pages::{PageSet, PageTable};
use vm_patches::PatchedFrame;
use vm_swap::{PAGE_LIMIT, SwapArea};

/// Where a page of a guest is.
#[derive(Clone, Copy, Debug, PartialEq, Eq)]
pub enum Place {
    /// Nowhere: the page reads as zeros.
    Absent,
    /// In a frame.
    In,
    /// In the guest's swap area.
    Out,
}

/// A page of a guest, with its frame where it has one. This is how a contract sees a page of a [`PageMap`].
pub enum Page {
    /// Nowhere.
    Absent,
    /// In this frame.
    In(PatchedFrame),
    /// In the guest's swap area.
    Out,
}

// A frame that is under a page.
struct Held {
    page: u32,
    frame: PatchedFrame,
}

/// Where each page of a guest is, with the frames of those that are in: the pmap of Waldspurger, OSDI 2002, section 2.
///
/// A contract sees it as the list of its [`Page`]s, and each call that changes one leaves the others as they are. It owns the
/// frames, so it isn't `Drop`: [`PageMap::close`] ends it, once no page is in. No call but [`PageMap::new`] takes memory.
/// [`PageMap::resident_at`] passes over one count for each 2048 pages, and then over 32 words at most; [`PageMap::clear`] takes the
/// time of [`PageSet::clear`]; all other calls take constant time, but for the bytes that they copy, and for the block of 256 pages
/// in which a page comes in first.
///
/// Where the system gives out memory on first use, a map costs by as many frames as were in at once and by the blocks of the pages
/// that were ever in, beside two sets of pages.
pub struct PageMap {
    resident: PageSet,
    out: PageSet,
    // For each page that is in, where its frame is.
    slots: PageTable<u32>,
    // The frames of the pages that are in, in no order.
    held: Vec<Held>,
}

impl Model for PageMap {
    ghost use Rattle.std.specs.Prelude.{List};
    ghost use Rattle.vm_pagemap.specs.declared.page_map.Page.{Page};
    ghost use Rattle.vm_pagemap.specs.Kept.{pages_of, IsKept};

    ghost Value = { List Page };

    ghost view = { λ m. pages_of m.resident m.out m.slots.list m.held.items };

    ghost invariant = { IsKept };
}

impl PageMap {
    /// The map of a guest of `size` pages, all of them absent.
    ///
    /// An error says that memory was refused, which is only where there are pages.
    pub fn new(alloc: Global, size: u32) -> Result<PageMap, AllocError>
        ensures map { IfOk result (λ m. m ≡ absent_pages size) }
        ensures memory { OnErr result (0 < size) }
    {
        let resident = PageSet::new(alloc, size)?;
        let out = PageSet::new(alloc, size)?;
        let slots = PageTable::new(alloc, size, 0)?;
        let held = Vec::with_capacity(alloc, size as usize)?;
        Ok(PageMap {
            resident,
            out,
            slots,
            held,
        })
    }

    /// Where a page is.
    pub fn place(&self, page: u32) -> Place
        requires { page < length self.now }
        ensures place { result ≡ place_of (page_at self.now page) }

        ensures absent { result ≡ Place.Absent → page_at self.now page ≡ Absent }
        ensures is_in { result ≡ Place.In → IsIn (page_at self.now page) }
        ensures out { result ≡ Place.Out → page_at self.now page ≡ Out }
    {
        if self.resident.contains(page) {
            Place::In
        } else if self.out.contains(page) {
            Place::Out
        } else {
            Place::Absent
        }
    }

    /// Copies bytes of a page that is in, from `offset` on.
    pub fn read(&self, page: u32, offset: usize, bytes: &mut [u8])
        requires in_range { page < length self.now }
        requires is_in { IsIn (page_at self.now page) }
        requires within { offset + length bytes.old ≤ PAGE_BYTES }
        ensures { bytes.new ≡ slice_range (bytes_of (page_at self.now page)) offset (offset + length bytes.old) }
    {
        let slot = self.slots.get(page) as usize;
        self.held[slot].frame.read(offset, bytes);
    }

    /// Writes bytes to a page that is in, from `offset` on. Its other bytes stay, and it keeps its frame.
    pub fn write(&mut self, page: u32, offset: usize, bytes: &[u8])
        requires in_range { page < length self.old }
        requires is_in { IsIn (page_at self.old page) }
        requires within { offset + length bytes.now ≤ PAGE_BYTES }
        ensures { self.new ≡ slice_set self.old page (written (page_at self.old page) offset bytes.now) }
    {
        let slot = self.slots.get(page) as usize;
        write_held(&mut self.held[slot], offset, bytes);
    }

    /// Puts a page into a frame, whose bytes it has then.
    pub fn put_frame(&mut self, page: u32, frame: PatchedFrame)
        requires in_range { page < length self.old }
        requires not_in { IsNotIn (page_at self.old page) }
        ensures { self.new ≡ slice_set self.old page (In frame) }
    {
        let slot = self.held.len() as u32;
        self.resident.insert(page);
        let _was_out = self.out.remove(page);
        self.slots.set(page, slot);
        self.held.push_reserved(Held { page, frame });
    }

    /// Takes a page's frame from it, with its bytes. The page is absent then.
    pub fn remove_frame(&mut self, page: u32) -> PatchedFrame
        requires in_range { page < length self.old }
        requires is_in { IsIn (page_at self.old page) }
        ensures frame { page_at self.old page ≡ In result }
        ensures absent { self.new ≡ slice_set self.old page Absent }
    {
        let slot = self.slots.get(page);
        // The last frame takes the place of the page's, which may be the last itself.
        let moved = self.held[self.held.len() - 1].page;
        self.slots.set(moved, slot);
        self.resident.remove(page);
        let Held { page: _, frame } = self.held.swap_remove(slot as usize);
        frame
    }

    /// Takes the frame of some page that is in, with its bytes, and says which page that is, which is absent then. It is none where
    /// no page is in.
    pub fn take_frame(&mut self) -> Option<(u32, PatchedFrame)>
        ensures none { IfNone result (count (resident self.old) ≡ 0) }
        ensures unchanged { IfNone result (self.new ≡ self.old) }
        ensures in_range { IfSome result (λ taken. taken.0 < length self.old) }
        ensures frame { IfSome result (λ taken. page_at self.old taken.0 ≡ In taken.1) }
        ensures absent { IfSome result (λ taken. self.new ≡ slice_set self.old taken.0 Absent) }
    {
        let Held { page, frame } = self.held.pop()?;
        self.resident.remove(page);
        Some((page, frame))
    }

    /// Moves a page that is in to the swap area, and puts one that is not in into its frame, with its bytes from there or, where it
    /// isn't there, with zeros. The frame stays where it lies.
    pub fn exchange(&mut self, page: u32, victim: u32, area: &mut SwapArea)
        requires in_range { page < length self.old }
        requires not_in { IsNotIn (page_at self.old page) }
        requires victim_in_range { victim < length self.old }
        requires victim_is_in { IsIn (page_at self.old victim) }
        requires few { length self.old ≤ PAGE_LIMIT }
        requires absent { slots.get area.old.pages victim ≡ None }
        requires room { slots.len (slots.remove area.old.pages page) < area.old.capacity }
        ensures area { area.new ≡ record area.old { pages = slots.insert (slots.remove area.old.pages page) victim (bytes_of (page_at self.old victim)) } }
        ensures pages { self.new ≡ slice_set (slice_set self.old victim Out) page (In (record (frame_of (page_at self.old victim)) { bytes = unwrap_or (slots.get area.old.pages page) zero_bytes })) }
    {
        let slot = self.slots.get(victim);
        self.resident.remove(victim);
        self.out.insert(victim);
        self.resident.insert(page);
        let _page_was_out = self.out.remove(page);
        self.slots.set(page, slot);
        trade_held(&mut self.held[slot as usize], page, victim, area);
    }

    /// Says that a page without a frame is in the swap area.
    pub fn mark_out(&mut self, page: u32)
        requires in_range { page < length self.old }
        requires not_in { IsNotIn (page_at self.old page) }
        ensures { self.new ≡ slice_set self.old page Out }
    {
        self.out.insert(page);
    }

    /// Says that a page without a frame is nowhere.
    pub fn mark_absent(&mut self, page: u32)
        requires in_range { page < length self.old }
        requires not_in { IsNotIn (page_at self.old page) }
        ensures { self.new ≡ slice_set self.old page Absent }
    {
        self.out.remove(page);
    }

    /// Whether all pages are absent.
    pub fn is_absent(&self) -> bool
        ensures { IsTrue result ↔ (self.now ≡ absent_pages (length self.now)) }
    {
        self.resident.is_empty() && self.out.is_empty()
    }

    /// How many pages are in.
    pub fn resident(&self) -> u32
        ensures { result ≡ count (resident self.now) }
    {
        self.resident.len()
    }

    /// The k-th of the pages that are in, in rising order and counted from 0, whatever the order in which they came in.
    pub fn resident_at(&self, k: u32) -> u32
        requires { k < count (resident self.now) }
        ensures listed { result ≡ slice_index (members (resident self.now)) k }
        ensures in_range { result < length self.now }
        ensures is_in { IsIn (page_at self.now result) }
    {
        self.resident.nth(k)
    }

    /// Makes each page of a map with no page in absent, for a guest of the same size to have them.
    pub fn clear(&mut self)
        requires { count (resident self.old) ≡ 0 }
        ensures { self.new ≡ absent_pages (length self.old) }
    {
        self.out.clear();
    }

    /// Ends a map with no page in.
    pub fn close(self)
        requires { count (resident self) ≡ 0 }
    {
        let PageMap {
            resident: _,
            out: _,
            slots: _,
            held,
        } = self;
        held.destroy_empty();
    }
}

// Gives the frame to another page, whose bytes come from the swap area. Those of the page that was in it go there.
fn trade_held(held: &mut Held, page: u32, victim: u32, area: &mut SwapArea)
    requires in_range { victim < PAGE_LIMIT }
    requires absent { slots.get area.old.pages victim ≡ None }
    requires room { slots.len (slots.remove area.old.pages page) < area.old.capacity }
    ensures page { held.new.page ≡ page }
    ensures frame { held.new.frame ≡ record held.old.frame { bytes = unwrap_or (slots.get area.old.pages page) zero_bytes } }
    ensures area { area.new ≡ record area.old { pages = slots.insert (slots.remove area.old.pages page) victim held.old.frame.bytes } }
{
    held.page = page;
    area.trade(page, victim, &mut held.frame);
}

// Writes bytes to the page of a frame.
fn write_held(held: &mut Held, offset: usize, bytes: &[u8])
    requires { offset + length bytes.now ≤ PAGE_BYTES }
    ensures page { held.new.page ≡ held.old.page }
    ensures frame { held.new.frame ≡ record held.old.frame { bytes = overwritten held.old.frame.bytes offset bytes.now } }
{
    held.frame.write(offset, bytes);
}
