ghost use Rattle.std.specs.Prelude.{◌≡◌, true, ◌+◌, ◌^◌, ◌<◌, ◌≤◌, length, min, Some, None, IfSome, IfNone, IfOk, OnOk, OnErr, unwrap_or};
ghost use Rattle.std.specs.Bool.{OnTrue, OnFalse};
ghost use Rattle.std.specs.FinMap as map;
ghost use Rattle.vm_patches.specs.Patches.{patched};
ghost use Rattle.vm_swap.specs.Area.{zero_bytes};
ghost use Rattle.vm_swap.specs.Merged.{merged};

use crate::index::PAGE_LIMIT;
use crate::table::{Table, roomy, trade_bytes};
use std::alloc::{AllocError, Global};
use std::marker::Model;
use vm_frames::{Frame, PAGE_BYTES};
use vm_patches::{Log, PatchedFrame};

const ZEROS: [u8; PAGE_BYTES] = [0; PAGE_BYTES];

/// The swapped pages of one guest: a finite map from page numbers to the 4096 bytes of each, with room for
/// `capacity` pages (hypervisor swapping, Waldspurger, OSDI 2002, section 3.1). Its store is memory.
///
/// Clauses read it as `Area` of `specs/Area.antt`.
///
/// All room is reserved when the area is made or grows, at most for the [`PAGE_LIMIT`] pages that a guest can
/// have, so no other call takes memory. A slot is written first when a page needs it: a system that gives out
/// memory on first use gives none for slots that were never needed. Nor for most of the numbers that find the slots: they lie in blocks
/// of 256 pages, 1024 bytes each, and a block is written when a page of it goes out first, one block where that is as a log and one
/// where it is whole. A page that goes out of its frame as a log stays a log until it comes in, so that `save`, `load` and `trade`
/// touch no page of memory for it.
#[derive(Drop)]
pub struct SwapArea {
    capacity: u32,
    // The pages that are out, each in one of the two: with all its bytes, or as what was written to a page of zeros. Each of the
    // two has room for all of them, since nobody knows how many will be of few bytes.
    whole: Table<[u8; PAGE_BYTES]>,
    few: Table<Log>,
}

impl Model for SwapArea {
    ghost use Rattle.vm_swap.specs.Area.{Area, area_code};

    ghost Value = { Area };

    ghost coded = { area_code };

    ghost use Rattle.vm_swap.specs.Merged.{merged, IsParted};

    ghost view = { λ a. record { pages = merged a.whole.values a.few.values; capacity = a.capacity } };

    ghost invariant = { λ a. IsParted a.capacity a.whole a.few };
}

impl SwapArea {
    /// An empty area with room for `slots` pages.
    ///
    /// An `Err` means that its memory was refused.
    pub fn new(alloc: Global, slots: u32) -> Result<Self, AllocError>
        ensures { IfOk result (λ area. area ≡ record { pages = map.empty; capacity = slots }) }
    {
        Ok(SwapArea {
            capacity: slots,
            whole: Table::new(alloc, usable(slots))?,
            few: Table::new(alloc, roomy(usable(slots)))?,
        })
    }

    /// How many pages are out.
    pub fn len(&self) -> u32
        ensures { result ≡ map.len self.now.pages }
    {
        self.whole.len() + self.few.len()
    }

    /// How many pages there is room for.
    pub fn capacity(&self) -> u32
        ensures { result ≡ self.now.capacity }
    {
        self.capacity
    }

    /// Makes room for `more` pages beside those that there is room for.
    ///
    /// An `Err` means that its memory was refused, and changes nothing. It comes only for some pages more, below the
    /// [`PAGE_LIMIT`] pages that a guest can have.
    pub fn grow(&mut self, more: u32) -> Result<(), AllocError>
        requires { self.old.capacity + more < 2 ^ 32 }
        ensures ok { OnOk result (self.new ≡ record self.old { capacity = self.old.capacity + more }) }
        ensures err { OnErr result (self.new ≡ self.old) }
        ensures memory { OnErr result (0 < more) }
        ensures below { OnErr result (self.old.capacity < PAGE_LIMIT) }
    {
        let capacity = self.capacity + more;
        self.whole.reserve(usable(capacity))?;
        self.few.reserve_roomy(usable(capacity))?;
        self.capacity = capacity;
        Ok(())
    }

    /// Leaves room for no more than so many pages. The memory behind it stays, for [`SwapArea::grow`].
    pub fn lower_to(&mut self, slots: u32)
        requires fewer { slots ≤ self.old.capacity }
        requires room { map.len self.old.pages ≤ slots }
        ensures { self.new ≡ record self.old { capacity = slots } }
    {
        self.capacity = slots;
    }

    /// Swaps a page out: copies its bytes into the area, where it must not be yet.
    pub fn put(&mut self, page: u32, bytes: &[u8])
        requires in_range { page < PAGE_LIMIT }
        requires whole { length bytes.now ≡ PAGE_BYTES }
        requires absent { map.get self.old.pages page ≡ None }
        requires room { map.len self.old.pages < self.old.capacity }
        ensures { self.new ≡ record self.old { pages = map.insert self.old.pages page bytes.now } }
    {
        match <[u8; PAGE_BYTES]>::try_from(bytes) {
            Ok(bytes) => self.put_whole(page, bytes),
            Err(_) => unreachable!(),
        }
    }

    /// Swaps a page out, and hands the frame back with whatever bytes.
    pub fn save(&mut self, page: u32, mut frame: PatchedFrame) -> Frame
        requires in_range { page < PAGE_LIMIT }
        requires absent { map.get self.old.pages page ≡ None }
        requires room { map.len self.old.pages < self.old.capacity }
        ensures area { self.new ≡ record self.old { pages = map.insert self.old.pages page frame.bytes } }
        ensures frame { result.number ≡ frame.number }
    {
        match frame.take_log() {
            Some(log) => {
                self.put_few(page, log);
                frame.release()
            }
            None => {
                let frame = frame.into_frame();
                self.put_whole(page, *frame.bytes());
                frame
            }
        }
    }

    /// Swaps a page in: the frame gets its bytes, or zeros where the page is not there, and the page gives up its slot.
    pub fn load(&mut self, page: u32, frame: &mut PatchedFrame)
        ensures area { self.new ≡ record self.old { pages = map.remove self.old.pages page } }
        ensures frame { frame.new ≡ record frame.old { bytes = unwrap_or (map.get self.old.pages page) zero_bytes } }
    {
        bring_in(&mut self.whole, &mut self.few, page, frame);
    }

    /// Swaps a page in and another one out of that frame, into its slot where it has one.
    pub fn trade(&mut self, page: u32, other: u32, frame: &mut PatchedFrame)
        requires in_range { other < PAGE_LIMIT }
        requires absent { map.get self.old.pages other ≡ None }
        requires room { map.len (map.remove self.old.pages page) < self.old.capacity }
        ensures area { self.new ≡ record self.old { pages = map.insert (map.remove self.old.pages page) other frame.old.bytes } }
        ensures frame { frame.new ≡ record frame.old { bytes = unwrap_or (map.get self.old.pages page) zero_bytes } }
    {
        match frame.take_log() {
            Some(log) => self.trade_few(page, other, log, frame),
            None => self.trade_whole(page, other, frame),
        }
    }

    /// Copies the bytes of a page into the buffer, and answers whether the page is there. The area keeps it.
    ///
    /// Where it is not there, the buffer stays as it was.
    pub fn get_into(&self, page: u32, buffer: &mut [u8]) -> bool
        requires { length buffer.old ≡ PAGE_BYTES }
        ensures found { result ≡ map.contains_key self.now.pages page }
        ensures bytes { IfSome (map.get self.now.pages page) (λ bytes. buffer.new ≡ bytes) }
        ensures absent { IfNone (map.get self.now.pages page) (buffer.new ≡ buffer.old) }
    {
        read_page(&self.whole, &self.few, page, buffer)
    }

    /// Writes zeros over the bytes of a page that was freed while it was out, and answers whether it is there.
    pub fn zero_page(&mut self, page: u32) -> bool
        ensures found { result ≡ map.contains_key self.old.pages page }
        ensures zeroed { OnTrue result (self.new ≡ record self.old { pages = map.insert self.old.pages page zero_bytes }) }
        ensures absent { OnFalse result (self.new ≡ self.old) }
    {
        if self.few.set(page, Log::new()) {
            true
        } else {
            zero_whole(&mut self.whole, page)
        }
    }

    /// Gives up the slot of a page, and answers whether the page was there.
    pub fn drop_page(&mut self, page: u32) -> bool
        ensures found { result ≡ map.contains_key self.old.pages page }
        ensures dropped { OnTrue result (self.new ≡ record self.old { pages = map.remove self.old.pages page }) }
        ensures absent { OnFalse result (self.new ≡ self.old) }
    {
        let was_whole = self.whole.discard(page);
        let was_few = self.few.discard(page);
        was_whole || was_few
    }

    /// Gives up the slots of all pages, for a guest that begins anew in the same room. Its time goes with the pages that are out, and
    /// not with those of the guest.
    pub fn empty(&mut self)
        ensures { self.new ≡ record self.old { pages = map.empty } }
    {
        self.whole.empty();
        self.few.empty();
    }

    // Swaps out a page as all its bytes.
    fn put_whole(&mut self, page: u32, bytes: [u8; PAGE_BYTES])
        requires in_range { page < PAGE_LIMIT }
        requires absent { map.get self.old.pages page ≡ None }
        requires room { map.len self.old.pages < self.old.capacity }
        ensures { self.new ≡ record self.old { pages = map.insert self.old.pages page bytes } }
    {
        self.whole.insert(page, bytes);
    }

    // Swaps out a page as what was written to zeros.
    fn put_few(&mut self, page: u32, log: Log)
        requires in_range { page < PAGE_LIMIT }
        requires absent { map.get self.old.pages page ≡ None }
        requires room { map.len self.old.pages < self.old.capacity }
        ensures { self.new ≡ record self.old { pages = map.insert self.old.pages page (patched zero_bytes log) } }
    {
        self.few.insert(page, log);
    }

    // The trade, where the page that goes out does so as what was written to zeros.
    fn trade_few(&mut self, page: u32, other: u32, log: Log, frame: &mut PatchedFrame)
        requires in_range { other < PAGE_LIMIT }
        requires absent { map.get self.old.pages other ≡ None }
        requires room { map.len (map.remove self.old.pages page) < self.old.capacity }
        ensures area { self.new ≡ record self.old { pages = map.insert (map.remove self.old.pages page) other (patched zero_bytes log) } }
        ensures frame { frame.new ≡ record frame.old { bytes = unwrap_or (map.get self.old.pages page) zero_bytes } }
    {
        if let Some(log) = self.trade_logs(page, other, log, frame) {
            self.load(page, frame);
            self.put_few(other, log);
        }
    }

    // The trade, where the page that comes in is kept as what was written to zeros too: then it gives its slot to the other. Else nothing
    // changes, and the log comes back.
    fn trade_logs(
        &mut self,
        page: u32,
        other: u32,
        log: Log,
        frame: &mut PatchedFrame,
    ) -> Option<Log>
        requires in_range { other < PAGE_LIMIT }
        requires absent { map.get self.old.pages other ≡ None }
        ensures area { IfNone result (self.new ≡ record self.old { pages = map.insert (map.remove self.old.pages page) other (patched zero_bytes log) }) }
        ensures frame { IfNone result (frame.new ≡ record frame.old { bytes = unwrap_or (map.get self.old.pages page) zero_bytes }) }
        ensures back { IfSome result (λ back. back ≡ log) }
        ensures same { IfSome result (λ back. self.new ≡ self.old) }
        ensures same_frame { IfSome result (λ back. frame.new ≡ frame.old) }
    {
        match self.few.hand_over(page, other, log) {
            Ok(log) => {
                frame.set_log(log);
                None
            }
            Err(log) => Some(log),
        }
    }

    // The trade, where the page that goes out does so as all its bytes.
    fn trade_whole(&mut self, page: u32, other: u32, frame: &mut PatchedFrame)
        requires in_range { other < PAGE_LIMIT }
        requires absent { map.get self.old.pages other ≡ None }
        requires room { map.len (map.remove self.old.pages page) < self.old.capacity }
        ensures area { self.new ≡ record self.old { pages = map.insert (map.remove self.old.pages page) other frame.old.bytes } }
        ensures frame { frame.new ≡ record frame.old { bytes = unwrap_or (map.get self.old.pages page) zero_bytes } }
    {
        if !self.trade_in_place(page, other, frame) {
            let mut bytes = ZEROS;
            frame.exchange(&mut bytes);
            self.load(page, frame);
            self.put_whole(other, bytes);
        }
    }

    // The trade, where the page that comes in is kept as all its bytes too: then those of the two change places. Else it does nothing
    // and answers false.
    fn trade_in_place(&mut self, page: u32, other: u32, frame: &mut PatchedFrame) -> bool
        requires in_range { other < PAGE_LIMIT }
        requires absent { map.get self.old.pages other ≡ None }
        ensures area { OnTrue result (self.new ≡ record self.old { pages = map.insert (map.remove self.old.pages page) other frame.old.bytes }) }
        ensures frame { OnTrue result (frame.new ≡ record frame.old { bytes = unwrap_or (map.get self.old.pages page) zero_bytes }) }
        ensures same { OnFalse result (self.new ≡ self.old) }
        ensures same_frame { OnFalse result (frame.new ≡ frame.old) }
    {
        trade_bytes(&mut self.whole, page, other, frame)
    }
}

// How many slots an area of this capacity can come to need.
fn usable(capacity: u32) -> usize
    ensures { result ≡ min capacity PAGE_LIMIT }
{
    if capacity < PAGE_LIMIT {
        capacity as usize
    } else {
        PAGE_LIMIT as usize
    }
}

// Moves a page into a frame, which becomes one of zeros where the page is in neither.
fn bring_in(
    whole: &mut Table<[u8; PAGE_BYTES]>,
    few: &mut Table<Log>,
    page: u32,
    frame: &mut PatchedFrame,
)
    ensures whole { whole.new ≡ record whole.old { values = map.remove whole.old.values page } }
    ensures few { few.new ≡ record few.old { values = map.remove few.old.values page } }
    ensures frame { frame.new ≡ record frame.old { bytes = unwrap_or (map.get (merged whole.old.values few.old.values) page) zero_bytes } }
{
    let log = few.remove(page);
    match whole.get(page) {
        Some(bytes) => frame.set_bytes(bytes),
        None => frame.set_log(log.unwrap_or(Log::new())),
    }
    whole.discard(page);
}

// Writes zeros over a page of which all bytes are kept, and answers whether it is there. Only then are zeros handed over.
#[tactic(auto, unfolding(vm_patches::specs::Patches::zero_bytes))]
fn zero_whole(whole: &mut Table<[u8; PAGE_BYTES]>, page: u32) -> bool
    ensures found { result ≡ map.contains_key whole.old.values page }
    ensures zeroed { OnTrue result (whole.new ≡ record whole.old { values = map.insert whole.old.values page zero_bytes }) }
    ensures absent { OnFalse result (whole.new ≡ whole.old) }
{
    whole.get(page).is_some() && whole.set(page, ZEROS)
}

// Copies the bytes of a page, and answers whether it is in one of the two.
fn read_page(
    whole: &Table<[u8; PAGE_BYTES]>,
    few: &Table<Log>,
    page: u32,
    buffer: &mut [u8],
) -> bool
    requires { length buffer.old ≡ PAGE_BYTES }
    ensures found { result ≡ map.contains_key (merged whole.now.values few.now.values) page }
    ensures bytes { IfSome (map.get (merged whole.now.values few.now.values) page) (λ bytes. buffer.new ≡ bytes) }
    ensures absent { IfNone (map.get (merged whole.now.values few.now.values) page) (buffer.new ≡ buffer.old) }
{
    match (whole.get(page), few.get(page)) {
        (Some(bytes), _) => buffer.copy_from_slice(bytes),
        (None, Some(log)) => log.read(0, buffer),
        (None, None) => return false,
    }
    true
}
