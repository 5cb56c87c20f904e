ghost use Rattle.std.specs.Prelude.{◌≡◌, ℕ, ◌+◌, ◌*◌, ◌<◌, ◌≤◌, ◌↔◌, ◌++◌, [], Err, All, true, false, IfOk, OnOk, OnErr, length, reverse, take, vec_capacity};
ghost use Rattle.std.specs.Borrow.{sem};
ghost use Rattle.std.specs.Int.{w32, to_le_bytes};
ghost use Rattle.vm_pages.specs.Pages.{no_pages, contains, count, members, insert_all, neither, remove_all, without};
ghost use Rattle.vm_balloon.specs.Room.{HasRoomFor, KeepsRoom};
ghost use Rattle.vm_balloon.specs.Service.{numbers_in, refused, inflated_by, deflated_by};
ghost use Rattle.vm_balloon.specs.Virtio.{page_buffer};
ghost use Rattle.vm_balloon.specs.PageQueueKind.{queue_of};
ghost use Rattle.vm_balloon.specs.Device.{device_of, no_stats, posted_count, with_posted, is_named, with_early_use, inflated, deflated, bad, served, IsGood};

use crate::buffer::MOST_BYTES;
use crate::decode::MOST_NUMBERS;
use crate::page_queue::PageQueue;
use crate::reports::Reports;
use crate::service::{clear_listed, serve_deflates, serve_inflates};
use crate::{PostError, Stats};
use std::alloc::{AllocError, Global};
use std::marker::Model;
use vm_pages::PageSet;

/// A virtqueue of the balloon (VIRTIO 1.2, section 5.5.2).
#[derive(Clone, Copy, Debug, PartialEq, Eq)]
pub enum Queue {
    /// inflateq: page numbers that the guest gives up.
    Inflate,
    /// deflateq: page numbers that the guest wants back.
    Deflate,
    /// statsq: what the guest's driver says of its memory.
    Statistics,
}

/// A virtqueue of page buffers.
#[derive(Clone, Copy, Debug, PartialEq, Eq)]
pub enum PageQueueKind {
    /// inflateq: page numbers that the guest gives up.
    Inflate,
    /// deflateq: page numbers that the guest wants back.
    Deflate,
}

/// What one service of the device did.
#[derive(Debug, Drop)]
pub struct Served {
    /// The pages that were put into the balloon, in order.
    pub inflated: Vec<u32>,
    /// The pages that were given back to the guest, in order.
    pub deflated: Vec<u32>,
    /// How many items of the page buffers were ignored.
    pub bad: u32,
}

impl Served {
    // Room for so many pages on either list.
    fn new(alloc: Global, pages: usize) -> Result<Self, AllocError>
        ensures inflated { IfOk result (λ served. pages ≤ vec_capacity served.inflated) }
        ensures deflated { IfOk result (λ served. pages ≤ vec_capacity served.deflated) }
        ensures memory { OnErr result (0 < pages) }
    {
        Ok(Served {
            inflated: Vec::with_capacity(alloc, pages)?,
            deflated: Vec::with_capacity(alloc, pages)?,
            bad: 0,
        })
    }
}

/// The balloon device of one guest: its configuration space, its three queues of posted buffers, and the sets of the guest's
/// pages that are in the balloon, or were used early (VIRTIO 1.2, section 5.5; Waldspurger, OSDI 2002, section 3.2).
///
/// Clauses read it as `DeviceState` of `specs/Device.antt`. Pages are of 4096 bytes and numbered from 0.
///
/// No call but [`Device::new`] takes memory. `post` takes time for the bytes posted, `post_pages` for the page numbers posted, `serve`
/// for those posted since the last service and the pages used early, and `reset` for both and for the counts of [`PageSet::clear`];
/// none of them goes by the guest's size otherwise. `stats` takes time for the bytes of the statistics buffer that was served last,
/// `list_ballooned` and `list_outside` the time of [`PageSet::list_least`] and of [`PageSet::list_greatest_outside`]; every other call
/// takes constant time. Of a page buffer 4 bytes stay for each page number, and 6 more.
#[derive(Drop)]
pub struct Device {
    early: PageSet,
    inflates: PageQueue,
    deflates: PageQueue,
    // The pages used early since the last service, each once. From here on stands most of what an epoch and a service look at where
    // no page is posted.
    early_list: Vec<u32>,
    // The last service.
    served: Served,
    reports: Reports,
    size: u32,
    buffers: u32,
    // Whether an inflate buffer was posted since the last service, and whether a deflate buffer was. The queue of one that was not
    // isn't looked at.
    has_inflates: bool,
    has_deflates: bool,
    num_pages: u32,
    actual: u32,
    balloon: PageSet,
}

impl Model for Device {
    ghost use Rattle.vm_balloon.specs.Device.{DeviceState};

    ghost Value = { DeviceState };

    ghost use Rattle.vm_balloon.specs.DeviceFields.{state_of, IsDevice};

    ghost view = { state_of };

    ghost invariant = { IsDevice };
}

impl Device {
    ghost use Rattle.vm_balloon.specs.Lending.{EndsAs};

    /// The device of a guest of `size` pages, to which `buffers` buffers can be posted between two services. The balloon is empty,
    /// nothing is posted, both numbers of the configuration space are 0, and there are no statistics.
    ///
    /// An `Err` means that memory was refused, which is only where there are pages or buffers.
    pub fn new(alloc: Global, size: u32, buffers: u32) -> Result<Self, AllocError>
        requires size_in_range { size ≤ 262144 }
        requires buffers_in_range { buffers ≤ 256 }
        ensures device { IfOk result (λ device. device ≡ device_of size buffers) }
        ensures memory { OnErr result (0 < size + buffers) }
    {
        let room = buffers as usize;
        let served = Served::new(alloc, MOST_NUMBERS * room)?;
        let (balloon, early, early_list) = page_sets(alloc, size)?;
        let (inflates, deflates, reports) = queues(alloc, size, room)?;
        Ok(Device {
            size,
            buffers,
            balloon,
            early,
            early_list,
            inflates,
            deflates,
            reports,
            has_inflates: false,
            has_deflates: false,
            num_pages: 0,
            actual: 0,
            served,
        })
    }

    /// Becomes as it was when it was new, in the memory that it has.
    pub fn reset(&mut self)
        ensures { self.new ≡ device_of self.old.size self.old.buffers }
    {
        self.inflates.clear();
        self.deflates.clear();
        self.has_inflates = false;
        self.has_deflates = false;
        self.reports.reset();
        clear_listed(&mut self.early_list, &mut self.early);
        self.balloon.clear();
        self.num_pages = 0;
        self.actual = 0;
    }

    /// Posts a buffer to a queue, where it stays until the next service.
    ///
    /// `TooLong` where it has more than 1024 bytes, also where there is no room for it; else `Full` where as many buffers are
    /// posted as the device has. A refusal changes nothing.
    pub fn post(&mut self, queue: Queue, bytes: &[u8]) -> Result<(), PostError>
        ensures ok { OnOk result (self.new ≡ with_posted self.old queue bytes.now) }
        ensures err { OnErr result (self.new ≡ self.old) }
        ensures too_long { (result ≡ Err PostError.TooLong) ↔ (1024 < length bytes.now) }
        ensures full { (result ≡ Err PostError.Full) ↔ ((length bytes.now ≤ 1024) × (posted_count self.old ≡ self.old.buffers)) }
    {
        if bytes.len() > MOST_BYTES {
            return Err(PostError::TooLong);
        }
        let posted = self.inflates.len() + self.deflates.len() + self.reports.len();
        if posted == self.buffers as usize {
            return Err(PostError::Full);
        }
        match queue {
            Queue::Inflate => {
                self.inflates.push(bytes);
                self.has_inflates = true;
            }
            Queue::Deflate => {
                self.deflates.push(bytes);
                self.has_deflates = true;
            }
            Queue::Statistics => self.reports.push(bytes),
        }
        Ok(())
    }

    /// Posts a buffer of these page numbers, four bytes each, low byte first, as [`Device::post`] does. No bytes are made of them.
    ///
    /// `TooLong` where there are more than 256 of them, which is more than 1024 bytes; else `Full` as for other buffers. A refusal
    /// changes nothing.
    pub fn post_pages(&mut self, queue: PageQueueKind, pages: &[u32]) -> Result<(), PostError>
        ensures ok { OnOk result (self.new ≡ with_posted self.old (queue_of queue) (page_buffer pages.now)) }
        ensures err { OnErr result (self.new ≡ self.old) }
        ensures too_long { (result ≡ Err PostError.TooLong) ↔ (256 < length pages.now) }
        ensures full { (result ≡ Err PostError.Full) ↔ ((length pages.now ≤ 256) × (posted_count self.old ≡ self.old.buffers)) }
    {
        if pages.len() > MOST_NUMBERS {
            return Err(PostError::TooLong);
        }
        let posted = self.inflates.len() + self.deflates.len() + self.reports.len();
        if posted == self.buffers as usize {
            return Err(PostError::Full);
        }
        match queue {
            PageQueueKind::Inflate => {
                self.inflates.push_pages(pages);
                self.has_inflates = true;
            }
            PageQueueKind::Deflate => {
                self.deflates.push_pages(pages);
                self.has_deflates = true;
            }
        }
        Ok(())
    }

    /// How many pages the host wants in the balloon: `num_pages` of the configuration space.
    pub fn num_pages(&self) -> u32
        ensures { result ≡ self.now.num_pages }
    {
        self.num_pages
    }

    /// Sets how many pages the host wants in the balloon.
    pub fn set_num_pages(&mut self, num_pages: u32)
        ensures { self.new ≡ record self.old { num_pages = num_pages } }
    {
        self.num_pages = num_pages;
    }

    /// How many pages the driver says are in the balloon: `actual` of the configuration space.
    pub fn actual(&self) -> u32
        ensures { result ≡ self.now.actual }
    {
        self.actual
    }

    /// Sets how many pages the driver says are in the balloon.
    pub fn set_actual(&mut self, actual: u32)
        ensures { self.new ≡ record self.old { actual = actual } }
    {
        self.actual = actual;
    }

    /// The bytes of the configuration space: `num_pages` and then `actual`, each low byte first (VIRTIO 1.2, section 5.5.4).
    pub fn config(&self) -> [u8; 8]
        ensures { result ≡ to_le_bytes w32 self.now.num_pages ++ to_le_bytes w32 self.now.actual }
    {
        let [n0, n1, n2, n3] = self.num_pages.to_le_bytes();
        let [a0, a1, a2, a3] = self.actual.to_le_bytes();
        [n0, n1, n2, n3, a0, a1, a2, a3]
    }

    /// What the driver said of its guest's memory in the statistics buffer that was served last.
    pub fn stats(&self) -> Stats
        ensures { result ≡ self.now.stats }
    {
        self.reports.stats()
    }

    /// How many pages are in the balloon.
    pub fn balloon_len(&self) -> u32
        ensures value { result ≡ count self.now.balloon }

        // What is true of every device.
        ensures good { IsGood self.now }
    {
        self.balloon.len()
    }

    /// Whether the page is in the balloon.
    pub fn is_ballooned(&self, page: u32) -> bool
        requires { page < self.now.size }
        ensures { result ≡ contains self.now.balloon page }
    {
        self.balloon.contains(page)
    }

    /// Makes `pages` the list of the least pages in the balloon, at most `most` of them, least first, in the room that `pages`
    /// has: what a driver asks for before it posts pages to be taken back. They stay in the balloon.
    pub fn list_ballooned(&self, most: u32, pages: &mut Vec<u32>)
        requires room { most ≤ vec_capacity pages.old }
        ensures listed { pages.new.items ≡ take most (members self.now.balloon) }
        ensures in_range { All (λ page. page < self.now.size) pages.new.items }
        ensures room { vec_capacity pages.new ≡ vec_capacity pages.old }
    {
        self.balloon.list_least(most, pages);
    }

    /// Whether the guest used the page early since the last service.
    pub fn is_early(&self, page: u32) -> bool
        requires { page < self.now.size }
        ensures { result ≡ contains self.now.early page }
    {
        self.early.contains(page)
    }

    /// Whether a posted inflate buffer names the page.
    pub fn posted_inflate(&self, page: u32) -> bool
        requires { page < self.now.size }
        ensures { result ≡ is_named self.now.inflates page }
    {
        self.has_inflates && self.inflates.names(page)
    }

    /// Whether a posted deflate buffer names the page.
    pub fn posted_deflate(&self, page: u32) -> bool
        requires { page < self.now.size }
        ensures { result ≡ is_named self.now.deflates page }
    {
        self.has_deflates && self.deflates.names(page)
    }

    /// The guest uses a page of the balloon before the device gave it back, as a guest may that did not take the feature
    /// VIRTIO_BALLOON_F_MUST_TELL_HOST (VIRTIO 1.2, section 5.5.6). The page must not be on its way into the balloon again.
    pub fn use_early(&mut self, page: u32)
        requires page_in_range { page < self.old.size }
        requires ballooned { contains self.old.balloon page ≡ true }
        requires not_in_flight { is_named self.old.inflates page ≡ false }
        ensures { self.new ≡ with_early_use self.old page }
    {
        self.balloon.remove(page);
        self.early.insert(page);
        self.early_list.push_reserved(page);
    }

    /// Serves what is posted: all inflate buffers, then all deflate buffers, then the statistics, and lends what that did.
    /// Afterwards nothing stays posted, and no page counts as used early.
    ///
    /// Of the page buffers it ignores, and counts as bad, each page number that is not below the guest's size, an inflate of a
    /// page in the balloon, a deflate of a page neither in the balloon nor used early, and a rest of 1 to 3 bytes at a buffer's end.
    pub fn serve(&mut self) -> &Served
        ensures* device { sem 𝓛 (EndsAs self.entry (served self.old)) }
        ensures inflated { result.now.inflated.items ≡ inflated self.old }
        ensures deflated { result.now.deflated.items ≡ deflated self.old }
        ensures bad { result.now.bad ≡ bad self.old }

        // Pages of the guest alone are inflated or deflated.
        ensures inflated_pages { All (λ page. page < self.old.size) result.now.inflated.items }
        ensures deflated_pages { All (λ page. page < self.old.size) result.now.deflated.items }
    {
        serve_pages(
            self.has_inflates,
            self.has_deflates,
            &mut self.inflates,
            &mut self.deflates,
            &mut self.balloon,
            &mut self.early,
            &mut self.served,
        );
        self.has_inflates = false;
        self.has_deflates = false;
        clear_listed(&mut self.early_list, &mut self.early);
        self.reports.serve();
        &self.served
    }

    /// Makes `pages` the list of the greatest pages of the guest that are neither in a set nor in the balloon, but for one that is
    /// left out if it is given; at most `most` of them, greatest first, in the room that `pages` has: what a driver may give up before
    /// it posts pages to be put into the balloon. No page is both in the set and in the balloon.
    pub fn list_outside(&self, used: &PageSet, except: Option<u32>, most: u32, pages: &mut Vec<u32>)
        requires same { length used.now ≡ self.now.size }
        requires apart { (page : ℕ) → contains self.now.balloon page ≡ true → contains used.now page ≡ false }
        requires room { most ≤ vec_capacity pages.old }
        ensures listed { pages.new.items ≡ take most (reverse (members (without (neither used.now self.now.balloon) except))) }
        ensures in_range { All (λ page. page < self.now.size) pages.new.items }
        ensures room { vec_capacity pages.new ≡ vec_capacity pages.old }
    {
        used.list_greatest_outside(&self.balloon, except, most, pages);
    }
}

// Serves the page buffers and takes them out: all inflate buffers, then all deflate buffers.
fn serve_pages(
    has_inflates: bool,
    has_deflates: bool,
    inflates: &mut PageQueue,
    deflates: &mut PageQueue,
    balloon: &mut PageSet,
    early: &mut PageSet,
    served: &mut Served,
)
    requires no_inflates { has_inflates ≡ false → inflates.old.buffers ≡ [] }
    requires no_deflates { has_deflates ≡ false → deflates.old.buffers ≡ [] }
    requires size { length balloon.old ≡ inflates.old.size }
    requires same_size { length balloon.old ≡ deflates.old.size }
    requires same_pages { length early.old ≡ length balloon.old }
    requires few_inflates { length inflates.old.buffers ≤ 256 }
    requires few_deflates { length deflates.old.buffers ≤ 256 }
    requires room_inflated { HasRoomFor served.old.inflated inflates.old.buffers }
    requires room_deflated { HasRoomFor served.old.deflated deflates.old.buffers }
    ensures inflated { served.new.inflated.items ≡ inflated_by balloon.old (numbers_in inflates.old.buffers) }
    ensures deflated { served.new.deflated.items ≡ deflated_by (insert_all balloon.old served.new.inflated.items) early.old (numbers_in deflates.old.buffers) }
    ensures inflated_pages { All (λ page. page < length balloon.old) served.new.inflated.items }
    ensures deflated_pages { All (λ page. page < length balloon.old) served.new.deflated.items }
    ensures bad { served.new.bad ≡ refused inflates.old.buffers served.new.inflated.items + refused deflates.old.buffers served.new.deflated.items }
    ensures inflates { inflates.new ≡ record inflates.old { buffers = [] } }
    ensures deflates { deflates.new ≡ record deflates.old { buffers = [] } }
    ensures balloon { balloon.new ≡ remove_all (insert_all balloon.old served.new.inflated.items) served.new.deflated.items }
    ensures early { early.new ≡ remove_all early.old served.new.deflated.items }
    ensures same_balloon_size { length balloon.new ≡ length balloon.old }
    ensures same_early_size { length early.new ≡ length balloon.old }
    ensures inflated_room { KeepsRoom served.old.inflated served.new.inflated }
    ensures deflated_room { KeepsRoom served.old.deflated served.new.deflated }
{
    let bad_inflates = serve_inflates(has_inflates, inflates, balloon, &mut served.inflated);
    let bad_deflates = serve_deflates(has_deflates, deflates, balloon, early, &mut served.deflated);
    served.bad = bad_inflates + bad_deflates;
}

// The balloon, the pages used early, and room for a list of all pages.
fn page_sets(alloc: Global, size: u32) -> Result<(PageSet, PageSet, Vec<u32>), AllocError>
    ensures balloon { IfOk result (λ sets. sets.0 ≡ no_pages size) }
    ensures early { IfOk result (λ sets. sets.1 ≡ no_pages size) }
    ensures empty { IfOk result (λ sets. sets.2.items ≡ []) }
    ensures room { IfOk result (λ sets. size ≤ vec_capacity sets.2) }
    ensures memory { OnErr result (0 < size) }
{
    let early_list = Vec::with_capacity(alloc, size as usize)?;
    let balloon = PageSet::new(alloc, size)?;
    let early = PageSet::new(alloc, size)?;
    Ok((balloon, early, early_list))
}

// The queues of inflation, of deflation and of statistics.
fn queues(
    alloc: Global,
    size: u32,
    room: usize,
) -> Result<(PageQueue, PageQueue, Reports), AllocError>
    requires size_in_range { size ≤ 262144 }
    requires room_in_range { room ≤ 256 }
    ensures inflates { IfOk result (λ queues. queues.0 ≡ record { size = size; room = room; buffers = [] }) }
    ensures deflates { IfOk result (λ queues. queues.1 ≡ record { size = size; room = room; buffers = [] }) }
    ensures reports { IfOk result (λ queues. queues.2 ≡ record { room = room; list = []; stats = no_stats }) }
    ensures memory { OnErr result (0 < size + room) }
{
    let reports = Reports::new(alloc, room)?;
    let inflates = PageQueue::new(alloc, size, room)?;
    let deflates = PageQueue::new(alloc, size, room)?;
    Ok((inflates, deflates, reports))
}
