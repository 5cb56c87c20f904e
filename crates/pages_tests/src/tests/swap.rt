// Swap areas.
ghost use Rattle.std.specs.Prelude.{◌≡◌, ℕ, ◌+◌, ◌<◌, ◌≤◌, None};
ghost use Rattle.std.specs.FinMap as map;

use super::frames::{give_only, only_frame};
use super::patches::{Growth, outgrown};
use super::{check, check_below, check_eq, check_number, patches};
use std::alloc::Global;
use std::process::Abort;
use vm_frames::Frame;
use vm_patches::{Log, PatchedFrame};
use vm_swap::{PAGE_BYTES, PAGE_LIMIT, SwapArea};

// The page is there, and each of its bytes is this one.
fn check_page(rt: &impl Abort, area: &SwapArea, page: u32, byte: u8) {
    let mut buffer = [byte ^ 255; PAGE_BYTES];
    check_eq(rt, area.get_into(page, &mut buffer), true);
    check_eq(rt, buffer == [byte; PAGE_BYTES], true);
}

// The page is not there, and a buffer stays as it was.
fn check_absent(rt: &impl Abort, area: &SwapArea, page: u32)
    ensures { map.get area.now.pages page ≡ None }
{
    let mut buffer = [1; PAGE_BYTES];
    check(rt, !area.get_into(page, &mut buffer));
    check_eq(rt, buffer == [1; PAGE_BYTES], true);
}

// The page is not there, and there is room for it, for what comes after to rely on.
pub(super) fn check_room(rt: &impl Abort, area: &SwapArea, page: u32)
    ensures absent { map.get area.now.pages page ≡ None }
    ensures room { map.len area.now.pages < area.now.capacity }
    ensures more_room { (other : ℕ) → map.len (map.remove area.now.pages other) < area.now.capacity }
{
    check_absent(rt, area, page);
    check_below(rt, area.len(), area.capacity());
}

// Swaps out a page of these bytes, which is not there, where there is room.
fn put(rt: &impl Abort, area: &mut SwapArea, page: u32, byte: u8)
    requires { page < PAGE_LIMIT }
{
    check_room(rt, area, page);
    area.put(page, &[byte; PAGE_BYTES]);
}

// So many pages, and room for so many.
fn check_sizes(rt: &impl Abort, area: &SwapArea, pages: u32, capacity: u32) {
    check_eq(rt, (area.len(), area.capacity()), (pages, capacity));
}

// Makes room for so many pages more, and tells for how many there is room then.
fn grow(rt: &impl Abort, area: &mut SwapArea, more: u32) -> u32
    requires { more < 1000 }
{
    let capacity = area.capacity();
    check_below(rt, capacity, 1000);
    area.grow(more).expect(rt, "memory");
    capacity + more
}

// Swaps out a page that is not there, where there is room.
fn save(rt: &impl Abort, area: &mut SwapArea, page: u32, frame: PatchedFrame) -> Frame
    requires { page < PAGE_LIMIT }
{
    check_room(rt, area, page);
    area.save(page, frame)
}

// Swaps one page in, and out one that is not there, where there is room.
fn trade(rt: &impl Abort, area: &mut SwapArea, page: u32, other: u32, frame: &mut PatchedFrame)
    requires { other < PAGE_LIMIT }
{
    check_room(rt, area, other);
    area.trade(page, other, frame);
}

// The same where a page is there, and no more room than its own.
fn trade_full(rt: &impl Abort, area: &mut SwapArea, page: u32, other: u32, frame: &mut PatchedFrame)
    requires { other < PAGE_LIMIT }
{
    check_absent(rt, area, other);
    check(rt, area.get_into(page, &mut [1; PAGE_BYTES]));
    check_below(rt, 0, area.len());
    check_number(rt, area.len(), area.capacity());
    area.trade(page, other, frame);
}

// Of two pages one becomes zeros and then goes. The other one, which moves, is found.
fn check_changes(rt: &impl Abort, area: &mut SwapArea) {
    check_eq(rt, area.zero_page(7), true);
    check_page(rt, area, 7, 0);
    check_page(rt, area, 8, 8);
    check_eq(rt, area.drop_page(7), true);
    check_eq(rt, area.drop_page(7), false);
    check_sizes(rt, area, 1, 2);
    check_page(rt, area, 8, 8);
}

#[test]
fn swap_area(rt: HostRuntime) {
    let mut area = SwapArea::new(rt.alloc(), 1).expect(&rt, "memory");
    put(&rt, &mut area, 7, 7);
    grow(&rt, &mut area, 1);
    put(&rt, &mut area, 8, 8);
    check_sizes(&rt, &area, 2, 2);
    check_absent(&rt, &area, 9);
    check_page(&rt, &area, 7, 7);
    check_changes(&rt, &mut area);
}

// Three bytes of a page in a frame.
fn check_frame(rt: &impl Abort, frame: &PatchedFrame, offset: usize, wanted: [u8; 3])
    requires { offset + 3 ≤ 4096 }
{
    let mut bytes = [0; 3];
    frame.read(offset, &mut bytes);
    check_eq(rt, bytes, wanted);
}

// The page is there, and all of its bytes are zeros but this one.
fn check_byte(rt: &impl Abort, area: &SwapArea, page: u32, offset: usize, byte: u8)
    requires { offset < 4096 }
{
    let mut wanted = [0; PAGE_BYTES];
    wanted[offset] = byte;
    let mut buffer = [9; PAGE_BYTES];
    check_eq(rt, area.get_into(page, &mut buffer), true);
    check_eq(rt, buffer == wanted, true);
}

// A page of one byte goes out and a whole one comes into its frame, in the only room that there is, and the other way round. The
// page that stays is found.
fn check_trades(rt: &impl Abort, area: &mut SwapArea, frame: &mut PatchedFrame) {
    trade_full(rt, area, 7, 2, frame);
    check_frame(rt, frame, 4, [7, 7, 7]);
    check_byte(rt, area, 2, 5, 3);
    check_absent(rt, area, 7);
    check_page(rt, area, 8, 8);
    check_sizes(rt, area, 2, 2);
    trade_full(rt, area, 2, 7, frame);
    check_frame(rt, frame, 4, [0, 3, 0]);
    check_page(rt, area, 7, 7);
    check_absent(rt, area, 2);
}

#[test]
fn traded_pages(rt: HostRuntime) {
    let (machine, frame) = only_frame(&rt, rt.alloc());
    let mut area = SwapArea::new(rt.alloc(), 2).expect(&rt, "memory");
    put(&rt, &mut area, 7, 7);
    put(&rt, &mut area, 8, 8);
    let mut frame = PatchedFrame::new(frame);
    frame.write(5, &[3]);
    check_trades(&rt, &mut area, &mut frame);
    give_only(&rt, machine, frame.release());
}

#[test]
fn saved_pages(rt: HostRuntime) {
    let (machine, frame) = only_frame(&rt, rt.alloc());
    let mut area = SwapArea::new(rt.alloc(), 1).expect(&rt, "memory");
    let mut frame = PatchedFrame::new(frame);
    frame.write(4095, &[6]);
    let spare = save(&rt, &mut area, 1, frame);
    check_byte(&rt, &area, 1, 4095, 6);
    let mut frame = PatchedFrame::new(spare);
    area.load(1, &mut frame);
    check_frame(&rt, &frame, 4093, [0, 0, 6]);
    check_absent(&rt, &area, 1);
    // A page that is not there comes in as zeros, whatever was in the frame.
    area.load(1, &mut frame);
    check_frame(&rt, &frame, 4093, [0, 0, 0]);
    give_only(&rt, machine, frame.release());
}

#[test]
fn greatest_area(rt: HostRuntime) {
    // 256 GiB of pages: more than a machine need have, as long as they are not used.
    let mut area = SwapArea::new(rt.alloc(), 67108864).expect(&rt, "memory");
    put(&rt, &mut area, 262143, 9);
    check_page(&rt, &area, 262143, 9);
    check_eq(&rt, area.zero_page(0), false);
}

// No guest has pages of such numbers, so none is there.
#[test]
fn pages_past_the_limit(rt: HostRuntime) {
    let mut area = SwapArea::new(rt.alloc(), 1).expect(&rt, "memory");
    put(&rt, &mut area, 262143, 9);
    for page in [262144, u32::MAX] {
        check_absent(&rt, &area, page);
        check_eq(&rt, area.zero_page(page), false);
        check_eq(&rt, area.drop_page(page), false);
    }
    check_page(&rt, &area, 262143, 9);
}

// The pages that may be out are gone, and there is the same room as before.
fn check_emptied(rt: &impl Abort, area: &SwapArea, capacity: u32) {
    check_sizes(rt, area, 0, capacity);
    for page in [0, 1, 2, 7, 262143] {
        check_absent(rt, area, page);
    }
}

// Leaves room for no more than so many pages.
fn lower(rt: &impl Abort, area: &mut SwapArea, slots: u32) {
    check(rt, area.len() <= slots);
    check(rt, slots <= area.capacity());
    area.lower_to(slots);
}

// An area that is emptied, with pages of each kind in it and one that is gone already, takes pages again: the first slots, for other
// pages than before.
#[test]
fn emptied_area(rt: HostRuntime) {
    let (machine, frame) = only_frame(&rt, rt.alloc());
    let mut area = SwapArea::new(rt.alloc(), 3).expect(&rt, "memory");
    area.empty();
    check_emptied(&rt, &area, 3);
    put(&rt, &mut area, 1, 1);
    put(&rt, &mut area, 7, 7);
    put(&rt, &mut area, 262143, 9);
    check_eq(&rt, area.drop_page(7), true);
    let mut frame = PatchedFrame::new(frame);
    frame.write(5, &[3]);
    trade(&rt, &mut area, 0, 2, &mut frame);
    check_sizes(&rt, &area, 3, 3);
    area.empty();
    check_emptied(&rt, &area, 3);
    put(&rt, &mut area, 262143, 8);
    put(&rt, &mut area, 7, 6);
    check_page(&rt, &area, 262143, 8);
    check_page(&rt, &area, 7, 6);
    check_absent(&rt, &area, 1);
    check_absent(&rt, &area, 2);
    check_sizes(&rt, &area, 2, 3);
    lower(&rt, &mut area, 2);
    check_sizes(&rt, &area, 2, 2);
    check_page(&rt, &area, 7, 6);
    give_only(&rt, machine, frame.release());
}

// Makes room for so many pages more. Those that are there stay: each has this byte at a place of its own.
fn check_grows(rt: &impl Abort, area: &mut SwapArea, more: u32)
    requires { more < 1000 }
{
    let wanted = grow(rt, area, more);
    check_sizes(rt, area, 2, wanted);
    check_byte(rt, area, 7, 5, 3);
    check_byte(rt, area, 262143, 4095, 4);
}

// Two pages of few bytes. They move to other memory where an eighth of what comes more has room for them, and else they don't.
#[test]
fn pages_of_few_bytes_stay_where_an_area_grows(rt: HostRuntime) {
    let (machine, frame) = only_frame(&rt, rt.alloc());
    let mut area = SwapArea::new(rt.alloc(), 8).expect(&rt, "memory");
    let mut frame = PatchedFrame::new(frame);
    frame.write(5, &[3]);
    trade(&rt, &mut area, 0, 7, &mut frame);
    frame.write(4095, &[4]);
    trade(&rt, &mut area, 0, 262143, &mut frame);
    for more in [0, 1, 15, 16, 17, 64] {
        check_grows(&rt, &mut area, more);
    }
    give_only(&rt, machine, frame.release());
}

// The page is there, and has these bytes.
fn check_bytes(rt: &impl Abort, area: &SwapArea, page: u32, wanted: &[u8; PAGE_BYTES]) {
    let mut buffer = [9; PAGE_BYTES];
    check_eq(rt, area.get_into(page, &mut buffer), true);
    check_eq(rt, buffer == *wanted, true);
}

// A page that outgrew its log goes out and comes in again, over what the frame's next page has. One that is not there comes in as
// zeros over that.
fn check_save(rt: &impl Abort, alloc: Global, frame: Frame, growth: Growth) -> Frame {
    let mut area = SwapArea::new(alloc, 1).expect(rt, "memory");
    let (page, wanted) = outgrown(rt, frame, growth);
    let frame = save(rt, &mut area, 1, page);
    check_bytes(rt, &area, 1, &wanted);
    let (mut page, _others) = outgrown(rt, frame, Growth::Bytes);
    area.load(1, &mut page);
    patches::check_page(rt, &page, &wanted);
    check_absent(rt, &area, 1);
    let (mut page, _others) = outgrown(rt, page.release(), growth);
    area.load(1, &mut page);
    patches::check_page(rt, &page, &[0; PAGE_BYTES]);
    page.release()
}

// A page that outgrew its log changes places with one that is kept whole, and comes back.
fn check_trade_whole(rt: &impl Abort, alloc: Global, frame: Frame, growth: Growth) -> Frame {
    let mut area = SwapArea::new(alloc, 2).expect(rt, "memory");
    put(rt, &mut area, 1, 5);
    let (mut page, wanted) = outgrown(rt, frame, growth);
    trade(rt, &mut area, 1, 2, &mut page);
    check_bytes(rt, &area, 2, &wanted);
    check_absent(rt, &area, 1);
    patches::check_page(rt, &page, &[5; PAGE_BYTES]);
    trade(rt, &mut area, 2, 1, &mut page);
    check_page(rt, &area, 1, 5);
    patches::check_page(rt, &page, &wanted);
    page.release()
}

// The same with one that is kept as a log.
fn check_trade_few(rt: &impl Abort, alloc: Global, frame: Frame, growth: Growth) -> Frame {
    let mut area = SwapArea::new(alloc, 2).expect(rt, "memory");
    let mut page = PatchedFrame::new(frame);
    page.set_log(Log::new());
    page.write(5, &[3]);
    trade(rt, &mut area, 0, 1, &mut page);
    let (mut page, wanted) = outgrown(rt, page.release(), growth);
    trade(rt, &mut area, 1, 2, &mut page);
    check_bytes(rt, &area, 2, &wanted);
    check_frame(rt, &page, 4, [0, 3, 0]);
    trade(rt, &mut area, 2, 1, &mut page);
    check_byte(rt, &area, 1, 5, 3);
    patches::check_page(rt, &page, &wanted);
    page.release()
}

#[test]
fn pages_that_outgrew_their_logs(rt: HostRuntime) {
    let (machine, frame) = only_frame(&rt, rt.alloc());
    let frame = check_save(&rt, rt.alloc(), frame, Growth::Stretches);
    let frame = check_save(&rt, rt.alloc(), frame, Growth::Bytes);
    let frame = check_trade_whole(&rt, rt.alloc(), frame, Growth::Stretches);
    let frame = check_trade_whole(&rt, rt.alloc(), frame, Growth::Bytes);
    let frame = check_trade_few(&rt, rt.alloc(), frame, Growth::Stretches);
    let frame = check_trade_few(&rt, rt.alloc(), frame, Growth::Bytes);
    give_only(&rt, machine, frame);
}
