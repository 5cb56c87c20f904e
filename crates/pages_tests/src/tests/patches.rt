// Pages of few written bytes.
ghost use Rattle.std.specs.Prelude.{◌≡◌, ◌+◌, ◌≤◌, length};

use super::check_eq;
use super::frames::{give_only, only_frame};
use std::process::Abort;
use vm_frames::{Frame, PAGE_BYTES};
use vm_patches::{Log, Patch, PatchedFrame};

// Five bytes of a page.
fn check_five(rt: &impl Abort, page: &PatchedFrame, offset: usize, wanted: [u8; 5])
    requires { offset + 5 ≤ PAGE_BYTES }
{
    let mut bytes = [0; 5];
    page.read(offset, &mut bytes);
    check_eq(rt, bytes, wanted);
}

#[test]
fn later_writes_cover_earlier_ones(rt: HostRuntime) {
    let mut patch = Patch::new();
    check_eq(&rt, patch.has_room(12), true);
    check_eq(&rt, patch.has_room(13), false);
    patch.write(10, &[1, 2, 3]);
    patch.write(11, &[7]);
    check_eq(&rt, patch.has_room(8), true);
    check_eq(&rt, patch.has_room(9), false);
    let mut page = [9; PAGE_BYTES];
    let mut bytes = [0; 5];
    patch.read(&page, 9, &mut bytes);
    check_eq(&rt, bytes, [9, 1, 7, 3, 9]);
    patch.apply(&mut page);
    check_eq(&rt, [page[9], page[10], page[11], page[12]], [9, 1, 7, 3]);
}

// The page has more bytes than a patch has room for, and keeps them.
fn check_no_patch(rt: &impl Abort, page: &mut PatchedFrame) {
    check_eq(rt, page.take_patch().is_none(), true);
}

// Thirteen bytes outgrow a patch, and a log has room for them.
#[test]
fn a_page_outgrows_its_patch(rt: HostRuntime) {
    let (machine, frame) = only_frame(&rt, rt.alloc());
    let number = frame.number();
    let mut page = PatchedFrame::new(frame);
    page.write(4086, &[1, 2, 3, 4, 5, 6, 7, 8, 9, 10]);
    check_five(&rt, &page, 4083, [0, 0, 0, 1, 2]);
    page.write(4085, &[11, 12, 13]);
    check_five(&rt, &page, 4083, [0, 0, 11, 12, 13]);
    check_five(&rt, &page, 4091, [6, 7, 8, 9, 10]);
    check_no_patch(&rt, &mut page);
    check_five(&rt, &page, 4083, [0, 0, 11, 12, 13]);
    let frame = page.into_frame();
    check_eq(&rt, frame.number(), number);
    check_eq(&rt, frame.bytes()[4095], 10);
    // The frame's bytes are the page's, where it is mapped again.
    let page = PatchedFrame::new(frame);
    check_five(&rt, &page, 4083, [0, 0, 11, 12, 13]);
    give_only(&rt, machine, page.release());
}

#[test]
fn a_patch_comes_with_its_frame(rt: HostRuntime) {
    let (machine, frame) = only_frame(&rt, rt.alloc());
    let mut page = PatchedFrame::new(frame);
    page.write(2, &[5]);
    let frame = page.into_frame();
    check_eq(&rt, [frame.bytes()[1], frame.bytes()[2]], [0, 5]);
    give_only(&rt, machine, frame);
}

// Each byte of a page, in the order of offsets.
pub(super) fn check_page(rt: &impl Abort, page: &PatchedFrame, wanted: &[u8; PAGE_BYTES]) {
    let mut bytes = [9; PAGE_BYTES];
    page.read(0, &mut bytes);
    check_eq(rt, bytes == *wanted, true);
}

// Writes bytes to a page, and the same to an array beside it.
fn write_both(page: &mut PatchedFrame, wanted: &mut [u8; PAGE_BYTES], offset: usize, bytes: &[u8])
    requires { offset + length bytes.now ≤ PAGE_BYTES }
{
    page.write(offset, bytes);
    wanted[offset..offset + bytes.len()].copy_from_slice(bytes);
}

// A page that has one byte more than a patch has room for, then bytes on both sides of the borders of lines, and then a stretch
// that no log has room for.
fn outgrow(rt: &impl Abort, page: &mut PatchedFrame) {
    let mut wanted = [0; PAGE_BYTES];
    write_both(
        page,
        &mut wanted,
        58,
        &[1, 2, 3, 4, 5, 6, 7, 8, 9, 10, 11, 12],
    );
    check_page(rt, page, &wanted);
    write_both(page, &mut wanted, 200, &[13]);
    check_page(rt, page, &wanted);
    write_both(page, &mut wanted, 127, &[14, 15]);
    write_both(page, &mut wanted, 4032, &[16]);
    write_both(page, &mut wanted, 4095, &[]);
    check_page(rt, page, &wanted);
    check_five(rt, page, 62, [5, 6, 7, 8, 9]);
    check_five(rt, page, 4030, [0, 0, 16, 0, 0]);
    write_both(page, &mut wanted, 320, &[17; 192]);
    check_page(rt, page, &wanted);
}

#[test]
fn a_frame_shows_the_lines_that_were_written(rt: HostRuntime) {
    let (machine, mut frame) = only_frame(&rt, rt.alloc());
    *frame.bytes_mut() = [255; PAGE_BYTES];
    let mut page = PatchedFrame::new(frame);
    page.set_patch(Patch::new());
    outgrow(&rt, &mut page);
    // The other way out of a log: the frame gets all bytes.
    page.set_patch(Patch::new());
    page.write(63, &[1, 2]);
    let mut buffer = [7; PAGE_BYTES];
    page.exchange(&mut buffer);
    check_eq(
        &rt,
        [buffer[62], buffer[63], buffer[64], buffer[65]],
        [0, 1, 2, 0],
    );
    check_five(&rt, &page, 62, [7, 7, 7, 7, 7]);
    give_only(&rt, machine, page.release());
}

// A stretch of a log, and whether it has room.
fn check_write(rt: &impl Abort, log: &mut Log, offset: usize, bytes: &[u8], room: bool)
    requires { offset + length bytes.now ≤ PAGE_BYTES }
{
    check_eq(rt, log.write(offset, bytes), room);
}

#[test]
fn a_log_has_twenty_stretches(rt: HostRuntime) {
    let mut log = Log::new();
    for place in 0..20 {
        check_write(&rt, &mut log, 2 * place, &[1, 2], true);
    }
    check_write(&rt, &mut log, 100, &[], true);
    check_write(&rt, &mut log, 0, &[3], false);
    let mut bytes = [9; 4];
    log.read(38, &mut bytes);
    check_eq(&rt, bytes, [1, 2, 0, 0]);
}

#[test]
fn a_log_has_seventy_six_bytes(rt: HostRuntime) {
    let mut log = Log::new();
    check_write(&rt, &mut log, 0, &[8; 17], false);
    for place in 0..4 {
        check_write(&rt, &mut log, 4080 - 8 * place, &[4; 16], true);
    }
    check_write(&rt, &mut log, 4090, &[5; 6], true);
    check_write(&rt, &mut log, 4088, &[6; 7], false);
    check_write(&rt, &mut log, 4088, &[6; 6], true);
    check_write(&rt, &mut log, 0, &[7], false);
    let mut bytes = [9; 4];
    log.read(4092, &mut bytes);
    check_eq(&rt, bytes, [6, 6, 5, 5]);
    log.read(4054, &mut bytes);
    check_eq(&rt, bytes, [0, 0, 4, 4]);
    log.read(0, &mut bytes);
    check_eq(&rt, bytes, [0, 0, 0, 0]);
}

// The page's bytes are in a log.
fn check_in_log(rt: &impl Abort, page: &mut PatchedFrame) {
    let log = page.take_log().expect(rt, "a log");
    page.set_log(log);
}

// The page has no log any more, and keeps its bytes.
fn check_outgrown(rt: &impl Abort, page: &mut PatchedFrame) {
    check_eq(rt, page.take_log().is_none(), true);
}

// Stretches that cover each other in part, of 76 bytes altogether, and then one byte more than the page's log has room for.
fn outgrow_by_bytes(rt: &impl Abort, page: &mut PatchedFrame, wanted: &mut [u8; PAGE_BYTES]) {
    write_both(page, wanted, 60, &[1; 16]);
    write_both(page, wanted, 50, &[2; 16]);
    write_both(page, wanted, 70, &[3; 16]);
    write_both(page, wanted, 4080, &[4; 16]);
    write_both(page, wanted, 64, &[5; 12]);
    check_in_log(rt, page);
    check_page(rt, page, wanted);
    write_both(page, wanted, 63, &[6]);
    check_page(rt, page, wanted);
}

// Stretches across the ends of lines, twenty of two bytes each, and then one more than the page's log has room for.
fn outgrow_by_stretches(rt: &impl Abort, page: &mut PatchedFrame, wanted: &mut [u8; PAGE_BYTES]) {
    for stretch in 0..20 {
        write_both(page, wanted, 192 * stretch + 63, &[stretch as u8 + 1, 100]);
    }
    check_in_log(rt, page);
    check_page(rt, page, wanted);
    write_both(page, wanted, 0, &[21]);
    check_page(rt, page, wanted);
}

// Writes at both ends of a page, across the ends of lines, and of more than a line.
fn write_more(rt: &impl Abort, page: &mut PatchedFrame, wanted: &mut [u8; PAGE_BYTES]) {
    write_both(page, wanted, 0, &[32, 33]);
    write_both(page, wanted, 62, &[34, 35, 36, 37, 38]);
    write_both(page, wanted, 2040, &[39; 80]);
    write_both(page, wanted, 4091, &[40, 41, 42, 43]);
    write_both(page, wanted, 4095, &[44]);
    check_five(rt, page, 0, [32, 33, 0, 0, 0]);
    check_five(rt, page, 62, [34, 35, 36, 37, 38]);
    check_five(rt, page, 2038, [0, 0, 39, 39, 39]);
    check_five(rt, page, 2117, [39, 39, 39, 0, 0]);
    check_five(rt, page, 4091, [40, 41, 42, 43, 44]);
}

// Bytes of a page, from `offset` on.
fn check_range(
    rt: &impl Abort,
    page: &PatchedFrame,
    wanted: &[u8; PAGE_BYTES],
    offset: usize,
    count: usize,
)
    requires within { offset + count ≤ PAGE_BYTES }
    requires short { count ≤ 200 }
{
    let mut bytes = [9; 200];
    page.read(offset, &mut bytes[..count]);
    check_eq(rt, bytes[..count] == wanted[offset..offset + count], true);
}

// All of a page, and parts of it that begin and end at the ends of lines and beside them.
fn check_ranges(rt: &impl Abort, page: &PatchedFrame, wanted: &[u8; PAGE_BYTES]) {
    check_page(rt, page, wanted);
    check_range(rt, page, wanted, 0, 1);
    check_range(rt, page, wanted, 0, 65);
    check_range(rt, page, wanted, 63, 1);
    check_range(rt, page, wanted, 63, 2);
    check_range(rt, page, wanted, 60, 200);
    check_range(rt, page, wanted, 64, 128);
    check_range(rt, page, wanted, 4031, 65);
    check_range(rt, page, wanted, 4095, 1);
    check_range(rt, page, wanted, 4096, 0);
}

// By what a page outgrows its log.
#[derive(Clone, Copy)]
pub(super) enum Growth {
    Stretches,
    Bytes,
}

// A page of this frame that outgrew its log and was written again, and the bytes that it has to have. The frame had others.
pub(super) fn outgrown(
    rt: &impl Abort,
    frame: Frame,
    growth: Growth,
) -> (PatchedFrame, [u8; PAGE_BYTES]) {
    let mut page = PatchedFrame::new(frame);
    page.set_bytes(&[255; PAGE_BYTES]);
    page.set_log(Log::new());
    let mut wanted = [0; PAGE_BYTES];
    match growth {
        Growth::Stretches => outgrow_by_stretches(rt, &mut page, &mut wanted),
        Growth::Bytes => outgrow_by_bytes(rt, &mut page, &mut wanted),
    }
    check_outgrown(rt, &mut page);
    write_more(rt, &mut page, &mut wanted);
    check_ranges(rt, &page, &wanted);
    (page, wanted)
}

// The frame of a page that outgrew its log has the page's bytes.
fn check_frame(rt: &impl Abort, frame: Frame, growth: Growth) -> Frame {
    let (page, wanted) = outgrown(rt, frame, growth);
    let frame = page.into_frame();
    check_eq(rt, *frame.bytes() == wanted, true);
    frame
}

// The bytes of a page that outgrew its log change places with those of a buffer.
fn check_exchange(rt: &impl Abort, frame: Frame, growth: Growth) -> Frame {
    let (mut page, wanted) = outgrown(rt, frame, growth);
    let mut buffer = [7; PAGE_BYTES];
    page.exchange(&mut buffer);
    check_eq(rt, buffer == wanted, true);
    check_page(rt, &page, &[7; PAGE_BYTES]);
    page.release()
}

#[test]
fn a_page_that_outgrew_its_log_keeps_its_bytes(rt: HostRuntime) {
    let (machine, frame) = only_frame(&rt, rt.alloc());
    let frame = check_frame(&rt, frame, Growth::Stretches);
    let frame = check_frame(&rt, frame, Growth::Bytes);
    let frame = check_exchange(&rt, frame, Growth::Stretches);
    give_only(&rt, machine, check_exchange(&rt, frame, Growth::Bytes));
}

#[test]
fn a_page_outgrows_its_log(rt: HostRuntime) {
    let (machine, frame) = only_frame(&rt, rt.alloc());
    let mut page = PatchedFrame::new(frame);
    let mut wanted = [0; PAGE_BYTES];
    outgrow_by_bytes(&rt, &mut page, &mut wanted);
    check_outgrown(&rt, &mut page);
    // What has room in a log is taken as one, and as a patch only where it has room there.
    page.set_log(Log::new());
    page.write(5, &[1; 13]);
    check_eq(&rt, page.take_patch().is_none(), true);
    check_eq(&rt, page.take_log().is_some(), true);
    check_five(&rt, &page, 4, [0, 0, 0, 0, 0]);
    page.write(5, &[1; 12]);
    check_eq(&rt, page.take_patch().is_some(), true);
    check_five(&rt, &page, 4, [0, 0, 0, 0, 0]);
    give_only(&rt, machine, page.release());
}
