// Pages and the frames under them.
ghost use Rattle.std.specs.Prelude.{◌≡◌, ◌+◌, ◌<◌, ◌≤◌, length};
ghost use Rattle.vm_pagemap.specs.PageMap.{IsIn, IsNotIn, page_at};

use super::frames::{give_only, give_two, only_frame, two_frames};
use super::swap::check_room;
use super::{check, check_eq, check_number};
use std::alloc::Global;
use std::process::Abort;
use vm_pagemap::{PageMap, Place};
use vm_patches::PatchedFrame;
use vm_swap::SwapArea;

// A map of eight pages.
fn eight_pages(rt: &impl Abort, alloc: Global) -> PageMap
    ensures { length result ≡ 8 }
{
    PageMap::new(alloc, 8).expect(rt, "memory")
}

// The pages that are in, least first.
fn check_resident(rt: &impl Abort, map: &PageMap, pages: &[u32]) {
    check_eq(rt, map.resident() as usize, pages.len());
    for place in 0..map.resident() {
        let wanted = pages.get(place as usize).copied();
        check_eq(rt, Some(map.resident_at(place)), wanted);
    }
}

fn check_place(rt: &impl Abort, map: &PageMap, page: u32, place: Place)
    requires page { page < 8 }
    requires size { length map.now ≡ 8 }
{
    check_eq(rt, map.place(page), place);
}

// The page is in, for what comes after to rely on.
fn check_in(rt: &impl Abort, map: &PageMap, page: u32)
    requires page { page < 8 }
    requires size { length map.now ≡ 8 }
    ensures { IsIn (page_at map.now page) }
{
    check(rt, map.place(page) == Place::In);
}

// The page is not in, for what comes after to rely on.
fn check_not_in(rt: &impl Abort, map: &PageMap, page: u32)
    requires page { page < 8 }
    requires size { length map.now ≡ 8 }
    ensures { IsNotIn (page_at map.now page) }
{
    check(rt, map.place(page) != Place::In);
}

// Three bytes of a page that is in.
fn check_bytes(rt: &impl Abort, map: &PageMap, page: u32, wanted: [u8; 3])
    requires page { page < 8 }
    requires size { length map.now ≡ 8 }
{
    check_in(rt, map, page);
    let mut bytes = [1; 3];
    map.read(page, 4093, &mut bytes);
    check_eq(rt, bytes, wanted);
}

// Puts a frame under a page that has none.
fn put_frame(rt: &impl Abort, map: &mut PageMap, page: u32, frame: PatchedFrame)
    requires page { page < 8 }
    requires size { length map.old ≡ 8 }
    ensures { length map.new ≡ 8 }
{
    check_not_in(rt, map, page);
    map.put_frame(page, frame);
}

// Writes to a page that is in.
fn write(rt: &impl Abort, map: &mut PageMap, page: u32, offset: usize, bytes: &[u8])
    requires page { page < 8 }
    requires size { length map.old ≡ 8 }
    requires within { offset + length bytes.now ≤ 4096 }
    ensures { length map.new ≡ 8 }
{
    check_in(rt, map, page);
    map.write(page, offset, bytes);
}

// Takes the frame from under a page.
fn remove_frame(rt: &impl Abort, map: &mut PageMap, page: u32) -> PatchedFrame
    requires page { page < 8 }
    requires size { length map.old ≡ 8 }
    ensures { length map.new ≡ 8 }
{
    check_in(rt, map, page);
    map.remove_frame(page)
}

// Takes a frame from under a page that has one.
fn take_frame(rt: &impl Abort, map: &mut PageMap) -> (u32, PatchedFrame)
    requires { length map.old ≡ 8 }
    ensures size { length map.new ≡ 8 }
    ensures page { result.0 < 8 }
{
    map.take_frame().expect(rt, "a frame")
}

// Whether there is a frame to take, which goes back under its page.
fn has_frame(map: &mut PageMap) -> bool
    requires { length map.old ≡ 8 }
    ensures { length map.new ≡ 8 }
{
    match map.take_frame() {
        Some((page, frame)) => {
            map.put_frame(page, frame);
            true
        }
        None => false,
    }
}

// Makes all pages absent, none of which is in.
fn clear(rt: &impl Abort, map: &mut PageMap)
    requires { length map.old ≡ 8 }
    ensures { length map.new ≡ 8 }
{
    check_number(rt, map.resident(), 0);
    map.clear();
}

// Marks a page that is not in as swapped out.
fn mark_out(rt: &impl Abort, map: &mut PageMap, page: u32)
    requires page { page < 8 }
    requires size { length map.old ≡ 8 }
    ensures { length map.new ≡ 8 }
{
    check_not_in(rt, map, page);
    map.mark_out(page);
}

// Marks a page that is not in as nowhere.
fn mark_absent(rt: &impl Abort, map: &mut PageMap, page: u32)
    requires page { page < 8 }
    requires size { length map.old ≡ 8 }
    ensures { length map.new ≡ 8 }
{
    check_not_in(rt, map, page);
    map.mark_absent(page);
}

// Ends a map with no page in.
fn close_empty(rt: &impl Abort, map: PageMap) {
    check_number(rt, map.resident(), 0);
    map.close();
}

#[test]
fn pages_are_listed_in_order(rt: HostRuntime) {
    let (machine, first, second) = two_frames(&rt, rt.alloc());
    let numbers = (first.number(), second.number());
    let mut map = eight_pages(&rt, rt.alloc());
    put_frame(&rt, &mut map, 5, PatchedFrame::new(first));
    put_frame(&rt, &mut map, 2, PatchedFrame::new(second));
    check_resident(&rt, &map, &[2, 5]);
    let first = remove_frame(&rt, &mut map, 5);
    check_resident(&rt, &map, &[2]);
    let second = remove_frame(&rt, &mut map, 2);
    close_empty(&rt, map);
    give_two(
        &rt,
        machine,
        first.into_frame(),
        second.into_frame(),
        numbers,
    );
}

#[test]
fn pages_come_and_go(rt: HostRuntime) {
    let (machine, frame) = only_frame(&rt, rt.alloc());
    let mut map = eight_pages(&rt, rt.alloc());
    put_frame(&rt, &mut map, 2, PatchedFrame::new(frame));
    write(&rt, &mut map, 2, 4094, &[7, 8]);
    check_bytes(&rt, &map, 2, [0, 7, 8]);
    check_place(&rt, &map, 2, Place::In);
    check_resident(&rt, &map, &[2]);
    let frame = remove_frame(&rt, &mut map, 2);
    mark_out(&rt, &mut map, 2);
    check_place(&rt, &map, 2, Place::Out);
    mark_absent(&rt, &mut map, 2);
    check_resident(&rt, &map, &[]);
    check_place(&rt, &map, 2, Place::Absent);
    close_empty(&rt, map);
    give_only(&rt, machine, frame.release());
}

#[test]
fn a_frame_is_taken_with_its_page(rt: HostRuntime) {
    let (machine, frame) = only_frame(&rt, rt.alloc());
    let mut map = eight_pages(&rt, rt.alloc());
    put_frame(&rt, &mut map, 2, PatchedFrame::new(frame));
    check_eq(&rt, has_frame(&mut map), true);
    check_resident(&rt, &map, &[2]);
    let (page, frame) = take_frame(&rt, &mut map);
    check_eq(&rt, page, 2);
    check_place(&rt, &map, 2, Place::Absent);
    check_eq(&rt, has_frame(&mut map), false);
    close_empty(&rt, map);
    give_only(&rt, machine, frame.release());
}

#[test]
fn each_frame_is_taken(rt: HostRuntime) {
    let (machine, first, second) = two_frames(&rt, rt.alloc());
    let numbers = (first.number(), second.number());
    let mut map = eight_pages(&rt, rt.alloc());
    put_frame(&rt, &mut map, 5, PatchedFrame::new(first));
    put_frame(&rt, &mut map, 2, PatchedFrame::new(second));
    let (page, second) = take_frame(&rt, &mut map);
    check_eq(&rt, page, 2);
    check_resident(&rt, &map, &[5]);
    let (page, first) = take_frame(&rt, &mut map);
    check_eq(&rt, page, 5);
    close_empty(&rt, map);
    give_two(
        &rt,
        machine,
        first.into_frame(),
        second.into_frame(),
        numbers,
    );
}

#[test]
fn a_map_is_used_again(rt: HostRuntime) {
    let (machine, frame) = only_frame(&rt, rt.alloc());
    let mut map = eight_pages(&rt, rt.alloc());
    check_eq(&rt, map.is_absent(), true);
    mark_out(&rt, &mut map, 7);
    check_eq(&rt, map.is_absent(), false);
    put_frame(&rt, &mut map, 2, PatchedFrame::new(frame));
    let (_, frame) = take_frame(&rt, &mut map);
    clear(&rt, &mut map);
    check_eq(&rt, map.is_absent(), true);
    check_place(&rt, &map, 7, Place::Absent);
    put_frame(&rt, &mut map, 7, frame);
    check_eq(&rt, map.is_absent(), false);
    check_resident(&rt, &map, &[7]);
    let frame = remove_frame(&rt, &mut map, 7);
    close_empty(&rt, map);
    give_only(&rt, machine, frame.release());
}

// Lets a page take the frame of another one, where there is room for that in the swap area.
fn exchange(rt: &impl Abort, map: &mut PageMap, area: &mut SwapArea, page: u32, victim: u32)
    requires page { page < 8 }
    requires victim { victim < 8 }
    requires size { length map.old ≡ 8 }
    ensures { length map.new ≡ 8 }
{
    check_not_in(rt, map, page);
    check_in(rt, map, victim);
    check_room(rt, area, victim);
    map.exchange(page, victim, area);
}

// Asserts that this page is in and no other, three of its bytes, and that one page is swapped out.
fn check_exchanged(rt: &impl Abort, map: &PageMap, area: &SwapArea, page: u32, bytes: [u8; 3])
    requires page { page < 8 }
    requires size { length map.now ≡ 8 }
{
    check_resident(rt, map, &[page]);
    check_bytes(rt, map, page, bytes);
    check_eq(rt, area.len(), 1);
}

#[test]
fn pages_are_exchanged(rt: HostRuntime) {
    let (machine, frame) = only_frame(&rt, rt.alloc());
    let mut area = SwapArea::new(rt.alloc(), 2).expect(&rt, "memory");
    let mut map = eight_pages(&rt, rt.alloc());
    put_frame(&rt, &mut map, 2, PatchedFrame::new(frame));
    write(&rt, &mut map, 2, 4094, &[7, 8]);
    exchange(&rt, &mut map, &mut area, 0, 2);
    check_exchanged(&rt, &map, &area, 0, [0, 0, 0]);
    check_place(&rt, &map, 2, Place::Out);
    exchange(&rt, &mut map, &mut area, 2, 0);
    check_exchanged(&rt, &map, &area, 2, [0, 7, 8]);
    check_place(&rt, &map, 0, Place::Out);
    let frame = remove_frame(&rt, &mut map, 2);
    close_empty(&rt, map);
    give_only(&rt, machine, frame.release());
}
