// Frames of a machine.
ghost use Rattle.std.specs.Prelude.{◌≡◌, ◌≢◌, ◌<◌};
ghost use Rattle.std.specs.FinSet as set;

use super::{check_eq, check_number};
use std::alloc::Global;
use std::process::Abort;
use vm_frames::{Frame, Machine, PAGE_BYTES};

// Asserts that all frames of a machine are free, and how many these are, and ends it.
fn close_machine(rt: &impl Abort, machine: Machine, frames: u32)
    requires { machine.total ≡ frames }
{
    check_number(rt, machine.free(), frames);
    machine.close();
}

// A machine of one frame, and that frame.
#[tactic(auto, using(vm_frames::proofs::NumberSets::set_members))]
pub(super) fn only_frame(rt: &impl Abort, alloc: Global) -> (Machine, Frame)
    ensures { result.0 ≡ record { total = 1; out = set.insert set.empty 0 } }
{
    let mut machine = Machine::new(alloc, 1).expect(rt, "memory");
    let frame = machine.take().expect(rt, "a free frame");
    (machine, frame)
}

// Asserts that this is the only frame of a machine, gives it back, and ends the machine.
#[tactic(auto, using(vm_frames::proofs::NumberSets::set_members))]
pub(super) fn give_only(rt: &impl Abort, mut machine: Machine, frame: Frame)
    requires { machine ≡ record { total = 1; out = set.insert set.empty 0 } }
{
    check_number(rt, frame.number(), 0);
    machine.give(frame);
    close_machine(rt, machine, 1);
}

// A machine of two frames, and these.
#[tactic(auto, using(vm_frames::proofs::NumberSets::set_members))]
pub(super) fn two_frames(rt: &impl Abort, alloc: Global) -> (Machine, Frame, Frame)
    ensures machine { result.0 ≡ record { total = 2; out = set.insert (set.insert set.empty result.1.number) result.2.number } }
    ensures two { result.1.number ≢ result.2.number }
{
    let mut machine = Machine::new(alloc, 2).expect(rt, "memory");
    let first = machine.take().expect(rt, "a free frame");
    let second = machine.take().expect(rt, "a free frame");
    (machine, first, second)
}

// Asserts that these are the two frames of a machine, by their numbers, gives them back, and ends the machine.
#[tactic(auto, using(vm_frames::proofs::NumberSets::set_members))]
pub(super) fn give_two(
    rt: &impl Abort,
    mut machine: Machine,
    first: Frame,
    second: Frame,
    numbers: (u32, u32),
)
    requires machine { machine ≡ record { total = 2; out = set.insert (set.insert set.empty numbers.0) numbers.1 } }
    requires two { numbers.0 ≢ numbers.1 }
{
    check_number(rt, first.number(), numbers.0);
    check_number(rt, second.number(), numbers.1);
    machine.give(second);
    check_eq(rt, machine.free(), 1);
    machine.give(first);
    close_machine(rt, machine, 2);
}

// Writes a byte.
fn put_byte(frame: &mut Frame, place: usize, byte: u8)
    requires { place < 4096 }
{
    frame.bytes_mut()[place] = byte;
}

#[test]
fn a_frame_keeps_its_bytes(rt: HostRuntime) {
    let (machine, mut frame) = only_frame(&rt, rt.alloc());
    let number = frame.number();
    check_eq(&rt, *frame.bytes(), [0; PAGE_BYTES]);
    put_byte(&mut frame, 7, 9);
    check_eq(&rt, frame.bytes()[7], 9);
    frame.zero();
    check_eq(&rt, *frame.bytes(), [0; PAGE_BYTES]);
    check_eq(&rt, frame.number(), number);
    give_only(&rt, machine, frame);
}

#[test]
fn each_frame_is_taken_once(rt: HostRuntime) {
    let (machine, first, second) = two_frames(&rt, rt.alloc());
    let numbers = (first.number(), second.number());
    check_eq(&rt, machine.total(), 2);
    check_eq(&rt, numbers.0 == numbers.1, false);
    check_eq(&rt, machine.free(), 0);
    give_two(&rt, machine, first, second, numbers);
}
