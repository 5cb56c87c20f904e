// The frames that are set aside for running guests.
ghost use Rattle.std.specs.Prelude.{◌≡◌, ℕ, ◌+◌, ◌≤◌, vec_len, vec_capacity};
ghost use Rattle.std.specs.FinSet as set;
ghost use Rattle.vm_guest.specs.Frames.{times_among};
ghost use Rattle.vm_pool.specs.Moves.{once_if, MovesAside};

use vm_frames::{Frame, Machine};

// Gives so many frames that were set aside back to the machine.
pub(crate) fn put_back(aside: &mut Vec<Frame>, count: u32, machine: &mut Machine)
    requires few { count ≤ vec_len aside.old }
    requires out { (number : ℕ) → times_among number aside.old.items ≤ once_if (set.contains machine.old.out number) }
    ensures moved { MovesAside aside.old.items aside.new.items machine.old machine.new }
    ensures count { vec_len aside.new + count ≡ vec_len aside.old }
    ensures room { vec_capacity aside.new ≡ vec_capacity aside.old }
{
    for _ in 0..count {
        match aside.pop() {
            Some(frame) => machine.give(frame),
            None => unreachable!(),
        }
    }
}
