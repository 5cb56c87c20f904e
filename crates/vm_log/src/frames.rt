// What is left for the guests.
ghost use Rattle.std.specs.Prelude.{◌≡◌, ◌-◌, max, if◌then◌else◌};
ghost use Rattle.vm_log.specs.HostOf.{is_among};
ghost use Rattle.vm_log.specs.Steps.{frames_less, names_of};
ghost use Rattle.vm_steer.specs.Names.{AreRising};

use crate::alone::Alone;
use crate::named::is_among;
use vm_recorded::RecordedGuest;
use vm_samples::Policy;

fn less(frames: u32, held: u64) -> u32
    ensures { result ≡ frames - held }
{
    u64::from(frames).saturating_sub(held) as u32
}

// What one of those beside takes, unless it is a guest.
fn without(frames: u32, guests: &[RecordedGuest], alone: &Alone) -> u32
    requires { AreRising (names_of guests.now) }
    ensures { result ≡ (if is_among (names_of guests.now) alone.now.name then frames else frames - alone.now.most) }
{
    if is_among(guests, &alone.name) {
        frames
    } else {
        less(frames, alone.most)
    }
}

// The frames of a host that has so much memory, with these beside its guests.
pub(crate) fn frames_for(policy: &Policy, guests: &[RecordedGuest], beside: &[Alone]) -> u32
    requires { AreRising (names_of guests.now) }
    ensures { result ≡ max (frames_less (names_of guests.now) policy.now.memory beside.now) 1 }
{
    let mut frames = policy.memory;
    for alone in beside {
        frames = without(frames, guests, alone);
    }
    frames.max(1)
}
