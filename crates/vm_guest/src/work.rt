// How long a guest's next epoch takes.
ghost use Rattle.std.specs.Prelude.{◌≡◌, ◌*◌, ◌/◌, ◌^◌, ◌<◌, ◌≤◌, max};
ghost use Rattle.vm_guest.specs.Memory.{spares};
ghost use Rattle.vm_guest.specs.Parts.{record_of, IsFit};
ghost use Rattle.vm_guest.specs.Work.{beside_steps, cleared_ahead, draws_ahead, pages_ahead, paging_ahead, steps_ahead, touched, weighed_steps, work_ahead};

use crate::driver::within_rate;
use crate::parts::{GuestParts, free_len};

// How many steps one that pages takes longer.
const PAGING_STEPS: u64 = 3;

// Nanoseconds of a draw of the sampler. Of a page that is cleared it is one.
const DRAW_TIME: u64 = 3;

// Nanoseconds of a page that the driver moves.
const MOVED_PAGE_TIME: u64 = 10;

/// What can be seen of a guest's next epoch before it.
#[derive(Clone, Copy, Debug, PartialEq, Eq)]
pub struct WorkAhead {
    /// The steps of its trace that the guest executes, if it neither stalls nor is blocked. One that pages counts as four.
    pub steps: u64,
    /// The pages that it touched and hasn't given up to its balloon since, where it has steps.
    pub pages: u64,
    /// About how many nanoseconds the epoch takes beside them: for draws of the sampler, for what is cleared at a guest's first step,
    /// and for pages that its driver moves.
    pub beside: u64,
}

// The steps of the trace that are in the next epoch.
fn steps_ahead(parts: &GuestParts) -> u64
    requires fit { IsFit parts.now }
    ensures steps { result ≡ steps_ahead (record_of parts.now) }
    ensures few { result ≤ 65536 }
{
    let left = parts.spec.trace.len() as u64 - u64::from(parts.progress.position);
    left.min(u64::from(parts.spec.quantum))
}

// The pages that were touched.
fn touched(parts: &GuestParts) -> u64
    requires fit { IsFit parts.now }
    ensures value { result ≡ touched (record_of parts.now) }
    ensures few { result < 2 ^ 33 }
{
    u64::from(parts.memory.resident()) + u64::from(parts.memory.swapped())
}

// How many of the steps page.
fn paging_ahead(parts: &GuestParts) -> u64
    requires fit { IsFit parts.now }
    ensures value { result ≡ paging_ahead (record_of parts.now) }
    ensures few { result ≤ 65536 }
{
    let steps = steps_ahead(parts);
    if parts.progress.position == 0 {
        return steps.saturating_sub(u64::from(spares(parts)));
    }
    part_of(steps, u64::from(parts.memory.swapped()), touched(parts))
}

// The frames that are under no page.
fn spares(parts: &GuestParts) -> u32
    requires fit { IsFit parts.now }
    ensures { result ≡ spares (record_of parts.now).memory }
{
    parts.memory.held() - parts.memory.resident()
}

// Such a part of some steps.
fn part_of(steps: u64, part: u64, whole: u64) -> u64
    requires few { steps ≤ 65536 }
    requires part { part ≤ whole }
    requires fits { whole < 2 ^ 33 }
    ensures value { result ≡ steps * part / max 1 whole }
    ensures few { result ≤ steps }
{
    steps * part / whole.max(1)
}

// How many draws the sampler makes.
fn draws_ahead(parts: &GuestParts) -> u64
    requires fit { IsFit parts.now }
    ensures value { result ≡ draws_ahead (record_of parts.now) }
    ensures few { result ≤ 65536000 }
{
    steps_ahead(parts) * u64::from(parts.spec.samples) / u64::from(parts.spec.period)
}

// How many pages are cleared for the guest's first step.
fn cleared_ahead(parts: &GuestParts) -> u64
    requires fit { IsFit parts.now }
    ensures value { result ≡ cleared_ahead (record_of parts.now) }
    ensures few { result ≤ 262144 }
{
    if parts.progress.position == 0 {
        u64::from(parts.spec.size)
    } else {
        0
    }
}

// The steps, of which one that pages counts as four.
fn weighed_steps(parts: &GuestParts) -> u64
    requires fit { IsFit parts.now }
    ensures value { result ≡ weighed_steps (record_of parts.now) }
    ensures few { result ≤ 262144 }
{
    steps_ahead(parts) + PAGING_STEPS * paging_ahead(parts)
}

// What the steps take beside finding and changing pages.
fn beside_steps(parts: &GuestParts) -> u64
    requires fit { IsFit parts.now }
    ensures value { result ≡ beside_steps (record_of parts.now) }
    ensures few { result ≤ 300000000 }
{
    DRAW_TIME * draws_ahead(parts) + cleared_ahead(parts)
}

// The pages that the driver moves.
fn pages_ahead(parts: &GuestParts) -> u64
    requires fit { IsFit parts.now }
    ensures value { result ≡ pages_ahead (record_of parts.now) }
    ensures few { result ≤ 256 }
{
    let wanted = parts.device.num_pages();
    let ballooned = parts.device.balloon_len();
    if wanted == ballooned {
        return 0;
    }
    let growth = wanted.saturating_sub(ballooned).min(free_len(parts));
    let distance = growth.max(ballooned.saturating_sub(wanted));
    u64::from(within_rate(parts, distance))
}

// All of it.
pub(crate) fn work_ahead(parts: &GuestParts) -> WorkAhead
    requires fit { IsFit parts.now }
    ensures work { result ≡ work_ahead (record_of parts.now) }
    ensures steps { result.steps ≤ 262144 }
    ensures pages { result.pages < 2 ^ 33 }
    ensures beside { result.beside ≤ 400000000 }
{
    let moving = MOVED_PAGE_TIME * pages_ahead(parts);
    // Most guests that are idle have none left, and then nothing more is looked at.
    if steps_ahead(parts) == 0 {
        return WorkAhead {
            steps: 0,
            pages: 0,
            beside: moving,
        };
    }
    WorkAhead {
        steps: weighed_steps(parts),
        pages: touched(parts),
        beside: beside_steps(parts) + moving,
    }
}
