// What the uses of guests come to, without going through them.
ghost use Rattle.std.specs.Prelude.{◌≡◌, ◌+◌, ◌≤◌, Some, length};
ghost use Rattle.vm_log.specs.Steps.{counted_all, counts_with, latest};
ghost use Rattle.vm_recorded.specs.Counts.{absent_for, counted};
ghost use Rattle.vm_log.specs.Told.{AreKeptSmall, AreSmall, IsSmall};

use crate::kept::Kept;
use crate::raising::gap_of;
use vm_recorded::{Counts, RecordedGuest, Use};

// The last use.
fn latest(uses: &[Use]) -> u32
    ensures { result ≡ latest uses.now }
{
    if uses.is_empty() {
        return 0;
    }
    uses[uses.len() - 1].get().unwrap_or(0)
}

// With a use in the open epoch, behind so many without one.
fn with_open(counts: Counts, epoch: u32, gap: u32, used: u32) -> Counts
    requires few { epoch ≤ 10000 }
    requires within { gap ≤ epoch }
    requires small { IsSmall epoch counts }
    ensures exact { result ≡ counted (absent_for gap counts) (Some used) }
    ensures small { IsSmall (epoch + 1) result }
{
    counts.absent(gap).with(Some(used))
}

// By what the uses of the epochs that have ended come to.
#[tactic(auto, unfolding(crate::specs::Steps::counts_with))]
fn counts_with(kept: &Kept, epoch: u32, uses: &[Use]) -> Counts
    requires few { epoch ≤ 10000 }
    requires small { IsSmall epoch kept.now.counts }
    ensures exact { result ≡ counts_with kept.now epoch uses.now }
    ensures small { IsSmall (epoch + 1) result }
{
    if uses.len() > kept.length {
        with_open(kept.counts, epoch, gap_of(kept, epoch), latest(uses))
    } else {
        kept.counts
    }
}

// Those of all guests in the open epoch, the one of this number.
pub(crate) fn count_all(epoch: u32, kept: &[Kept], guests: &[RecordedGuest], counts: &mut [Counts])
    requires few { epoch ≤ 10000 }
    requires kept { length kept.now ≡ length guests.now }
    requires counts { length counts.old ≡ length guests.now }
    requires small { AreKeptSmall epoch kept.now }
    ensures exact { counts.new ≡ counted_all epoch kept.now guests.now }
    ensures small { AreSmall (epoch + 1) counts.new }
{
    for place in 0..counts.len() {
        let guest = &guests[place];
        counts[place] = counts_with(&kept[place], epoch, &guest.uses);
    }
}
