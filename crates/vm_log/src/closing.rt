// The end of an epoch: it is kept, or taken back.
ghost use Rattle.std.specs.Prelude.{◌≡◌, ◌<◌, length};
ghost use Rattle.vm_log.specs.Steps.{all_taken_back, back_at, kept_all, kept_with, taken_back};

use crate::kept::Kept;
use crate::raising::resize;
use vm_recorded::{Counts, RecordedGuest};
use vm_samples::Policy;

fn kept_with(kept: &Kept, guest: &RecordedGuest, counts: Counts) -> Kept
    ensures { result ≡ kept_with kept.now guest.now counts }
{
    Kept {
        rules: kept.rules,
        is_new: false,
        first: guest.first,
        size: guest.size,
        length: guest.uses.len(),
        counts,
    }
}

// The open epoch has ended.
pub(crate) fn keep_all(guests: &[RecordedGuest], counts: &[Counts], kept: &mut [Kept])
    requires kept { length kept.old ≡ length guests.now }
    requires counts { length counts.now ≡ length guests.now }
    ensures { kept.new ≡ kept_all guests.now counts.now kept.old }
{
    for place in 0..kept.len() {
        kept[place] = kept_with(&kept[place], &guests[place], counts[place]);
    }
}

#[tactic(auto, unfolding(crate::specs::Steps::taken_back))]
fn take_back(policy: &Policy, kept: &Kept, guest: &mut RecordedGuest)
    ensures { guest.new ≡ taken_back policy.now.most kept.now guest.old }
{
    guest.uses.truncate(kept.length);
    guest.first = kept.first;
    resize(policy, kept.rules, guest, kept.size);
}

fn take_back_at(policy: &Policy, kept: &Kept, guests: &mut Vec<RecordedGuest>, place: usize)
    requires { place < length guests.old.items }
    ensures { guests.new.items ≡ back_at policy.now.most kept.now place guests.old.items }
{
    if kept.is_new {
        let _guest = guests.remove(place);
        return;
    }
    take_back(policy, kept, &mut guests[place]);
}

// The open epoch is taken back: who was new in it goes.
pub(crate) fn take_back_all(policy: &Policy, kept: &[Kept], guests: &mut Vec<RecordedGuest>)
    requires { length kept.now ≡ length guests.old.items }
    ensures { guests.new.items ≡ all_taken_back policy.now.most kept.now guests.old.items }
{
    let mut place = kept.len();
    while place > 0 {
        place -= 1;
        take_back_at(policy, &kept[place], guests, place);
    }
}
