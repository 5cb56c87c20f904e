// What was seen of each guest.
ghost use Rattle.std.specs.Prelude.{◌≡◌, ◌<◌, IfOk, length, replicate, slice_index_or, slice_set};
ghost use Rattle.vm_host.specs.World.{guest_at};
ghost use Rattle.vm_tally.specs.GuestTally.{all_seen_after, all_seen_ready, seen_after, seen_ready, unseen};

use crate::guest_counts::counts_at;
use std::alloc::{AllocError, Global};
use std::marker::Model;
use vm_host::Host;

// What was seen of a guest so far, between boundaries and epochs. `executed` are the steps of its trace since its last start, when it
// was last seen.
#[derive(Clone, Copy)]
pub(crate) struct Sighting {
    pub(crate) epochs: u64,
    pub(crate) evicted: u64,
    pub(crate) stalls: u64,
    pub(crate) done: u64,
    pub(crate) executed: u64,
    pub(crate) most_swapped: u64,
}

pub(crate) const UNSEEN: Sighting = Sighting {
    epochs: 0,
    evicted: 0,
    stalls: 0,
    done: 0,
    executed: 0,
    most_swapped: 0,
};

// The sighting of a guest, with what the host that a boundary left shows of it.
fn seen_ready(seen: Sighting, host: &Host, position: usize) -> Sighting
    ensures { result ≡ seen_ready (guest_at host.now position) seen }
{
    let (runs, executed, swapped) = match host.view(position) {
        Some(view) => (true, view.done, view.swapped),
        None => (false, 0, 0),
    };
    Sighting {
        epochs: seen.epochs.saturating_add(u64::from(runs)),
        executed: u64::from(executed),
        most_swapped: seen.most_swapped.max(u64::from(swapped)),
        ..seen
    }
}

// The sighting of a guest, with what the host that an epoch left shows of it.
fn seen_after(seen: Sighting, host: &Host, position: usize) -> Sighting
    ensures { result ≡ seen_after (guest_at host.now position) seen }
{
    let counts = counts_at(host, position);
    let done = counts.executed.saturating_sub(seen.executed);
    Sighting {
        evicted: seen.evicted.saturating_add(counts.evicted),
        stalls: seen.stalls.saturating_add(counts.stalled),
        done: seen.done.saturating_add(done),
        executed: counts.executed,
        most_swapped: seen.most_swapped.max(counts.swapped),
        ..seen
    }
}

// What was seen of each guest, by position. It reads as the list of them.
#[derive(Drop)]
pub(crate) struct Sightings {
    guests: Vec<Sighting>,
}

impl Model for Sightings {
    ghost use Rattle.std.specs.Prelude.{List};
    ghost use Rattle.vm_tally.specs.declared.guest_sightings.Sighting.{Sighting};

    ghost Value = { List Sighting };

    ghost view = { λ s. s.guests.items };
}

impl Sightings {
    // Of so many guests nothing was seen.
    pub(crate) fn new(alloc: Global, guests: usize) -> Result<Self, AllocError>
        ensures { IfOk result (λ seen. seen ≡ replicate guests unseen) }
    {
        Ok(Sightings {
            guests: vec![in alloc; UNSEEN; guests]?,
        })
    }

    // How many guests there are.
    pub(crate) fn len(&self) -> usize
        ensures { result ≡ length self.now }
    {
        self.guests.len()
    }

    // What was seen of the guest at a position, if there is one.
    pub(crate) fn at(&self, position: usize) -> Sighting
        ensures { result ≡ slice_index_or self.now position unseen }
    {
        self.guests.get(position).copied().unwrap_or(UNSEEN)
    }

    // Looks at one guest of the host that a boundary left.
    fn see_ready(&mut self, host: &Host, position: usize)
        requires { position < length self.old }
        ensures { self.new ≡ slice_set self.old position (seen_ready (guest_at host.now position) (slice_index_or self.old position unseen)) }
    {
        self.guests[position] = seen_ready(self.at(position), host, position);
    }

    // Looks at one guest of the host that an epoch left.
    fn see_after(&mut self, host: &Host, position: usize)
        requires { position < length self.old }
        ensures { self.new ≡ slice_set self.old position (seen_after (guest_at host.now position) (slice_index_or self.old position unseen)) }
    {
        self.guests[position] = seen_after(self.at(position), host, position);
    }

    // Looks at the guests of the host that a boundary left.
    pub(crate) fn see_all_ready(&mut self, host: &Host)
        ensures { self.new ≡ all_seen_ready host.now self.old }
    {
        for position in 0..self.len() {
            self.see_ready(host, position);
        }
    }

    // Looks at the guests of the host that an epoch left.
    pub(crate) fn see_all_after(&mut self, host: &Host)
        ensures { self.new ≡ all_seen_after host.now self.old }
    {
        for position in 0..self.len() {
            self.see_after(host, position);
        }
    }
}
