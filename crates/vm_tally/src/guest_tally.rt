// What was counted of the guests of a run so far.
ghost use Rattle.std.specs.Prelude.{◌≡◌, IfOk, length, map};
ghost use Rattle.std.specs.List.{range_with_len};
ghost use Rattle.vm_tally.specs.GuestSummary.{at_end_in};
ghost use Rattle.vm_tally.specs.GuestTally.{empty_tally, summary_at, with_boundary, with_epoch};

use crate::guest_column::Column;
use crate::guest_counts::left_at;
use crate::guest_moves::{add_each, add_paged, add_plan, add_revoked};
use crate::guest_sightings::Sightings;
use crate::guest_summary::{AtEnd, GuestSummary};
use std::alloc::{AllocError, Global};
use std::marker::Model;
use vm_host::{Boundary, Host};

// What was counted of the guests so far. A list of moves adds to a column; what a host shows of a guest adds to its sighting.
#[derive(Drop)]
pub(crate) struct GuestTally {
    revoked: Column,
    paged: Column,
    granted: Column,
    rebalanced: Column,
    blocked: Column,
    seen: Sightings,
}

impl Model for GuestTally {
    ghost use Rattle.vm_tally.specs.GuestTally.{Tally};

    ghost Value = { Tally };

    ghost view = { λ t. record { revoked = t.revoked; paged = t.paged; granted = t.granted; rebalanced = t.rebalanced; blocked = t.blocked; seen = t.seen } };
}

// What holds of the guest at a position of the host that a run leaves, if one runs there.
fn at_end(host: &Host, position: usize) -> Option<AtEnd>
    ensures { result ≡ at_end_in host.now position }
{
    let view = host.view(position)?;
    Some(AtEnd {
        left: left_at(host, position),
        target: view.target,
        held: view.held,
        swapped: view.swapped,
        balloon: view.balloon,
    })
}

impl GuestTally {
    // Nothing is counted of so many guests.
    pub(crate) fn new(alloc: Global, guests: usize) -> Result<Self, AllocError>
        ensures { IfOk result (λ tally. tally ≡ empty_tally guests) }
    {
        Ok(GuestTally {
            revoked: Column::new(alloc, guests)?,
            paged: Column::new(alloc, guests)?,
            granted: Column::new(alloc, guests)?,
            rebalanced: Column::new(alloc, guests)?,
            blocked: Column::new(alloc, guests)?,
            seen: Sightings::new(alloc, guests)?,
        })
    }

    // A boundary told this, and left this host.
    pub(crate) fn add_boundary(&mut self, told: &Boundary, host: &Host)
        ensures { self.new ≡ with_boundary told.now host.now self.old }
    {
        add_revoked(&mut self.revoked, told);
        add_paged(&mut self.paged, told);
        add_plan(&mut self.granted, &told.granted);
        add_plan(&mut self.rebalanced, &told.rebalanced);
        add_each(&mut self.blocked, told.blocked.as_slice());
        self.seen.see_all_ready(host);
    }

    // An epoch left this host.
    pub(crate) fn add_epoch(&mut self, host: &Host)
        ensures { self.new ≡ with_epoch host.now self.old }
    {
        self.seen.see_all_after(host);
    }

    // What is told of the guest at a position, where the run left this host.
    fn summary_at(&self, host: &Host, position: usize) -> GuestSummary
        ensures { result ≡ summary_at self.now host.now position }
    {
        let seen = self.seen.at(position);
        GuestSummary {
            epochs: seen.epochs,
            revoked: self.revoked.at(position),
            paged: self.paged.at(position),
            evicted: seen.evicted,
            granted: self.granted.at(position),
            rebalanced: self.rebalanced.at(position),
            blocked: self.blocked.at(position),
            stalls: seen.stalls,
            done: seen.done,
            most_swapped: seen.most_swapped,
            at_end: at_end(host, position),
        }
    }

    // The same of each guest, in order.
    pub(crate) fn summaries(
        &self,
        alloc: Global,
        host: &Host,
    ) -> Result<Vec<GuestSummary>, AllocError>
        ensures { IfOk result (λ told. told.items ≡ map (summary_at self.now host.now) (range_with_len 0 (length self.now.seen))) }
    {
        let mut told = Vec::with_capacity(alloc, self.seen.len())?;
        for position in 0..self.seen.len() {
            told.push(self.summary_at(host, position))?;
        }
        Ok(told)
    }
}
