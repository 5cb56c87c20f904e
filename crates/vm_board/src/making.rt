//! Making a board.
ghost use Rattle.std.specs.Prelude.{◌≡◌, ◌<◌, ◌≤◌, ◌+◌, length, [], ◌∷◌, ◌++◌, map, All, IfOk, IfErr, OnErr, vec_len, vec_capacity};
ghost use Rattle.vm_board.specs.Values.{values};
ghost use Rattle.vm_board.specs.Hands.{newcomer};
ghost use Rattle.vm_board.specs.Boards.{IsNew};

use crate::board::{Board, Place, Plan, Tickets};
use crate::jobs::{Jobs, Refused, Room};
use crate::pass::{Pass, Passes};
use crate::plays::Another;
use crate::work::Work;
use atomic_table::Table;
use std::alloc::{AllocError, Global};
use std::snapshot::Snapshot;

impl<J: Work> Board<J> {
    /// A board with these jobs, and `seats` passes that have drawn nothing yet.
    ///
    /// Makes room for all that `draw`, `finish` and `close` need. Where a request for memory is refused the jobs come
    /// back, none run.
    pub fn new(
        alloc: Global,
        jobs: Jobs<J>,
        seats: u32,
    ) -> Result<(Board<J>, Passes<J>), Refused<J>>
        requires few { length jobs ≤ 256 }
        requires seats { (0 < seats) × (seats ≤ 64) }
        requires ready { All J.ready jobs }
        ensures board { IfOk result (λ b. (b.0.jobs ≡ jobs) × (b.0.seats ≡ seats)) }
        ensures passes { IfOk result (λ b. (vec_len b.1.list ≡ seats) × All (IsNew b.0) b.1.list.items) }
        ensures room { IfOk result (λ b. length jobs ≤ b.1.room) }
        ensures err { IfErr result (λ e. e.jobs ≡ jobs) }
    {
        let Jobs { mut list } = jobs;
        let Ok(passes) = Vec::with_capacity(alloc, seats as usize) else {
            return Err(Refused {
                jobs: Jobs { list },
            });
        };
        let plan = Plan {
            jobs: Snapshot::of(&list),
            seats: seats as u64,
        };
        match lay(alloc, &mut list, &plan) {
            Ok((table, seat)) => {
                let board = Board { table };
                let passes = board.deal(seat, passes, seats);
                let room = Room { list };
                Ok((board, Passes { list: passes, room }))
            }
            Err(AllocError) => {
                passes.destroy_empty();
                Err(Refused {
                    jobs: Jobs { list },
                })
            }
        }
    }

    // The seat is cut into one pass for each that it stands for.
    fn deal(&self, mut seat: Place<J>, mut passes: Vec<Pass<J>>, seats: u32) -> Vec<Pass<J>>
        requires seat { (seat.table_id ≡ self.now.id) × (seat.me ≡ (newcomer seats, [])) × (0 < seats) }
        requires room { (passes.items ≡ []) × (seats ≤ vec_capacity passes) }
        ensures { (vec_len result ≡ seats) × All (IsNew self.now) result.items }
    {
        for _ in 1..seats {
            let other = self.table.shared.split_seat::<Another>(&mut seat);
            passes.push_reserved(Pass {
                seat: other,
                over: false,
            });
        }
        passes.push_reserved(Pass { seat, over: false });
        passes
    }
}

// The table with its jobs in the slots, and a seat that stands for all passes. Or else the jobs stay.
fn lay<J: Work>(
    alloc: Global,
    jobs: &mut Vec<J>,
    plan: &Plan<J>,
) -> Result<(Tickets<J>, Place<J>), AllocError>
    requires few { vec_len jobs.old ≤ 256 }
    requires ready { All J.ready jobs.old.items }
    requires plan { (plan.now.jobs.value.items ≡ jobs.old.items) × (0 < plan.now.seats) × (plan.now.seats ≤ 64) }
    ensures table { IfOk result (λ t. (t.0.shared.table_id.words ≡ length jobs.old.items + 1) × (t.0.shared.table_id.slots ≡ length jobs.old.items) × (t.0.shared.key ≡ plan.now)) }
    ensures seat { IfOk result (λ t. (t.1.table_id ≡ t.0.shared.table_id) × (t.1.me ≡ (newcomer plan.now.seats, []))) }
    ensures moved { IfOk result (λ t. jobs.new.items ≡ []) }
    ensures err { OnErr result (jobs.new.items ≡ jobs.old.items) }
    ensures room { vec_capacity jobs.old ≤ vec_capacity jobs.new }
{
    let words = Vec::from_elem(alloc, 0u64, jobs.len() + 1)?;
    let mut slots = Vec::with_capacity(alloc, jobs.len())?;
    pack(jobs, &mut slots);
    match Table::new(alloc, words.as_slice(), slots, plan) {
        Ok(made) => Ok(made),
        Err(refused) => {
            unpack(refused.slots, jobs);
            Err(AllocError)
        }
    }
}

// Moves the jobs into slots, in order.
fn pack<J>(jobs: &mut Vec<J>, slots: &mut Vec<Option<J>>)
    requires { (slots.old.items ≡ []) × (vec_len jobs.old ≤ vec_capacity slots.old) }
    ensures jobs { (jobs.new.items ≡ []) × (vec_capacity jobs.new ≡ vec_capacity jobs.old) }
    ensures slots { slots.new.items ≡ map Some jobs.old.items }
{
    jobs.reverse();
    while let Some(job) = jobs.pop() {
        slots.push_reserved(Some(job));
    }
}

// Moves the jobs of slots back, in order.
fn unpack<J>(mut slots: Vec<Option<J>>, jobs: &mut Vec<J>)
    requires { (jobs.old.items ≡ []) × (vec_len slots ≤ vec_capacity jobs.old) }
    ensures items { jobs.new.items ≡ values slots.items }
    ensures room { vec_capacity jobs.old ≤ vec_capacity jobs.new }
{
    slots.reverse();
    while let Some(slot) = slots.pop() {
        put_in(jobs, slot);
    }
    slots.destroy_empty();
}

/// Puts the job of a slot behind the others, if the slot has one.
pub(crate) fn put_in<J>(list: &mut Vec<J>, slot: Option<J>)
    requires { vec_len list.old < vec_capacity list.old }
    ensures items { list.new.items ≡ list.old.items ++ values (slot ∷ []) }
    ensures room { (vec_len list.new ≤ vec_len list.old + 1) × (vec_capacity list.new ≡ vec_capacity list.old) }
{
    if let Some(job) = slot {
        list.push_reserved(job);
    }
}
