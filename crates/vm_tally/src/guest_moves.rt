// What a boundary tells of each guest.
ghost use Rattle.std.specs.Prelude.{◌≡◌};
ghost use Rattle.vm_tally.specs.Counting.{sum_each};
ghost use Rattle.vm_tally.specs.GuestEntries.{entries_of, given_up_by, paged_by, revoked_for, revoked_from};
ghost use Rattle.vm_tally.specs.GuestTally.{each_with_more, entries_in};

use crate::guest_column::Column;
use vm_host::{Answer, Boundary};
use vm_plan::{Plan, Stretch};
use vm_reclaim::Paged;

// The entries of these stretches.
fn add_stretches(column: &mut Column, stretches: &[Stretch])
    ensures { column.new ≡ each_with_more (λ p. sum_each (entries_in p) stretches.now) column.old }
{
    for stretch in stretches {
        column.add(stretch.position, stretch.count);
    }
}

// The entries of a plan.
pub(crate) fn add_plan(column: &mut Column, plan: &Plan)
    ensures { column.new ≡ each_with_more (λ p. entries_of p plan.now) column.old }
{
    add_stretches(column, plan.stretches());
}

// The entries of the revocations for these lines.
fn add_revoked_for(column: &mut Column, answers: &[Answer])
    ensures { column.new ≡ each_with_more (λ p. sum_each (revoked_for p) answers.now) column.old }
{
    for answer in answers {
        add_plan(column, answer.revocations());
    }
}

// The entries of all revocations.
pub(crate) fn add_revoked(column: &mut Column, told: &Boundary)
    ensures { column.new ≡ each_with_more (λ p. revoked_from p told.now) column.old }
{
    add_revoked_for(column, told.answers.as_slice());
    add_plan(column, &told.revoked);
}

// The frames that were given up here.
fn add_frames(column: &mut Column, paging: &[Paged])
    ensures { column.new ≡ each_with_more (λ p. sum_each (given_up_by p) paging.now) column.old }
{
    for paged in paging {
        column.add(paged.position, paged.count);
    }
}

// The frames that guests gave up in paging.
pub(crate) fn add_paged(column: &mut Column, told: &Boundary)
    ensures { column.new ≡ each_with_more (λ p. paged_by p told.now) column.old }
{
    add_frames(column, told.paged.as_slice());
}

// One for each of these guests.
pub(crate) fn add_each(column: &mut Column, positions: &[u32])
    ensures { column.new ≡ each_with_more (λ p. entries_of p positions.now) column.old }
{
    for position in positions {
        column.add(*position, 1);
    }
}
