// What a boundary does before its lines and after them.
ghost use Rattle.std.specs.Prelude.{◌≡◌, ◌<◌, ◌⊎◌, IfOk, OnErr, OnOk, length, map, string_bytes};
ghost use Rattle.vm_host.specs.Boundary.{boundary_of, past_boundary, finished, opened_boundary, done_after_lines};
ghost use Rattle.vm_host.specs.Books.{books_of};
ghost use Rattle.vm_host.specs.Commands.{IsAfterSome};
ghost use Rattle.vm_host.specs.Parts.{world_of};
ghost use Rattle.vm_host.specs.Sound.{IsSoundWorld};
ghost use Rattle.vm_host.specs.World.{KeepsDomains};
ghost use Rattle.vm_reclaim.specs.Policy.{policy_of};

use crate::boundary::{Answer, Answers, Boundary};
use crate::obey::obey_all;
use crate::parts::Parts;
use crate::phase::Phase;
use std::alloc::{AllocError, Global};
use vm_admission::Books;
use vm_plan::next_state;
use vm_reclaim::{blocks_in, carry_out, numbers_of, plan_boundary};

// What comes before the lines: each device is served, so that an epoch may follow, and the spares above the targets come back.
fn open(parts: &mut Parts)
    ensures { world_of parts.new ≡ opened_boundary (world_of parts.old) }
{
    parts.pool.serve_all();
    parts.pool.spares_back_all();
    parts.phase = Phase::Ready;
}

// What comes after them. All of it is planned before the first move, so that where memory is refused nothing changes.
fn settle(alloc: Global, parts: &mut Parts, answers: Vec<Answer>) -> Result<Boundary, AllocError>
    requires { IsSoundWorld (world_of parts.old) }
    ensures done { OnOk result (world_of parts.new ≡ finished (policy_of parts.old.spec) (world_of parts.old)) }
    ensures told { IfOk result (λ told. told ≡ done_after_lines (policy_of parts.old.spec) (world_of parts.old) answers.items) }
    ensures kept { KeepsDomains (world_of parts.old) (world_of parts.new) }
    ensures unchanged { OnErr result (world_of parts.new ≡ world_of parts.old) }
    ensures wanted { OnErr result (0 < length parts.old.pool.guests) }
{
    let numbers = numbers_of(&parts.spec);
    let free = parts.pool.free();
    let state = next_state(parts.state, free, &numbers.thresholds);
    let plan = plan_boundary(alloc, &numbers, &parts.pool, state)?;
    parts.state = state;
    carry_out(&mut parts.pool, &plan);
    parts.pool.order_all(blocks_in(state));
    Ok(Boundary {
        answers: Answers::new(answers),
        state,
        free,
        revoked: plan.revoked,
        paged: plan.paged,
        granted: plan.granted,
        rebalanced: plan.rebalanced,
        blocked: plan.blocked,
    })
}

// The whole of a boundary. Where memory is refused, it ends after some of the lines.
pub(crate) fn bound(
    alloc: Global,
    parts: &mut Parts,
    books: &mut Books,
    lines: &[String],
) -> Result<Boundary, AllocError>
    requires sound { IsSoundWorld (world_of parts.old) }
    requires booked { books.old ≡ books_of (world_of parts.old) }
    ensures done { OnOk result (world_of parts.new ≡ past_boundary (world_of parts.old) (map string_bytes lines.now)) }
    ensures told { IfOk result (λ told. told ≡ boundary_of (world_of parts.old) (map string_bytes lines.now)) }
    ensures booked { OnOk result (books.new ≡ books_of (world_of parts.new)) }
    ensures memory { OnErr result (IsAfterSome (policy_of parts.old.spec) (opened_boundary (world_of parts.old)) (map string_bytes lines.now) (world_of parts.new)) }
    ensures wanted { OnErr result ((0 < length parts.old.names) ⊎ (0 < length lines.now)) }
    ensures kept { KeepsDomains (world_of parts.old) (world_of parts.new) }
{
    open(parts);
    let answers = obey_all(alloc, parts, books, lines)?;
    settle(alloc, parts, answers)
}
