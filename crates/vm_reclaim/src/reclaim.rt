//! What a host does about its guests' memory once it is planned: targets fall, guests give up frames, targets rise, some fall for
//! guests that would pay more, and some guests are blocked.
ghost use Rattle.std.specs.Prelude.{◌≡◌, fold};
ghost use Rattle.vm_guest.specs.Boundary.{revoked};
ghost use Rattle.vm_pool.specs.Changes.{changed, granted_at};
ghost use Rattle.vm_pool.specs.CanMove.{CanGrant, CanRevoke};
ghost use Rattle.vm_reclaim.specs.Boundary.{carried_out, given_up, CanCarryOut, CanGiveUp};
ghost use Rattle.vm_reclaim.specs.Numbers.{policy_in};
ghost use Rattle.vm_reclaim.specs.Policy.{policy_of};
ghost use Rattle.vm_reclaim.specs.Reclaim.{blocks_in};

use crate::lists::{BoundaryPlan, Paged};
use crate::policy::Numbers;
use vm_domains::MachineSpec;
use vm_plan::{Plan, State, Thresholds};
use vm_pool::Pool;

/// The numbers by which a machine decides. Its thresholds are parts of its frames, each rounded down.
pub fn numbers_of(spec: &MachineSpec) -> Numbers
    ensures { policy_in result ≡ policy_of spec.now }
{
    Numbers {
        tax: spec.tax,
        thresholds: Thresholds::of(spec.frames, spec.percent),
        page_rate: spec.page_rate,
        rebalance: spec.rebalance,
    }
}

// Each of these targets falls by one, and those of one guest in a row together.
fn revoke_all(pool: &mut Pool, plan: &Plan)
    requires { CanRevoke pool.old plan.now }
    ensures { pool.new ≡ fold (changed revoked) pool.old plan.now }
{
    let stretches = plan.stretches();
    for stretch in stretches {
        pool.revoke(stretch.position as usize, stretch.count);
    }
}

// Each of these guests gives up frames.
fn give_up_all(pool: &mut Pool, paged: &[Paged])
    requires { CanGiveUp pool.old paged.now }
    ensures { pool.new ≡ fold given_up pool.old paged.now }
{
    for guest in paged {
        pool.release(guest.position as usize, guest.count);
    }
}

// Each of these targets rises by one, and those of one guest in a row together.
fn grant_all(pool: &mut Pool, plan: &Plan)
    requires { CanGrant pool.old plan.now }
    ensures { pool.new ≡ fold granted_at pool.old plan.now }
{
    let stretches = plan.stretches();
    for stretch in stretches {
        pool.grant(stretch.position as usize, stretch.count);
    }
}

/// Targets fall, guests give up frames, targets rise, and some fall for guests that would pay more, as a plan says (Waldspurger, OSDI
/// 2002, sections 5.1, 5.2 and 6.3). It takes no memory.
///
/// A guest gives up its spares first, then pages that go to swap; a frame that is granted goes to a guest only where it has none above
/// its target. No frame moves where targets fall.
pub fn carry_out(pool: &mut Pool, plan: &BoundaryPlan)
    requires { CanCarryOut pool.old plan.now }
    ensures { pool.new ≡ carried_out plan.now pool.old }
{
    revoke_all(pool, &plan.revoked);
    give_up_all(pool, plan.paged.as_slice());
    grant_all(pool, &plan.granted);
    revoke_all(pool, &plan.rebalanced);
}

/// Whether a guest that holds more than its target is blocked: in Low alone (Waldspurger, OSDI 2002, section 6.3).
pub fn blocks_in(state: State) -> bool
    ensures { result ≡ blocks_in state }
{
    match state {
        State::Low => true,
        State::High | State::Soft | State::Hard => false,
    }
}
