// The numbers of a steered domain in one sample.
ghost use Rattle.std.specs.Prelude.{◌≡◌, ◌≤◌, IfSome};
ghost use Rattle.vm_plan.specs.PlanRow.{row_of as plan_row};
ghost use Rattle.vm_samples.specs.Policies.{IsPolicy};
ghost use Rattle.vm_steer.specs.Look.{full_of, numbers_of};
ghost use Rattle.vm_steer.specs.NumbersView.{row_of};
ghost use Rattle.vm_steer.specs.Remembered.{RememberedView};

use crate::balloon::Balloon;
use crate::limits::{Limits, demand_of, limits_believed, limits_of};
use crate::measures::{Measures, measures_of};
use crate::remembered::Remembered;
use crate::rules::Rules;
use std::marker::Model;
use vm_plan::PlanRow;
use vm_samples::Policy;

// The numbers of a steered domain, before anything is decided. Its type keeps their ranges.
#[derive(Clone, Copy)]
pub(crate) struct Numbers {
    pub(crate) measures: Measures,
    pub(crate) limits: Limits,
    pub(crate) shares: u32,
    pub(crate) demand: u32,
    pub(crate) size: u32,
    // The KiB that stand for its size in an order.
    pub(crate) full: u64,
}

impl Model for Numbers {
    ghost use Rattle.vm_steer.specs.NumbersView.{AreInRange, NumbersView};

    ghost Value = { NumbersView };

    ghost view = { λ n. record { measures = n.measures; limits = n.limits; shares = n.shares; demand = n.demand; size = n.size; full = n.full } };

    ghost invariant = { λ n. AreInRange (record { measures = n.measures; limits = n.limits; shares = n.shares; demand = n.demand; size = n.size; full = n.full }) };

    ghost inverse = { λ v. record { measures = v.measures; limits = v.limits; shares = v.shares; demand = v.demand; size = v.size; full = v.full } };
}

// The KiB that stand for a domain's size in an order.
fn full_of(unit: u32, maximum: u64, size: u32, greatest: Option<u64>) -> u64
    ensures { result ≡ full_of unit maximum size greatest }
{
    match greatest {
        Some(most) if u128::from(most) * u128::from(unit) < u128::from(maximum) => {
            u64::from(size) * u64::from(unit)
        }
        _ => maximum,
    }
}

impl Numbers {
    // What the policy of memory knows of it.
    pub(crate) fn row(&self) -> PlanRow
        ensures row { plan_row result ≡ row_of self.now }
        ensures held { result.target ≤ result.held }
    {
        PlanRow {
            shares: self.shares,
            active: self.measures.active,
            min: self.limits.min,
            cap: self.limits.cap,
            target: self.limits.target,
            held: self.measures.held.max(self.limits.target),
            used: self.measures.used,
            demand: u64::from(self.demand),
        }
    }
}

// Those of a domain whose balloon is told, and whose size is 1 to 262144.
#[tactic(auto, unfolding(crate::specs::Look::numbers_of))]
pub(crate) fn numbers_of(
    policy: &Policy,
    rules: Rules,
    last: &Option<Remembered>,
    balloon: &Balloon,
    size: u32,
) -> Numbers
    requires some { 1 ≤ size }
    requires few { size ≤ 262144 }
    requires some_max { IfSome rules.max (λ n. 1 ≤ n) }
    requires some_shares { 1 ≤ rules.shares }
    requires few_shares { rules.shares ≤ 1000000 }
    ensures { result ≡ numbers_of policy.now rules last.now balloon.now size }
{
    let measures = measures_of(policy.unit, policy.cache, last, balloon, size);
    let held = measures.held;
    let by_policy = limits_of(policy.most, policy.patience, rules, last, size, held);
    let limits = limits_believed(policy.patience, held, by_policy);
    Numbers {
        measures,
        limits,
        shares: rules.shares,
        demand: demand_of(policy.headroom, measures.used, limits.cap, limits.target),
        size,
        full: full_of(policy.unit, balloon.maximum, size, rules.max),
    }
}
