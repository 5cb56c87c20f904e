// The policy at work.
ghost use Rattle.std.specs.Prelude.{◌≡◌, ◌≤◌, ◌^◌, All, IfOk, OnErr, OnOk, length, map};
ghost use Rattle.vm_plan.specs.PlanRow.{rows_of};
ghost use Rattle.vm_steer.specs.Entries.{names_in};
ghost use Rattle.vm_steer.specs.Names.{AreRising};
ghost use Rattle.vm_steer.specs.Steering.{begun, steered};
ghost use Rattle.vm_steer.specs.Text.{text_of};
ghost use Rattle.vm_steer.specs.Told.{next_told, rest_of, rows_in, told_by};

use crate::decide::{decide, free_of, may_rise, thresholds_of};
use crate::order::in_order;
use crate::orders::entries_of;
use crate::sight::{Around, look_around};
use crate::text::text_of;
use crate::told::Told;
use std::alloc::{AllocError, Global};
use std::marker::Model;
use vm_plan::{State, next_state};
use vm_samples::{Domain, Policy, Sample};

/// A policy, and what was told of the last good sample.
#[derive(Debug, Drop)]
pub struct Steering {
    policy: Policy,
    last: Told,
}

impl Model for Steering {
    ghost use Rattle.vm_steer.specs.Steering.{SteeringView};

    ghost Value = { SteeringView };

    ghost use Rattle.vm_steer.specs.Entries.{names_in};
    ghost use Rattle.vm_steer.specs.Names.{AreRising};

    ghost view = { λ s. record { policy = s.policy; last = s.last } };

    ghost invariant = { λ s. AreRising (names_in s.last.domains) };
}

// What is told of domains that were looked at.
#[tactic(auto, unfolding(crate::specs::Told::told_by))]
fn told_by(
    alloc: Global,
    policy: &Policy,
    last: State,
    names: &[&[u8]],
    around: &Around,
) -> Result<Told, AllocError>
    requires few { length around.now.rows.items ≤ 256 }
    requires all { length around.now.sights.items ≡ length names.now }
    requires rows { rows_of around.now.rows.items ≡ rows_in around.now.sights.items }
    requires rest { around.now.rest ≡ rest_of policy.now.overhead around.now.sights.items }
    requires small { around.now.rest ≤ 2 ^ 63 }
    requires held { All (λ row. row.target ≤ row.held) around.now.rows.items }
    ensures { let all = map (λ n. n.now) names.now in
        IfOk result (λ told. told ≡ told_by policy.now last all around.now.sights.items) }
{
    let free = free_of(policy, around.rest, &around.rows);
    let state = next_state(last, free, &thresholds_of(policy));
    let outcomes = decide(alloc, policy, state, around.rest, &around.rows)?;
    let may_rise = may_rise(policy, around.rest, &around.rows);
    let domains = entries_of(alloc, policy, may_rise, names, &around.sights, &outcomes)?;
    Ok(Told {
        state,
        free,
        domains,
    })
}

// What is told of the next sample.
fn next_told(
    alloc: Global,
    policy: &Policy,
    last: &Told,
    domains: &[Domain],
) -> Result<Told, AllocError>
    requires few { length domains.now ≤ 256 }
    requires rising { AreRising (names_in last.now.domains) }
    ensures told { IfOk result (λ told. told ≡ next_told policy.now last.now domains.now) }
    ensures rising { IfOk result (λ told. AreRising (names_in told.domains)) }
{
    let ordered = in_order(alloc, domains)?;
    let around = look_around(alloc, policy, &ordered, &last.domains)?;
    told_by(alloc, policy, last.state, &ordered.names, &around)
}

impl Steering {
    /// Before the first sample: the state is High, and nothing is remembered of any domain.
    pub fn new(alloc: Global, policy: Policy) -> Self
        ensures { result ≡ begun policy }
    {
        let free = policy.memory;
        Self {
            policy,
            last: Told {
                state: State::High,
                free,
                domains: Vec::new(alloc),
            },
        }
    }

    /// The policy.
    pub fn policy(&self) -> &Policy
        ensures { result.now ≡ self.now.policy }
    {
        &self.policy
    }

    /// What was told of the last good sample, with the numbers of each domain; before the first one no domain.
    pub fn told(&self) -> &Told
        ensures { result.now ≡ self.now.last }
    {
        &self.last
    }

    /// Takes a good sample: what is told of it is in [`Steering::told`]. A bad one is not to be given: it changes nothing.
    ///
    /// The only error is a want of memory. Nothing is changed then.
    pub fn take(&mut self, alloc: Global, sample: &Sample) -> Result<(), AllocError>
        ensures taken { OnOk result (self.new ≡ steered self.old sample.now) }
        ensures unchanged { OnErr result (self.new ≡ self.old) }
    {
        let told = next_told(alloc, &self.policy, &self.last, sample.domains())?;
        self.last = told;
        Ok(())
    }

    /// Takes a good sample, the one of this number, and gives what is written of it, to be written at once.
    ///
    /// The only error is a want of memory. Nothing is changed then.
    pub fn sample(
        &mut self,
        alloc: Global,
        number: u64,
        sample: &Sample,
    ) -> Result<Vec<u8>, AllocError>
        ensures taken { OnOk result (self.new ≡ steered self.old sample.now) }
        ensures text { IfOk result (λ text. text.items ≡ text_of number (steered self.old sample.now).last) }
        ensures unchanged { OnErr result (self.new ≡ self.old) }
    {
        let told = next_told(alloc, &self.policy, &self.last, sample.domains())?;
        let text = text_of(alloc, number, &told)?;
        self.last = told;
        Ok(text)
    }
}
