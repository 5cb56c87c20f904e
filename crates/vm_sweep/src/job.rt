//! Runs as jobs on threads, each thread with a configuration.
ghost use Rattle.std.specs.Prelude.{◌≡◌, ◌+◌, ◌%◌, ◌^◌, IfSome};
ghost use Rattle.vm_config.specs.declared.config.Config.{Config as Configuration};
ghost use Rattle.vm_sweep.specs.Combinations.{varied};
ghost use Rattle.vm_sweep.specs.Orders.{IsVaried, Shape, shape_of};
ghost use Rattle.vm_sweep.specs.Outcomes.{Tells};
ghost use Rattle.vm_sweep.specs.Rounds.{CanRun};
ghost use Rattle.vm_variants.specs.Changes.{changed};

use crate::outcome::{Detail, Outcome, run_told};
use crate::task::Task;
use crate::variant::{Variant, added_of};
use crate::workplace::Workplace;
use std::alloc::Global;
use std::marker::Model;
use std::snapshot::Snapshot;
use vm_config::Config;
use vm_variants::{add_to_seeds, law_runs, law_seeds};

/// A run that is wanted. To a contract it is what it has in the place of the configuration's own, that configuration, and what is told
/// of it.
#[derive(Drop)]
pub(crate) struct RunJob {
    variant: Variant,
    detail: Detail,
    base: Snapshot<Config>,
}

impl Model for RunJob {
    ghost use Rattle.vm_sweep.specs.Orders.{Order};

    ghost Value = { Order };

    ghost view = { λ j. record { base = j.base.value; variant = j.variant; detail = j.detail } };
}

impl RunJob {
    /// A run of this configuration, with this in the place of its own.
    pub(crate) fn new(detail: Detail, variant: Variant, base: &Config) -> Self
        ensures base { result.base ≡ base.now }
        ensures variant { result.variant ≡ variant }
        ensures detail { result.detail ≡ detail }
    {
        RunJob {
            variant,
            detail,
            base: Snapshot::of(base),
        }
    }
}

/// A run that was asked for, and what is told of it where there was memory. To a contract it is what was asked for; its type
/// keeps that what is told is of that.
#[derive(Drop)]
pub(crate) struct RunDone {
    variant: Variant,
    detail: Detail,
    base: Snapshot<Config>,
    outcome: Option<Outcome>,
}

impl Model for RunDone {
    ghost use Rattle.std.specs.Prelude.{◌≡◌, IfSome};
    ghost use Rattle.vm_sweep.specs.Combinations.{varied};
    ghost use Rattle.vm_sweep.specs.Orders.{Order};
    ghost use Rattle.vm_sweep.specs.Outcomes.{Tells};

    ghost Value = { Order };

    ghost view = { λ d. record { base = d.base.value; variant = d.variant; detail = d.detail } };

    ghost invariant = { λ d. IfSome d.outcome (Tells d.detail d.variant (varied d.variant d.base.value)) };
}

impl RunDone {
    /// What the run had in the place of the configuration's own.
    pub(crate) fn variant(&self) -> &Variant
        ensures { result.now ≡ self.now.variant }
    {
        &self.variant
    }

    /// How much is told of it.
    pub(crate) fn detail(&self) -> Detail
        ensures { result ≡ self.now.detail }
    {
        self.detail
    }

    /// What is told of it, unless memory was refused.
    pub(crate) fn outcome(&self) -> Option<&Outcome>
        ensures { IfSome result (λ outcome. Tells self.now.detail self.now.variant
            (varied self.now.variant self.now.base) outcome.now) }
    {
        self.outcome.as_ref()
    }
}

// The configuration with what a run has in the place of its own. Before any run it was seen that no value is refused.
#[tactic(auto, unfolding(crate::specs::Combinations::varied))]
fn vary(alloc: Global, variant: &Variant, mut config: Config) -> Option<Config>
    ensures { IfSome result (λ made. made ≡ varied variant.now config) }
{
    variant.combination.apply(&mut config);
    match variant.changes.apply(alloc, &mut config) {
        Ok(()) => Some(config),
        Err(_) => None,
    }
}

// What is to be added to a seed after this, so that it is as it was.
fn negated(added: u64) -> u64
    ensures { (result + added) % 2 ^ 64 ≡ 0 }
{
    0u64.wrapping_sub(added)
}

// Takes back what a run added to seeds, so that the next one can add to them again.
fn take_back(alloc: Global, variant: &Variant, config: &mut Config)
    ensures { (before : Configuration) → config.old ≡ changed variant.now.changes before
        → config.new ≡ changed (record variant.now.changes { added = 0 }) before }
{
    law_seeds();
    add_to_seeds(alloc, config, negated(added_of(&variant.changes)));
}

// Runs the configuration of a thread with this in the place of its own.
fn run_in(place: &mut Workplace, detail: Detail, variant: &Variant) -> Option<Outcome>
    ensures told { (base : Configuration) → CanRun base (shape_of variant.now.changes) place.old
        → IfSome result (Tells detail variant.now (varied variant.now base)) }
    ensures kept { (base other : Configuration) (alike : Shape) → CanRun base (shape_of variant.now.changes) place.old
        → CanRun other alike place.old → IfSome place.new.config (IsVaried other alike) }
    ensures like { shape_of place.new.like ≡ shape_of place.old.like }
{
    law_runs();
    let taken = place.config.take()?;
    let config = vary(place.alloc, variant, taken)?;
    match run_told(place.alloc, detail, variant, config, &mut place.shelf) {
        Ok((outcome, mut left)) => {
            take_back(place.alloc, variant, &mut left);
            place.config = Some(left);
            Some(outcome)
        }
        Err(_) => None,
    }
}

impl Task for RunJob {
    ghost use Rattle.vm_sweep.specs.Orders.{shape_of};
    ghost use Rattle.vm_sweep.specs.Rounds.{CanRun};

    type Tool = Workplace;

    type Done = RunDone;

    ghost serves = { λ place job. CanRun job.base (shape_of job.variant.changes) place };

    ghost result_of = { λ job. job };

    fn run(self, place: &mut Workplace) -> RunDone {
        let RunJob {
            variant,
            detail,
            base,
        } = self;
        let outcome = run_in(place, detail, &variant);
        RunDone {
            variant,
            detail,
            base,
            outcome,
        }
    }
}
