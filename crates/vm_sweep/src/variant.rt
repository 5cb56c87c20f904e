//! What a run has in the place of its configuration's own.
ghost use Rattle.std.specs.Prelude.{◌≡◌, ◌++◌, ◌∷◌, [], IfOk, OnOk, Some, map};
ghost use Rattle.vm_sweep.specs.Combinations.{Allows, listed, numbers_of, own_of, seed_of, with_looped};
ghost use Rattle.vm_variants.specs.Changes.{IsPercent};

use std::alloc::{AllocError, Global};
use vm_config::{Config, Setting};
use vm_tally::Combination;
use vm_variants::{Changes, GuestValue};

/// A number that a loop of a sweep gives values.
#[derive(Clone, Copy)]
pub(crate) enum Looped {
    /// A setting of the machine.
    Machine(Setting),
    /// The percentage of its size that each guest has as its minimum.
    Percent,
    /// The minimum of the guest at a place.
    Minimum(usize),
    /// The shares of the guest at a place.
    Shares(usize),
    /// What is added to each seed.
    Seed,
}

/// What a run has in the place of its configuration's own.
#[derive(Drop)]
pub(crate) struct Variant {
    pub(crate) combination: Combination,
    pub(crate) changes: Changes,
    /// Whether what is added to seeds is one of several numbers.
    pub(crate) is_seeded: bool,
}

/// The percentage of its size that each guest has as its minimum, if there is one.
pub(crate) fn percent_of(changes: &Changes) -> Option<u32>
    ensures { result ≡ changes.now.percent }
{
    changes.percent
}

/// What is added to each seed.
pub(crate) fn added_of(changes: &Changes) -> u64
    ensures { result ≡ changes.now.added }
{
    changes.added
}

/// The same changes in memory of their own.
pub(crate) fn copied(changes: &Changes) -> Result<Changes, AllocError>
    ensures { IfOk result (λ copy. copy ≡ changes.now) }
{
    Ok(Changes {
        percent: changes.percent,
        minimums: changes.minimums.clone()?,
        shares: changes.shares.clone()?,
        added: changes.added,
    })
}

fn set_percent(changes: &mut Changes, percent: u32)
    requires { IsPercent percent }
    ensures { changes.new ≡ record changes.old { percent = Some percent } }
{
    changes.percent = Some(percent);
}

fn push_minimum(changes: &mut Changes, value: GuestValue) -> Result<(), AllocError>
    ensures { OnOk result (changes.new ≡ record changes.old { minimums = changes.old.minimums ++ value ∷ [] }) }
{
    changes.minimums.push(value)?;
    Ok(())
}

fn push_shares(changes: &mut Changes, value: GuestValue) -> Result<(), AllocError>
    ensures { OnOk result (changes.new ≡ record changes.old { shares = changes.old.shares ++ value ∷ [] }) }
{
    changes.shares.push(value)?;
    Ok(())
}

fn set_added(changes: &mut Changes, added: u64)
    ensures { changes.new ≡ record changes.old { added = added } }
{
    changes.added = added;
}

// A number behind the others, if there is one.
fn push_listed(numbers: &mut Vec<u64>, number: Option<u64>) -> Result<(), AllocError>
    ensures { OnOk result (numbers.new.items ≡ numbers.old.items ++ listed number) }
{
    if let Some(number) = number {
        numbers.push(number)?;
    }
    Ok(())
}

// The values of guests behind the others.
fn push_values(numbers: &mut Vec<u64>, values: &[GuestValue]) -> Result<(), AllocError>
    ensures { OnOk result (numbers.new.items ≡ numbers.old.items ++ map (λ m. m.value) values.now) }
{
    for one in values {
        numbers.push(u64::from(one.value))?;
    }
    Ok(())
}

fn widened(number: Option<u32>) -> Option<u64>
    ensures { result ≡ number }
{
    match number {
        Some(number) => Some(u64::from(number)),
        None => None,
    }
}

impl Variant {
    /// What a configuration has of its own.
    pub(crate) fn own_of(alloc: Global, config: &Config) -> Variant
        ensures { result ≡ own_of config.now }
    {
        Variant {
            combination: Combination::of(config),
            changes: Changes::new(alloc),
            is_seeded: false,
        }
    }

    // The same in memory of its own.
    fn copy(&self) -> Result<Variant, AllocError>
        ensures { IfOk result (λ copy. copy ≡ self.now) }
    {
        Ok(Variant {
            combination: self.combination,
            changes: copied(&self.changes)?,
            is_seeded: self.is_seeded,
        })
    }

    // Gives one of its numbers this value.
    fn set(&mut self, what: Looped, value: u32) -> Result<(), AllocError>
        requires { Allows what value }
        ensures { OnOk result (self.new ≡ with_looped what value self.old) }
    {
        match what {
            Looped::Machine(setting) => {
                self.combination = self.combination.with(setting, value);
                Ok(())
            }
            Looped::Percent => {
                set_percent(&mut self.changes, value);
                Ok(())
            }
            Looped::Minimum(place) => push_minimum(&mut self.changes, GuestValue { place, value }),
            Looped::Shares(place) => push_shares(&mut self.changes, GuestValue { place, value }),
            Looped::Seed => {
                set_added(&mut self.changes, u64::from(value));
                self.is_seeded = true;
                Ok(())
            }
        }
    }

    /// The same with this value for one of its numbers.
    pub(crate) fn with(&self, what: Looped, value: u32) -> Result<Variant, AllocError>
        requires { Allows what value }
        ensures { IfOk result (λ variant. variant ≡ with_looped what value self.now) }
    {
        let mut other = self.copy()?;
        other.set(what, value)?;
        Ok(other)
    }

    // What is added to each seed, where the runs differ in that.
    fn seed(&self) -> Option<u64>
        ensures { result ≡ seed_of self.now }
    {
        if self.is_seeded {
            Some(added_of(&self.changes))
        } else {
            None
        }
    }

    /// Its numbers behind those of the machine, in the order of the loops.
    pub(crate) fn numbers(&self, alloc: Global) -> Result<Vec<u64>, AllocError>
        ensures { IfOk result (λ numbers. numbers.items ≡ numbers_of self.now) }
    {
        let mut numbers = Vec::new(alloc);
        push_listed(&mut numbers, widened(percent_of(&self.changes)))?;
        push_values(&mut numbers, &self.changes.minimums)?;
        push_values(&mut numbers, &self.changes.shares)?;
        push_listed(&mut numbers, self.seed())?;
        Ok(numbers)
    }
}
