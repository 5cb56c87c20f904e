// Domains that are left alone.
ghost use Rattle.std.specs.Prelude.{◌≡◌, OnOk, map, max};
ghost use Rattle.vm_log.specs.Seen.{left_in};
ghost use Rattle.vm_log.specs.Steps.{alone_back, alone_names, kept_alone, new_alone, put_at, raised_alone};
ghost use Rattle.vm_steer.specs.Entries.{names_in};
ghost use Rattle.vm_steer.specs.Names.{AreRising};

use crate::entries::left_in;
use crate::named::{is_at, place_of};
use std::alloc::{AllocError, Global};
use std::marker::Model;
use vm_steer::Entry;

// A domain that is left alone in a sample at least, and the most units that it held then.
#[derive(Debug, Drop)]
pub(crate) struct Alone {
    pub(crate) name: Vec<u8>,
    // In all epochs that have ended.
    pub(crate) before: u64,
    // In the open one too.
    pub(crate) most: u64,
}

impl Model for Alone {
    ghost use Rattle.vm_log.specs.Alone.{AloneView};

    ghost Value = { AloneView };

    ghost view = { λ a. record { name = a.name.items; before = a.before; most = a.most } };
}

// Adds a domain with a name at its place, unless it is there.
pub(crate) fn add_alone(
    alloc: Global,
    beside: &mut Vec<Alone>,
    name: &[u8],
) -> Result<(), AllocError>
    requires { AreRising (alone_names beside.old.items) }
    ensures { OnOk result (beside.new.items ≡ put_at (alone_names beside.old.items) name.now (new_alone name.now) beside.old.items) }
{
    let place = place_of(beside, name);
    if is_at(beside, place, name) {
        return Ok(());
    }
    let alone = Alone {
        name: name.to_vec(alloc)?,
        before: 0,
        most: 0,
    };
    beside.insert(place, alone)?;
    Ok(())
}

fn raise(alone: &mut Alone, entries: &[Entry])
    requires { AreRising (names_in entries.now) }
    ensures { alone.new ≡ raised_alone entries.now alone.old }
{
    alone.most = alone.most.max(left_in(&alone.name, entries));
}

// Raises what each of them held by one sample more.
pub(crate) fn raise_beside(beside: &mut [Alone], entries: &[Entry])
    requires { AreRising (names_in entries.now) }
    ensures { beside.new ≡ map (raised_alone entries.now) beside.old }
{
    for place in 0..beside.len() {
        raise(&mut beside[place], entries);
    }
}

fn keep(alone: &mut Alone)
    ensures { alone.new ≡ kept_alone alone.old }
{
    alone.before = alone.most;
}

fn take_back(alone: &mut Alone)
    ensures { alone.new ≡ alone_back alone.old }
{
    alone.most = alone.before;
}

// The open epoch has ended.
pub(crate) fn keep_beside(beside: &mut [Alone])
    ensures { beside.new ≡ map kept_alone beside.old }
{
    for place in 0..beside.len() {
        keep(&mut beside[place]);
    }
}

// The open epoch is taken back.
pub(crate) fn take_back_beside(beside: &mut [Alone])
    ensures { beside.new ≡ map alone_back beside.old }
{
    for place in 0..beside.len() {
        take_back(&mut beside[place]);
    }
}
