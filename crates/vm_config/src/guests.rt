// The guests of a configuration.
ghost use Rattle.std.specs.Prelude.{◌≡◌, ◌≤◌, ◌<◌, ◌++◌, ◌∷◌, [], map, codes, length, IfOk, IfErr, OnOk, Err, None, vec_len};
ghost use Rattle.serde_json.specs.Find.{get};
ghost use Rattle.vm_json.specs.View.{view};
ghost use Rattle.vm_guest.specs.Config.{IsWithinLimits};
ghost use Rattle.vm_domains.specs.Domains.{position_of};
ghost use Rattle.vm_config.specs.Guests.{no_guests, with_guest};
ghost use Rattle.vm_domains.specs.Limits.{AreWithinLimits};
ghost use Rattle.vm_config.specs.Located.{guest_at, guests_at};
ghost use Rattle.vm_config.specs.Outcomes.{Answers};
ghost use Rattle.vm_config.specs.Places.{IsOrLacksMemory};
ghost use Rattle.vm_config.specs.Named.{listed_of, listed_seen, Reads};
ghost use Rattle.vm_config.specs.Reading.{name_in};
ghost use Rattle.vm_config.specs.Versions.{AreLimits};

use crate::autostart::Autostart;
use crate::error::ConfigError;
use crate::fault::{Fault, at};
use crate::guest_keys::{choices_of, pages_of, rates_of};
use crate::keys::{text, texts_or_none};
use crate::names::is_name;
use crate::place::{Key, Part};
use crate::trace::trace;
use crate::version::Limits;
use std::alloc::{AllocError, Global};
use vm_domains::Domains;
use vm_guest::GuestSpec;
use vm_json::Value;

const MAX_TRACE: usize = 1_000_000;

// A guest by its name, as it is set up, and whether it starts by itself.
#[derive(Drop)]
struct Named<'a> {
    name: &'a str,
    spec: GuestSpec,
    autostart: bool,
}

// Guests, and of each whether it starts by itself.
#[derive(Drop)]
pub(crate) struct GuestList {
    pub(crate) domains: Domains,
    pub(crate) autostart: Autostart,
}

// A name that no earlier guest has.
fn fresh_name<'a>(object: &Value<'a>, earlier: &Domains) -> Result<&'a str, ConfigError>
    ensures name { Answers result (λ s. s.now)
        (name_in earlier.now (get (codes "name") (view object.now))) }
    ensures new_name { IfOk result (λ s. position_of s.now earlier.now ≡ None) }
{
    let name = text(object, "name")?;
    if !is_name(name) {
        return Err(ConfigError::Name);
    }
    if earlier.position(name).is_some() {
        return Err(ConfigError::Twice);
    }
    Ok(name)
}

// One guest, after the earlier ones.
fn guest<'a>(
    alloc: Global,
    limits: &Limits,
    quantum: u32,
    page: u32,
    object: &Value<'a>,
    earlier: &Domains,
) -> Result<Named<'a>, Fault>
    requires limits { AreLimits limits.now }
    requires some_quantum { 1 ≤ quantum }
    requires short_quantum { quantum ≤ 65536 }
    requires some_kib { 4 ≤ page }
    requires few_kib { page ≤ 1048576 }
    ensures guest { IsOrLacksMemory (listed_seen result) (guest_at limits.now quantum page (view object.now) earlier.now) }
    ensures new_name { IfOk result (λ named. position_of named.name.now earlier.now ≡ None) }
    ensures within { IfOk result (λ named. IsWithinLimits named.spec) }
{
    let part = Part::Guest(earlier.len());
    let name = at(part, Key::Name, fresh_name(object, earlier))?;
    let pages = pages_of(limits, object, part)?;
    let rates = rates_of(object, part)?;
    let choices = choices_of(limits, object, part)?;
    let texts = at(part, Key::Trace, texts_or_none(object, "trace", MAX_TRACE))?;
    let trace = trace(alloc, limits, pages.size, earlier.len(), texts);
    let trace = at(part, Key::Trace, trace)?;
    let spec = GuestSpec {
        size: pages.size,
        min: pages.min,
        shares: rates.shares,
        samples: rates.samples,
        period: rates.period,
        rate: rates.rate,
        quantum,
        seed: choices.seed,
        stream: choices.stream,
        tell: choices.tell,
        own_driver: choices.own_driver,
        page,
        trace,
    };
    Ok(Named {
        name,
        spec,
        autostart: choices.autostart,
    })
}

// Adds a guest at the end.
fn add(guests: &mut GuestList, guest: Named<'_>) -> Result<(), AllocError>
    requires new_name { position_of guest.name.now guests.old.domains ≡ None }
    requires few { length guests.old.domains < 256 }
    ensures ok { OnOk result (guests.new ≡ with_guest guests.old (listed_of guest.entry)) }
{
    guests
        .domains
        .push(guest.name, guest.spec)
        .map_err(|_| AllocError)?;
    guests.autostart.push(guest.autostart)
}

// One guest more, whose value goes when it was read.
fn read_guest(
    alloc: Global,
    limits: &Limits,
    quantum: u32,
    page: u32,
    object: Value<'_>,
    guests: &mut GuestList,
) -> Result<(), Fault>
    requires limits { AreLimits limits.now }
    requires few { length guests.old.domains < 256 }
    requires some_quantum { 1 ≤ quantum }
    requires short_quantum { quantum ≤ 65536 }
    requires some_kib { 4 ≤ page }
    requires few_kib { page ≤ 1048576 }
    ensures ok { OnOk result (Reads guests.old guests.new (guest_at limits.now quantum page (view object.entry) guests.old.domains)) }
    ensures err { IfErr result (λ e. IsOrLacksMemory (Err e) (guest_at limits.now quantum page (view object.entry) guests.old.domains)) }
{
    let guest = guest(alloc, limits, quantum, page, &object, &guests.domains)?;
    add(guests, guest)?;
    Ok(())
}

// The guests, one by one.
pub(crate) fn guests(
    alloc: Global,
    limits: &Limits,
    quantum: u32,
    page: u32,
    objects: Vec<Value<'_>>,
) -> Result<GuestList, Fault>
    requires limits { AreLimits limits.now }
    requires few { vec_len objects ≤ 256 }
    requires some_quantum { 1 ≤ quantum }
    requires short_quantum { quantum ≤ 65536 }
    requires some_kib { 4 ≤ page }
    requires few_kib { page ≤ 1048576 }
    ensures guests { IsOrLacksMemory result (guests_at limits.now quantum page (map view objects.entry.items) no_guests) }
    ensures within { IfOk result (λ guests. AreWithinLimits guests.domains) }
    ensures few { IfOk result (λ guests. length guests.domains ≤ 256) }
    ensures autostart { IfOk result (λ guests. length guests.autostart ≡ length guests.domains) }
{
    let mut guests = GuestList {
        domains: Domains::new(alloc),
        autostart: Autostart::new(alloc),
    };
    for object in objects {
        read_guest(alloc, limits, quantum, page, object, &mut guests)?;
    }
    Ok(guests)
}
