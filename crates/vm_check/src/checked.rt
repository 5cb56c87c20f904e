// A configuration, with what its command lines ask for.
ghost use Rattle.std.specs.Prelude.{◌≡◌, ◌++◌, IfOk, OnOk, length, false, slice_get, unwrap_or};
ghost use Rattle.vm_check.specs.Checked.{command_findings_at, findings_of, found_at, guest_findings, root_findings, seen_of, start_findings};

use crate::admissions::{Refusal, refusals_of};
use crate::commands::command_findings;
use crate::finding::Finding;
use crate::guests::{long_trace, never_starts};
use crate::inflated::inflated_page;
use crate::minimum::minimum_above;
use crate::order::{Order, orders_of};
use crate::place::FindingPlace;
use crate::starts::starts_of;
use crate::thresholds::threshold_findings;
use crate::what::What;
use std::alloc::{AllocError, Global};
use std::marker::Model;
use vm_config::{Autostart, Config, Key, MachineSpec, Part};
use vm_domains::GuestSpec;

// What findings are made of.
#[derive(Drop)]
pub(crate) struct Checked {
    machine: MachineSpec,
    epochs: u32,
    specs: Vec<GuestSpec>,
    autostart: Autostart,
    orders: Vec<Order>,
    refusals: Vec<Refusal>,
}

impl Model for Checked {
    ghost use Rattle.vm_check.specs.Checked.{Seen};

    ghost Value = { Seen };

    ghost view = { λ c. record { machine = c.machine; epochs = c.epochs; configs = c.specs.items; autostart = c.autostart; orders = c.orders.items; refusals = c.refusals.items } };
}

impl Checked {
    /// A configuration taken apart.
    pub(crate) fn new(alloc: Global, config: Config) -> Result<Self, AllocError>
        ensures { IfOk result (λ checked. checked ≡ seen_of config) }
    {
        let Config {
            machine,
            epochs,
            domains,
            autostart,
            commands,
        } = config;
        let (names, specs) = domains.into_parts();
        let orders = orders_of(alloc, machine.page, &names, commands.lines())?;
        let starts = starts_of(alloc, epochs, autostart.flags(), &orders)?;
        let refusals = refusals_of(alloc, &machine, &specs, &starts)?;
        Ok(Checked {
            machine,
            epochs,
            specs,
            autostart,
            orders,
            refusals,
        })
    }

    /// How many guests there are.
    pub(crate) fn guests(&self) -> usize
        ensures { result ≡ length self.now.configs }
    {
        self.specs.len()
    }

    /// How many commands there are.
    pub(crate) fn commands(&self) -> usize
        ensures { result ≡ length self.now.orders }
    {
        self.orders.len()
    }
}

// Adds the refused starts of the guest of a number.
fn push_starts(
    found: &mut Vec<Finding>,
    guest: usize,
    refusals: &[Refusal],
) -> Result<(), AllocError>
    ensures { OnOk result (found.new.items ≡ found.old.items ++ start_findings guest refusals.now) }
{
    for refusal in refusals {
        if refusal.guest == guest {
            found.push(Finding {
                place: FindingPlace::Guest(guest),
                what: refusal.lack,
            })?;
        }
    }
    Ok(())
}

// Adds what is found at a key of the guest of a number, if anything.
fn push_at(
    found: &mut Vec<Finding>,
    guest: usize,
    key: Key,
    what: Option<What>,
) -> Result<(), AllocError>
    ensures { OnOk result (found.new.items ≡ found.old.items ++ found_at guest key what) }
{
    if let Some(what) = what {
        found.push(Finding {
            place: FindingPlace::Key {
                part: Part::Guest(guest),
                key,
            },
            what,
        })?;
    }
    Ok(())
}

// Whether the guest of a number starts by itself.
fn starts_by_itself(flags: &[bool], guest: usize) -> bool
    ensures { result ≡ unwrap_or (slice_get flags.now guest) false }
{
    flags.get(guest).copied().unwrap_or(false)
}

// Adds what is found of the guest of a number.
fn push_guest(
    alloc: Global,
    found: &mut Vec<Finding>,
    checked: &Checked,
    guest: usize,
    spec: &GuestSpec,
) -> Result<(), AllocError>
    ensures { OnOk result (found.new.items ≡ found.old.items
        ++ findings_of checked.now guest (unwrap_or (slice_get checked.now.autostart guest) false) spec.now) }
{
    let epochs = checked.epochs;
    let autostart = starts_by_itself(checked.autostart.flags(), guest);
    push_starts(found, guest, &checked.refusals)?;
    let minimum = minimum_above(epochs, guest, spec.min, &checked.orders);
    push_at(found, guest, Key::Min, minimum)?;
    let start = never_starts(epochs, guest, autostart, &checked.orders);
    push_at(found, guest, Key::Autostart, start)?;
    push_at(found, guest, Key::Trace, long_trace(epochs, spec))?;
    push_at(found, guest, Key::Trace, inflated_page(alloc, spec)?)
}

/// What is found of the guest of a number.
pub(crate) fn guest_findings(
    alloc: Global,
    checked: &Checked,
    guest: usize,
) -> Result<Vec<Finding>, AllocError>
    ensures { IfOk result (λ found. found.items ≡ guest_findings checked.now guest) }
{
    let mut found = Vec::new(alloc);
    if let Some(spec) = checked.specs.get(guest) {
        push_guest(alloc, &mut found, checked, guest, spec)?;
    }
    Ok(found)
}

/// What is found of the root.
pub(crate) fn root_findings(alloc: Global, checked: &Checked) -> Result<Vec<Finding>, AllocError>
    ensures { IfOk result (λ found. found.items ≡ root_findings checked.now) }
{
    threshold_findings(alloc, &checked.machine)
}

/// What is found of the command of a number.
pub(crate) fn command_findings_at(
    alloc: Global,
    checked: &Checked,
    number: usize,
) -> Result<Vec<Finding>, AllocError>
    ensures { IfOk result (λ found. found.items ≡ command_findings_at checked.now number) }
{
    match checked.orders.get(number) {
        Some(order) => command_findings(alloc, checked.epochs, number, *order),
        None => Ok(Vec::new(alloc)),
    }
}
