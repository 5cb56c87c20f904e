//! What the words ask for.
ghost use Rattle.std.specs.Prelude.{◌≡◌, ◌≤◌, All, IfErr, IfOk, IfSome, codes, length};
ghost use Rattle.std.specs.Option.{ForSome};
ghost use Rattle.vm_lists.specs.Lists.{IsWithin};
ghost use Rattle.vm_words.specs.Words.{has_flag, number_of};
ghost use Rattle.vm_programs.specs.vmsweep.CommandLine.{HasSeedsInRange, form_of, seeds_of, workers_of};
ghost use Rattle.vm_programs.specs.vmsweep.Keys.{limits_of};
ghost use Rattle.vm_programs.specs.vmsweep.Lists.{AreWithin, HaveValues, given, guest_lists, lists_in, lists_of, runs};
ghost use Rattle.vm_programs.specs.vmsweep.Refused.{IsFirstOf, IsRefusal};
ghost use Rattle.vm_programs.specs.vmsweep.Taken.{CanBeDrawn};

use super::checks::check;
use super::faults::SweepFault;
use super::guests::{Guests, guests_of};
use super::keys::SweptKey;
use crate::runs::workers_of;
use std::alloc::Global;
use vm_lists::{ValueList, read_list};
use vm_sweep::GuestList;
use vm_words::Request;

/// What is written of the runs.
#[derive(Clone, Copy, Debug, PartialEq, Eq)]
pub enum Form {
    /// A record for each run.
    Table,
    /// A record for each run and guest.
    Guests,
    /// A drawing.
    Drawing,
}

/// What the words ask for. A list that isn't given leaves the configuration's own value.
#[derive(Debug, Drop)]
pub struct Asked {
    /// Frames of the machine.
    pub frames: Option<ValueList>,
    /// Pages of the swap area.
    pub swap: Option<ValueList>,
    /// The tax on idle memory, in hundredths of a percent.
    pub tax: Option<ValueList>,
    /// The most frames that a guest gives up by paging at a boundary.
    pub page_rate: Option<ValueList>,
    /// The most pages that a boundary moves from guest to guest.
    pub rebalance: Option<ValueList>,
    /// The minimum of each guest, in percent of its size.
    pub min_percent: Option<ValueList>,
    /// The minimums of guests with a name, in pages.
    pub minimums: Vec<GuestList>,
    /// The shares of guests with a name.
    pub shares: Vec<GuestList>,
    /// How many runs each combination has, each with other seeds: 1 to 1000.
    pub seeds: Option<u32>,
    /// What is written.
    pub form: Form,
    /// Whether to say how many runs have ended.
    pub has_progress: bool,
    /// On how many threads the runs go: 1 to 64, and 1 where the words don't say.
    pub workers: u32,
}

// The values that a key is given, if it is.
fn given(
    alloc: Global,
    request: &Request<'_>,
    key: SweptKey,
) -> Result<Option<ValueList>, SweepFault>
    ensures values { IfOk result (λ values. given key request.now ≡ Ok values) }
    ensures fault { IfErr result (IsFirstOf (given key request.now)) }
    ensures within { IfOk result (λ values. IfSome values (All (IsWithin (limits_of key)))) }
    ensures some { IfOk result (λ values. IfSome values (λ values. 1 ≤ length values)) }
{
    let Some(text) = request.text(key.word()) else {
        return Ok(None);
    };
    match read_list(alloc, &key.limits(), text) {
        Ok(values) => Ok(Some(values)),
        Err(fault) => Err(SweepFault::BadList { key, fault }),
    }
}

// How many seeds are asked for, if it is said.
fn seeds_of(request: &Request<'_>) -> Option<u32>
    requires { HasSeedsInRange request.now }
    ensures { result ≡ seeds_of request.now }
{
    match request.number("seeds") {
        Some(number) => Some(number as u32),
        None => None,
    }
}

// What is written of the runs.
fn form_of(request: &Request<'_>) -> Form
    ensures { result ≡ form_of request.now }
{
    if request.has_flag("svg") {
        Form::Drawing
    } else if request.has_flag("guests") {
        Form::Guests
    } else {
        Form::Table
    }
}

// What is asked for by lists that are read, whatever they are together.
fn read(alloc: Global, request: &Request<'_>) -> Result<Asked, SweepFault>
    requires workers { ForSome (number_of (codes "workers") request.now) (λ n. (1 ≤ n) × (n ≤ 64)) }
    requires seeds { ForSome (number_of (codes "seeds") request.now) (λ n. (1 ≤ n) × (n ≤ 1000)) }
    ensures lists { IfOk result (λ asked. lists_of request.now ≡ Ok (lists_in asked)) }
    ensures within { IfOk result (λ asked. AreWithin (lists_in asked)) }
    ensures some { IfOk result (λ asked. HaveValues (lists_in asked)) }
    ensures form { IfOk result (λ asked. asked.form ≡ form_of request.now) }
    ensures progress { IfOk result (λ asked. asked.has_progress ≡ has_flag (codes "progress") request.now) }
    ensures workers { IfOk result (λ asked. asked.workers ≡ workers_of request.now) }
    ensures few_workers { IfOk result (λ asked. (1 ≤ asked.workers) × (asked.workers ≤ 64)) }
    ensures fault { IfErr result (IsFirstOf (lists_of request.now)) }
{
    let frames = given(alloc, request, SweptKey::Frames)?;
    let swap = given(alloc, request, SweptKey::Swap)?;
    let tax = given(alloc, request, SweptKey::Tax)?;
    let page_rate = given(alloc, request, SweptKey::PageRate)?;
    let rebalance = given(alloc, request, SweptKey::Rebalance)?;
    let min_percent = given(alloc, request, SweptKey::MinPercent)?;
    let guests = guests_of(alloc, request)?;
    let Guests { minimums, shares } = guests;
    Ok(Asked {
        frames,
        swap,
        tax,
        page_rate,
        rebalance,
        min_percent,
        minimums,
        shares,
        seeds: seeds_of(request),
        form: form_of(request),
        has_progress: request.has_flag("progress"),
        workers: workers_of(request),
    })
}

/// What a request asks for, or its first fault: list by list in the order of [`SweptKey`], then name by name, then of the lists
/// together. A fault of memory says only that memory was refused.
pub fn asked_of(alloc: Global, request: &Request<'_>) -> Result<Asked, SweepFault>
    requires workers { ForSome (number_of (codes "workers") request.now) (λ n. (1 ≤ n) × (n ≤ 64)) }
    requires seeds { ForSome (number_of (codes "seeds") request.now) (λ n. (1 ≤ n) × (n ≤ 1000)) }

    // It is what the words say.
    ensures lists { IfOk result (λ asked. lists_of request.now ≡ Ok (lists_in asked)) }
    ensures form { IfOk result (λ asked. asked.form ≡ form_of request.now) }
    ensures progress { IfOk result (λ asked. asked.has_progress ≡ has_flag (codes "progress") request.now) }
    ensures workers { IfOk result (λ asked. asked.workers ≡ workers_of request.now) }

    // It can be done.
    ensures within { IfOk result (λ asked. AreWithin (lists_in asked)) }
    ensures some { IfOk result (λ asked. HaveValues (lists_in asked)) }
    ensures few_workers { IfOk result (λ asked. (1 ≤ asked.workers) × (asked.workers ≤ 64)) }
    ensures few_lists { IfOk result (λ asked. guest_lists (lists_in asked) ≤ 8) }
    ensures few { IfOk result (λ asked. runs (lists_in asked) ≤ 10000) }
    ensures drawn { IfOk result (λ asked. asked.form ≡ Form.Drawing → CanBeDrawn (lists_in asked)) }

    ensures refused { IfErr result (IsRefusal request.now) }
{
    let asked = read(alloc, request)?;
    check(&asked)?;
    Ok(asked)
}
