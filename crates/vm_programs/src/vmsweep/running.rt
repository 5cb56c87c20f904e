//! From the text of a configuration to its sweep, and what is said of one that stopped.
ghost use Rattle.std.specs.Prelude.{◌≡◌, ◌≤◌, Err, IfErr, OnOk};
ghost use Rattle.std.specs.Io.KnownBytes.{Keeps};
ghost use Rattle.vm_sim.specs.declared.run_error.RunError.TheVariants.{Write};
ghost use Rattle.vm_sim.specs.Run.{MeansConfig};
ghost use Rattle.vm_streams.specs.Streams.{NewlyFailed};
ghost use Rattle.vm_sweep.specs.Refusals.{StopsFor};
ghost use Rattle.vm_programs.specs.vmsweep.Written.{FailsOnSweep, HasSwept, status_of_sweep};
ghost use Rattle.vm_programs.specs.vmsweep.Lists.{AreWithin, lists_in};

use super::asked::{Asked, Form};
use super::keys::SweptKey;
use super::line::LINE;
use super::telling::OfGuest;
use crate::runs::complain_of_text;
use std::alloc::Global;
use std::thread::Threads;
use vm_sim::Sink;
use vm_sweep::{GuestRefusal, Lists, Progress, SweepError, draw_sweep, sweep, sweep_guests};
use vm_variants::GuestSetting;

/// The lists of a sweep that is asked for.
pub(crate) fn lists_of(alloc: Global, asked: Asked) -> Lists
    requires { AreWithin (lists_in asked) }
    ensures { result ≡ lists_in asked }
{
    let Asked {
        frames,
        swap,
        tax,
        page_rate,
        rebalance,
        min_percent,
        minimums,
        shares,
        seeds,
        ..
    } = asked;
    Lists::new(alloc, frames, swap, tax, page_rate, rebalance).with_guests(
        min_percent,
        minimums,
        shares,
        seeds,
    )
}

/// Runs the configuration that a text is under lists, and writes the sweep in a form.
pub(crate) fn write_form<RT: Threads + Sync, W: Sink, P: Progress>(
    rt: &RT,
    alloc: Global,
    form: Form,
    text: &[u8],
    lists: &Lists,
    workers: u32,
    progress: &P,
    writer: &mut W,
) -> Result<(), SweepError>
    requires { (1 ≤ workers) × (workers ≤ 64) }
    ensures done { OnOk result (MeansConfig (HasSwept (W.contents writer.old) (W.contents writer.new) form lists.now) text.now) }
    ensures failed { IfErr result (StopsFor (Keeps (W.contents writer.old) (W.contents writer.new))
        (FailsOnSweep (W.contents writer.old) (W.contents writer.new) form lists.now text.now) lists.now text.now) }
    ensures writer_failed { NewlyFailed (W.has_failed writer.old) (W.has_failed writer.new) → result ≡ Err (SweepError.Run Write) }
{
    match form {
        Form::Table => sweep(rt, alloc, text, lists, workers, progress, writer),
        Form::Guests => sweep_guests(rt, alloc, text, lists, workers, progress, writer),
        Form::Drawing => draw_sweep(rt, alloc, text, lists, workers, progress, writer),
    }
}

// Says which list for a guest is refused, and gives the status to end with.
fn refuse_guest(system: &impl Eprint, lists: &Lists, refusal: GuestRefusal) -> u8
    ensures { result ≡ 1 }
{
    let (key, named) = match refusal.setting {
        GuestSetting::Min => (SweptKey::Min, lists.minimums()),
        GuestSetting::Shares => (SweptKey::Shares, lists.shares()),
    };
    let name = match named.get(refusal.list) {
        Some(list) => list.name(),
        None => "",
    };
    let cause = refusal.cause;
    LINE.refuse(system, OfGuest { key, name, cause })
}

/// Says why a sweep of a text stopped, and gives the status to end with.
pub(crate) fn complain_of_sweep(
    system: &(impl Eprint + AllocGlobal),
    lists: &Lists,
    text: &[u8],
    error: SweepError,
) -> u8
    ensures { result ≡ status_of_sweep error }
{
    match error {
        SweepError::Run(error) => complain_of_text(&LINE, system, text, error),
        SweepError::Guest(refusal) => refuse_guest(system, lists, refusal),
    }
}
