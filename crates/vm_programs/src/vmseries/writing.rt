//! From the text of a configuration to the text of its series.
ghost use Rattle.std.specs.Prelude.{◌≡◌, Err, IfErr, IfOk, OnOk, codes};
ghost use Rattle.vm_programs.specs.runs.Words.{HasWorkersInRange};
ghost use Rattle.vm_series.specs.Rows.{rows_of};
ghost use Rattle.vm_programs.specs.vmseries.Written.{FailsOnSeries, IsTextOf, Writes};
ghost use Rattle.vm_sim.specs.declared.run_error.RunError.TheVariants.{Write};
ghost use Rattle.vm_sim.specs.Run.{MeansConfig};
ghost use Rattle.vm_streams.specs.Streams.{NewlyFailed};
ghost use Rattle.vm_words.specs.Words.{has_flag};

use super::line::SVG;
use crate::runs::workers_of;
use std::alloc::{AllocError, Global};
use std::thread::Threads;
use vm_series::{Series, collect_series, csv_text, svg_text};
use vm_sim::{Open, RunError, Sink, write_text};
use vm_words::Request;

// A series as a drawing, or as comma-separated values.
fn text_of(alloc: Global, series: &Series, is_drawn: bool) -> Result<Vec<u8>, AllocError>
    ensures { IfOk result (λ text. IsTextOf is_drawn series.now text.items) }
{
    if is_drawn {
        svg_text(alloc, series)
    } else {
        csv_text(alloc, series)
    }
}

/// Runs the configuration that a text is, and writes its series.
pub fn write_run<RT: Threads + Sync, W: Sink>(
    rt: &RT,
    alloc: Global,
    request: &Request<'_>,
    text: &[u8],
    writer: &mut W,
) -> Result<(), RunError>
    requires { HasWorkersInRange request.now }
    ensures done { OnOk result (MeansConfig (λ config. Writes (W.contents writer.old) (W.contents writer.new)
        (has_flag (codes "svg") request.now) (rows_of config)) text.now) }
    ensures failed { IfErr result (FailsOnSeries (W.contents writer.old) (W.contents writer.new)
        (has_flag (codes "svg") request.now) text.now) }
    ensures writer_failed { NewlyFailed (W.has_failed writer.old) (W.has_failed writer.new) → result ≡ Err Write }
{
    let series = collect_series(rt, alloc, &Open, workers_of(request), text)?;
    let written = text_of(alloc, &series, request.has_flag(SVG.name))?;
    write_text(writer, written.as_slice())?;
    Ok(())
}
