//! How a text is run, and its results told.
ghost use Rattle.std.specs.Prelude.{◌<◌, ◌≤◌};

use crate::digest::Digest;
use crate::text::{Draft, Machine, Text};
use std::alloc::Global;
use std::io::Read;
use std::thread::Threads;
use vm_import::{ImportError, ImportSettings, import_log};
use vm_log::{PlanError, plan_log};
use vm_series::{Series, collect_series, csv_text, svg_text};
use vm_sim::{Open, RunError, Watched, run};
use vm_steer::{Form, SteerError, steer};
use vm_sweep::{Lists, Progress, SweepError, sweep};

// The report of a text, put into a digest.
fn report<RT: Threads + Sync>(
    rt: &RT,
    alloc: Global,
    workers: u32,
    text: &Text,
    digest: &mut Digest,
) -> Result<(), RunError> {
    let mut reader = Watched::new(text.as_bytes());
    let mut writer = Watched::new(digest);
    let host = run(rt, alloc, &Open, workers, &mut reader, &mut writer)?;
    host.close();
    Ok(())
}

/// The report of a draft on a machine, put into a digest.
pub fn report_of<RT: Threads + Sync>(
    rt: &RT,
    alloc: Global,
    workers: u32,
    machine: &Machine,
    draft: &Draft,
    digest: &mut Digest,
) -> Result<(), RunError> {
    let text = draft.whole(alloc, machine)?;
    report(rt, alloc, workers, &text, digest)
}

// The rows of a series, as comma-separated values and as a drawing, put into a digest.
fn tell_series(alloc: Global, series: &Series, digest: &mut Digest) -> Result<(), RunError> {
    let table = csv_text(alloc, series)?;
    digest.add(table.as_slice());
    let drawing = svg_text(alloc, series)?;
    digest.add(drawing.as_slice());
    Ok(())
}

// The series of a text, put into a digest.
fn series<RT: Threads + Sync>(
    rt: &RT,
    alloc: Global,
    text: &Text,
    digest: &mut Digest,
) -> Result<(), RunError> {
    let series = collect_series(rt, alloc, &Open, 1, text.as_bytes())?;
    tell_series(alloc, &series, digest)
}

/// The series of a draft on a machine, put into a digest.
pub fn series_of<RT: Threads + Sync>(
    rt: &RT,
    alloc: Global,
    machine: &Machine,
    draft: &Draft,
    digest: &mut Digest,
) -> Result<(), RunError> {
    let text = draft.whole(alloc, machine)?;
    series(rt, alloc, &text, digest)
}

// Is told how far a sweep is, and says nothing.
struct Silent;

impl Progress for Silent {
    fn report(&self, _told: usize, _all: usize) {}
}

// No list is for a guest.
fn run_error_of_sweep(error: SweepError) -> RunError {
    match error {
        SweepError::Run(error) => error,
        SweepError::Guest(_) => RunError::Read,
    }
}

/// The table of a draft under lists of values, put into a digest.
pub fn sweep_of<RT: Threads + Sync>(
    rt: &RT,
    alloc: Global,
    workers: u32,
    machine: &Machine,
    draft: &Draft,
    lists: &Lists,
    digest: &mut Digest,
) -> Result<(), RunError>
    requires { (0 < workers) × (workers ≤ 64) }
{
    let text = draft.whole(alloc, machine)?;
    let mut writer = Watched::new(digest);
    sweep(
        rt,
        alloc,
        text.as_bytes(),
        lists,
        workers,
        &Silent,
        &mut writer,
    )
    .map_err(run_error_of_sweep)
}

// Of a made log no line is refused, and some page is touched.
fn run_error_of(error: ImportError) -> RunError {
    match error {
        ImportError::Line { .. } | ImportError::Untouched(_) | ImportError::Read => RunError::Read,
        ImportError::Write => RunError::Write,
        ImportError::Memory => RunError::Memory,
    }
}

/// The guest that a log makes, put into a digest.
pub fn import_of<R: Read + Drop>(
    alloc: Global,
    settings: &ImportSettings,
    log: R,
    digest: &mut Digest,
) -> Result<(), RunError> {
    let mut reader = Watched::new(log);
    let mut writer = Watched::new(digest);
    match import_log(alloc, settings, &mut reader, &mut writer) {
        Ok(_) => Ok(()),
        Err(error) => Err(run_error_of(error)),
    }
}

// Of a made log no policy is refused, and no sample is too long.
fn run_error_of_log(error: SteerError) -> RunError {
    match error {
        SteerError::Policy(_) | SteerError::TooLong | SteerError::Read => RunError::Read,
        SteerError::Write => RunError::Write,
        SteerError::Memory => RunError::Memory,
    }
}

/// The orders that come of the log of a host, put into a digest.
pub fn orders_of<R: Read + Drop>(
    alloc: Global,
    log: R,
    digest: &mut Digest,
) -> Result<(), RunError> {
    let mut reader = Watched::new(log);
    let mut writer = Watched::new(digest);
    steer(alloc, Form::Orders, &mut reader, &mut writer).map_err(run_error_of_log)
}

// The same of a log that makes a configuration.
fn run_error_of_plan(error: PlanError) -> RunError {
    match error {
        PlanError::Policy(_) | PlanError::TooLong | PlanError::Read => RunError::Read,
        PlanError::Write => RunError::Write,
        PlanError::Memory => RunError::Memory,
    }
}

/// The configuration that comes of the log of a host, with so many samples an epoch, put into a digest.
pub fn plan_of<R: Read + Drop>(
    alloc: Global,
    every: u32,
    log: R,
    digest: &mut Digest,
) -> Result<(), RunError>
    requires some { 1 ≤ every }
    requires few { every ≤ 10000 }
{
    let mut reader = Watched::new(log);
    let mut writer = Watched::new(digest);
    match plan_log(alloc, every, &mut reader, &mut writer) {
        Ok(_) => Ok(()),
        Err(error) => Err(run_error_of_plan(error)),
    }
}
