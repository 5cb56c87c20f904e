//! Rounds of runs on threads.
ghost use Rattle.std.specs.Prelude.{◌≡◌, ◌<◌, ◌≤◌, ◌+◌, ◌*◌, ◌++◌, All, IfOk, IfSome, OnOk, length, map, slice_get, vec_len};
ghost use Rattle.std.specs.Vec.Iter.{into_iter_items, into_iter_len};
ghost use Rattle.vm_sweep.specs.Combinations.{variants};
ghost use Rattle.vm_sweep.specs.Orders.{order_of, shape_of};
ghost use Rattle.vm_sweep.specs.Rounds.{CanRun, IsUnderWay};

use crate::job::{RunDone, RunJob};
use crate::lists::Lists;
use crate::outcome::Detail;
use crate::round::run_round_with;
use crate::variant::{Variant, copied};
use crate::workplace::Workplace;
use std::alloc::{AllocError, Global};
use std::thread::Threads;
use std::vec::IntoIter;
use vm_config::Config;
use vm_tally::Shelf;
use vm_variants::Changes;

// The runs of a configuration with each of these, in order.
fn jobs_of(
    alloc: Global,
    detail: Detail,
    config: &Config,
    list: Vec<Variant>,
) -> Result<Vec<RunJob>, AllocError>
    ensures { IfOk result (λ jobs. jobs.items ≡ map (order_of detail config.now) list.items) }
{
    let mut jobs = Vec::with_capacity(alloc, list.len())?;
    let mut left = list.into_iter();
    while let Some(variant) = left.next() {
        jobs.push(RunJob::new(detail, variant, config))?;
    }
    Ok(jobs)
}

// Changes like those of all runs: the first one's.
fn like_of(alloc: Global, list: &[Variant]) -> Result<Changes, AllocError>
    ensures { IfOk result (λ like. IfSome (slice_get list.now 0) (λ first. like ≡ first.changes)) }
{
    match list.first() {
        Some(first) => copied(&first.changes),
        None => Ok(Changes::new(alloc)),
    }
}

// A workplace with a configuration.
fn own_place(alloc: Global, config: Config, like: &Changes) -> Result<Workplace, AllocError>
    ensures { IfOk result (λ place. CanRun config (shape_of like.now) place) }
{
    let seen = copied(like)?;
    Ok(Workplace {
        alloc,
        config: Some(config),
        like: seen,
        shelf: Shelf::new(alloc),
    })
}

// The same with a copy of it.
fn copied_place(alloc: Global, config: &Config, like: &Changes) -> Result<Workplace, AllocError>
    ensures { IfOk result (λ place. CanRun config.now (shape_of like.now) place) }
{
    let seen = copied(like)?;
    let copy = config.clone()?;
    Ok(Workplace {
        alloc,
        config: Some(copy),
        like: seen,
        shelf: Shelf::new(alloc),
    })
}

// A workplace for each of so many threads. All but one have a copy of the configuration.
fn places_for(
    alloc: Global,
    config: Config,
    like: &Changes,
    count: usize,
) -> Result<Vec<Workplace>, AllocError>
    requires { 0 < count }
    ensures count { IfOk result (λ places. vec_len places ≡ count) }
    ensures ready { IfOk result (λ places. All (CanRun config (shape_of like.now)) places.items) }
{
    let mut places = Vec::with_capacity(alloc, count)?;
    for _copy in 1..count {
        let place = copied_place(alloc, &config, like)?;
        places.push_reserved(place);
    }
    let last = own_place(alloc, config, like)?;
    places.push_reserved(last);
    Ok(places)
}

/// The runs of a configuration that lists of values make, and a workplace for each thread: at most so many, and no more than there are
/// runs.
pub(crate) fn prepare(
    alloc: Global,
    detail: Detail,
    config: Config,
    lists: &Lists,
    workers: u32,
) -> Result<(Vec<RunJob>, Vec<Workplace>), AllocError>
    requires { (0 < workers) × (workers ≤ 64) }
    ensures jobs { IfOk result (λ made. made.0.items ≡ map (order_of detail config) (variants lists.now config)) }
    ensures places { IfOk result (λ made. (0 < vec_len made.1) × (vec_len made.1 ≤ 64)) }
    ensures under_way { IfOk result (λ made. IsUnderWay made.0.items made.1.items) }
{
    let list = lists.variants(alloc, &config)?;
    let like = like_of(alloc, &list)?;
    let jobs = jobs_of(alloc, detail, &config, list)?;
    let threads = (workers as usize).min(jobs.len()).max(1);
    let places = places_for(alloc, config, &like, threads)?;
    Ok((jobs, places))
}

// Takes so many of the runs that are left, or all.
fn take_round(
    alloc: Global,
    left: &mut IntoIter<RunJob>,
    width: usize,
) -> Result<Vec<RunJob>, AllocError>
    requires { 0 < width }
    ensures taken { IfOk result (λ round. into_iter_items left.old ≡ round.items ++ into_iter_items left.new) }
    ensures few { IfOk result (λ round. vec_len round ≤ width) }
    ensures some { IfOk result (λ round. 0 < into_iter_len left.old → 0 < vec_len round) }
    ensures count { IfOk result (λ round. vec_len round + into_iter_len left.new ≡ into_iter_len left.old) }
{
    let mut round = Vec::with_capacity(alloc, width)?;
    while round.len() < width {
        let Some(job) = left.next() else {
            break;
        };
        round.push_reserved(job);
    }
    Ok(round)
}

/// Runs the next of those that are left, four for each thread, or all that are left.
pub(crate) fn run_next<RT: Threads + Sync>(
    rt: &RT,
    alloc: Global,
    left: &mut IntoIter<RunJob>,
    places: &mut Vec<Workplace>,
) -> Result<Vec<RunDone>, AllocError>
    requires places { (0 < vec_len places.old) × (vec_len places.old ≤ 64) }
    requires left { 0 < into_iter_len left.old }
    requires counted { into_iter_len left.old ≡ length (into_iter_items left.old) }
    requires under_way { IsUnderWay (into_iter_items left.old) places.old.items }
    ensures done { IfOk result (λ done. into_iter_items left.old ≡ done.items ++ into_iter_items left.new) }
    ensures fewer { OnOk result (into_iter_len left.new < into_iter_len left.old) }
    ensures counted { OnOk result (into_iter_len left.new ≡ length (into_iter_items left.new)) }
    ensures under_way { OnOk result (IsUnderWay (into_iter_items left.new) places.new.items) }
    ensures places { vec_len places.new ≡ vec_len places.old }
{
    let round = take_round(alloc, left, 4 * places.len())?;
    match run_round_with(rt, alloc, round, places) {
        Ok(done) => Ok(done),
        Err(_) => Err(AllocError),
    }
}
