// Rows of runs as CSV: of each run, on 1, 2, 5 and 64 workers, through both gates.
use crate::cases::{Entry, check_bytes};
use crate::reports::{Silent, WORKERS};
use crate::tally::Tally;
use anyhow::{Result, bail, ensure};
use std::rt::Files;
use std::thread::Threads;
use std::{fs, io};
use vm_series::{collect_series, csv_text};
use vm_sim::{Gate, Open};

/// Refuses a run of a configuration whose rows are others than these.
fn check_rows<RT: AllocGlobal + Threads + Sync, G: Gate + Sync>(
    rt: &RT,
    gate: &G,
    workers: u32,
    config: &[u8],
    rows: &[u8],
) -> Result<()> {
    let series = collect_series(rt, rt.alloc(), gate, workers, config)?;
    let text = csv_text(rt.alloc(), &series)?;
    if let Err(error) = check_bytes(text.as_slice(), rows) {
        bail!("{workers} workers: {error}");
    }
    Ok(())
}

/// Runs a configuration through this gate on each number of workers.
fn check_runs<RT: AllocGlobal + Threads + Sync, G: Gate + Sync>(
    rt: &RT,
    gate: &G,
    config: &[u8],
    rows: &[u8],
) -> Result<()> {
    for workers in WORKERS {
        check_rows(rt, gate, workers, config, rows)?;
    }
    Ok(())
}

fn check<RT: Files + AllocGlobal + Threads + Sync>(rt: &RT, entry: &Entry) -> Result<()> {
    ensure!(entry.key == "rows", "not a line of this kind");
    let alloc = rt.alloc();
    let name = entry.value;
    let config = fs::read(rt, format!(in alloc; "{name}.json")?)?;
    let rows = fs::read(rt, format!(in alloc; "{name}.csv")?)?;
    check_runs(rt, &Open, config.as_slice(), rows.as_slice())?;
    check_runs(rt, &Silent, config.as_slice(), rows.as_slice())
}

/// Tries the rows of each run of a block.
pub(crate) fn try_block<RT: Files + Print + AllocGlobal + Threads + Sync>(
    rt: &RT,
    block: &[Entry],
    tally: &mut Tally,
) -> io::Result<()> {
    for entry in block {
        tally.note(rt, entry.number, check(rt, entry))?;
    }
    Ok(())
}
