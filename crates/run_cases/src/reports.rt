// Whole reports: of each, on 1, 2, 5 and 64 workers, once with threads only where they have enough to do, and once with as many as are
// asked for.
use crate::cases::{Entry, check_bytes};
use crate::tally::Tally;
use anyhow::{Result, bail, ensure};
use std::rt::Files;
use std::thread::Threads;
use std::{fs, io};
use vm_sim::{Gate, Open, Ran, Watched, run};

pub(crate) const WORKERS: [u32; 4] = [1, 2, 5, 64];

/// A gate that does nothing, and does not say that it never waits: so short epochs run on threads too.
pub(crate) struct Silent;

impl Gate for Silent {
    ghost use Rattle.std.specs.Prelude.{⊤};

    type Outside = ();

    type Inside = ();

    ghost passed = { λ _ _. ⊤ };

    ghost inside = { λ _ _ _. ⊤ };

    fn arrive(&self) {}

    fn enter(&self, _outside: (), _number: u32) {}

    fn leave(&self, _ran: Ran<()>, _number: u32)
        ensures { ⊤ }
    {}
}

/// Runs a configuration, and refuses it if something else than this report is written.
fn check_run<RT: AllocGlobal + Threads + Sync, G: Gate + Sync>(
    rt: &RT,
    gate: &G,
    config: &[u8],
    workers: u32,
    report: &[u8],
) -> Result<()> {
    let alloc = rt.alloc();
    let mut written = Vec::new(alloc);
    let mut reader = Watched::new(config);
    let mut writer = Watched::new(&mut written);
    match run(rt, alloc, gate, workers, &mut reader, &mut writer) {
        Ok(host) => drop(host.close()),
        Err(_) => bail!("{workers} workers: no report"),
    }
    if let Err(error) = check_bytes(written.as_slice(), report) {
        bail!("{workers} workers: {error}");
    }
    Ok(())
}

/// Runs a configuration through this gate on each number of workers.
fn check_runs<RT: AllocGlobal + Threads + Sync, G: Gate + Sync>(
    rt: &RT,
    gate: &G,
    config: &[u8],
    report: &[u8],
) -> Result<()> {
    for workers in WORKERS {
        check_run(rt, gate, config, workers, report)?;
    }
    Ok(())
}

fn check<RT: Files + AllocGlobal + Threads + Sync>(rt: &RT, entry: &Entry) -> Result<()> {
    ensure!(entry.key == "report", "not a line of this kind");
    let alloc = rt.alloc();
    let name = entry.value;
    let config = fs::read(rt, format!(in alloc; "{name}.json")?)?;
    let report = fs::read(rt, format!(in alloc; "{name}.report")?)?;
    check_runs(rt, &Open, config.as_slice(), report.as_slice())?;
    check_runs(rt, &Silent, config.as_slice(), report.as_slice())
}

/// Tries each report of a block.
pub(crate) fn try_block<RT: Files + Print + AllocGlobal + Threads + Sync>(
    rt: &RT,
    block: &[Entry],
    tally: &mut Tally,
) -> io::Result<()> {
    for entry in block {
        tally.note(rt, entry.number, check(rt, entry))?;
    }
    Ok(())
}
