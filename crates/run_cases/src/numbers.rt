// Runs told in numbers: as records of a table of runs, and of one by guests.
ghost use Rattle.std.specs.Prelude.{◌≤◌};

use crate::cases::{Entry, bytes, check_keys, first_line, needed};
use crate::tally::Tally;
use anyhow::{Result, bail, ensure};
use std::alloc::Global;
use std::io;
use std::rt::Files;
use vm_config::Config;
use vm_sim::read_config;
use vm_tally::{
    Combination, Rebalancing, guest_names, guest_records_text, guests_header_text, header_text,
    record_text, run_alone, run_guests_alone,
};

/// Refuses a text that is not this line with the end of one.
fn check_line(found: &str, wanted: &str) -> Result<()> {
    ensure!(found.strip_suffix("\r\n") == Some(wanted), "{found:?}");
    Ok(())
}

/// The same values with other frames and swap.
fn with(values: Combination, frames: u32, swap: u32) -> Combination
    requires frames { (1 ≤ frames) × (frames ≤ 262144) }
    requires swap { swap ≤ 67108864 }
{
    Combination {
        frames,
        swap,
        ..values
    }
}

/// A number, a space, and what comes after it.
fn number(text: &str) -> Result<(u32, &str)> {
    let (number, rest) = text.split_once(' ').unwrap_or((text, ""));
    match number.parse::<u32>() {
        Ok(number) => Ok((number, rest)),
        Err(_) => bail!("no number"),
    }
}

/// The values that a run is to have.
fn values_for(entry: &Entry, own: Combination) -> Result<Combination> {
    if entry.key != "on" {
        return Ok(own);
    }
    let (frames, rest) = number(entry.value)?;
    let (swap, _) = number(rest)?;
    if frames < 1 || frames > 262144 || swap > 67108864 {
        bail!("no machine");
    }
    Ok(with(own, frames, swap))
}

/// What comes after the first space.
fn after_word(text: &str) -> &str {
    match text.split_once(' ') {
        Some((_, rest)) => rest,
        None => "",
    }
}

/// The record that is wanted of a run.
fn record<'a>(entry: &Entry<'a>) -> &'a str {
    if entry.key != "on" {
        return entry.value;
    }
    after_word(after_word(entry.value))
}

/// Runs a configuration, and gives what its run is told as, and the configuration back.
fn told(alloc: Global, mut config: Config, values: Combination) -> Result<(String, Config)> {
    values.apply(&mut config);
    match run_alone(alloc, config) {
        Ok((summary, config)) => {
            let text = record_text(alloc, Rebalancing::Own, &values, &[], &summary)?;
            Ok((text, config))
        }
        Err(_) => bail!("no run"),
    }
}

/// Tries the runs of a block one after the other, each on the configuration that the one before gave back.
fn try_runs(
    rt: &(impl Print + AllocGlobal),
    block: &[Entry],
    mut config: Config,
    tally: &mut Tally,
) -> Result<()> {
    for entry in block {
        if entry.key != "run" && entry.key != "on" {
            continue;
        }
        let values = values_for(entry, Combination::of(&config))?;
        let (text, back) = told(rt.alloc(), config, values)?;
        config = back;
        tally.note(rt, entry.number, check_line(text.as_str(), record(entry)))?;
    }
    Ok(())
}

/// The records that a block wants of guests.
fn wanted_guests(alloc: Global, block: &[Entry]) -> Result<String> {
    let mut records = String::new(alloc);
    for entry in block {
        if entry.key == "guest" {
            records.push_str(entry.value)?;
            records.push_str("\r\n")?;
        }
    }
    Ok(records)
}

/// Runs a configuration, and refuses other records of its guests than the block has.
fn check_guests(alloc: Global, block: &[Entry], mut config: Config) -> Result<()> {
    let values = Combination::of(&config);
    let names = guest_names(alloc, &mut config)?;
    let Ok((guests, _)) = run_guests_alone(alloc, config) else {
        bail!("no run");
    };
    let text = guest_records_text(alloc, Rebalancing::Own, &values, &[], &names, &guests)?;
    let records = wanted_guests(alloc, block)?;
    ensure!(text.as_str() == records.as_str(), "{text:?}");
    Ok(())
}

/// Tries the headers of a block.
fn try_headers(rt: &(impl Print + AllocGlobal), block: &[Entry], tally: &mut Tally) -> Result<()> {
    for entry in block {
        let found = match entry.key {
            "runs" => header_text(rt.alloc(), Rebalancing::Own, &[])?,
            "guests" => guests_header_text(rt.alloc(), Rebalancing::Own, &[])?,
            "swept-runs" => header_text(rt.alloc(), Rebalancing::Swept, &[])?,
            _ => guests_header_text(rt.alloc(), Rebalancing::Swept, &[])?,
        };
        tally.note(rt, entry.number, check_line(found.as_str(), entry.value))?;
    }
    Ok(())
}

/// Tries the cases of a block, up to one that gives no record.
fn try_cases(
    rt: &(impl Files + Print + AllocGlobal),
    block: &[Entry],
    tally: &mut Tally,
) -> Result<()> {
    if !block.iter().any(|entry| entry.key == "input") {
        check_keys(block, &["runs", "guests", "swept-runs", "swept-guests"])?;
        return try_headers(rt, block, tally);
    }
    check_keys(block, &["input", "run", "on", "guest"])?;
    let text = bytes(rt, needed(block, "input")?)?;
    let Ok(config) = read_config(rt.alloc(), text.as_slice()) else {
        bail!("no configuration");
    };
    if block.iter().any(|entry| entry.key == "guest") {
        check_keys(block, &["input", "guest"])?;
        return Ok(tally.note(
            rt,
            first_line(block),
            check_guests(rt.alloc(), block, config),
        )?);
    }
    try_runs(rt, block, config, tally)
}

/// Tries the cases of a block.
pub(crate) fn try_block(
    rt: &(impl Files + Print + AllocGlobal),
    block: &[Entry],
    tally: &mut Tally,
) -> io::Result<()> {
    match try_cases(rt, block, tally) {
        Ok(()) => Ok(()),
        Err(error) => tally.note(rt, first_line(block), Err(error)),
    }
}
