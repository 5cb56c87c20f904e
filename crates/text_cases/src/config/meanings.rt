// What configurations mean.
use crate::table::{Columns, Outcome};
use std::alloc::{AllocError, Global};
use vm_config::{Config, ConfigError, Schedule, migrate, read_config, read_config_v1};
use vm_domains::{Domains, GuestSpec};

/// The part of a configuration whose meaning a line tells.
#[derive(Clone, Copy)]
enum Part {
    Root,
    FirstGuest,
    FirstCommand,
}

impl Part {
    fn of(name: &str) -> Option<Self> {
        match name {
            "root" => Some(Part::Root),
            "guest 0" => Some(Part::FirstGuest),
            "command 0" => Some(Part::FirstCommand),
            _ => None,
        }
    }
}

/// A text, and what a part of it means.
#[derive(Drop)]
struct Case<'a> {
    newest: u64,
    text: &'a str,
    part: Part,
    wanted: &'a str,
}

impl<'a> Case<'a> {
    fn of(line: &'a str) -> Option<Self> {
        let mut columns = Columns::of(line);
        let case = Case {
            newest: columns.number()?,
            text: columns.text()?,
            part: Part::of(columns.text()?)?,
            wanted: columns.text()?,
        };
        columns.end()?;
        Some(case)
    }
}

/// The configuration of a text, as the reader of version 1 or as that of all versions reads it.
fn read(alloc: Global, newest: u64, text: &str) -> Result<Config, ConfigError> {
    if newest == 1 {
        let written = read_config_v1(alloc, text.as_bytes())?;
        return Ok(migrate(written));
    }
    read_config(alloc, text.as_bytes())
}

/// The numbers of the root, and how many guests and commands there are.
fn root_words(alloc: Global, config: &Config) -> Result<String, AllocError> {
    let machine = config.machine;
    let percent = machine.percent;
    let (frames, swap, overhead) = (machine.frames, machine.swap, machine.overhead);
    let (tax, page_rate, epochs) = (machine.tax, machine.page_rate, config.epochs);
    let (rebalance, page) = (machine.rebalance, machine.page);
    let (high, soft, hard, low) = (percent.high, percent.soft, percent.hard, percent.low);
    let (guests, commands) = (config.domains.len(), config.commands.lines().len());
    format!(in alloc;
        "frames {frames}, swap {swap}, overhead {overhead}, tax {tax}, percent {high} {soft} {hard} {low}, page_rate {page_rate}, \
rebalance {rebalance}, page {page}, epochs {epochs}, guests {guests}, commands {commands}"
    )
}

/// The keys of a guest.
fn guest_words(
    alloc: Global,
    name: &str,
    guest: &GuestSpec,
    autostart: bool,
) -> Result<String, AllocError> {
    let (size, min, shares, quantum) = (guest.size, guest.min, guest.shares, guest.quantum);
    let (samples, period, rate) = (guest.samples, guest.period, guest.rate);
    let (seed, stream, tell, steps) = (guest.seed, guest.stream, guest.tell, guest.trace.len());
    let (driver, page) = (if guest.own_driver { "own" } else { "none" }, guest.page);
    format!(in alloc;
        "name {name}, size {size}, min {min}, shares {shares}, samples {samples}, period {period}, rate {rate}, quantum {quantum}, \
seed {seed}, stream {stream}, autostart {autostart}, tell {tell}, driver {driver}, page {page}, steps {steps}"
    )
}

/// The keys of the first guest.
fn first_guest_words(
    alloc: Global,
    domains: Domains,
    autostart: &[bool],
) -> Result<String, AllocError> {
    let (names, specs) = domains.into_parts();
    let (Some(name), Some(guest), Some(flag)) = (names.get(0), specs.first(), autostart.first())
    else {
        return String::from_str(alloc, "no guest");
    };
    guest_words(alloc, name, guest, *flag)
}

/// The keys of the first command.
fn first_command_words(alloc: Global, commands: &Schedule) -> Result<String, AllocError> {
    let Some(command) = commands.lines().first() else {
        return String::from_str(alloc, "no command");
    };
    let (at, line) = (command.at(), command.line());
    format!(in alloc; "at {at}, line {line}")
}

/// What a part of a configuration means.
fn words(alloc: Global, config: Config, part: Part) -> Result<String, AllocError> {
    match part {
        Part::Root => root_words(alloc, &config),
        Part::FirstGuest => first_guest_words(alloc, config.domains, config.autostart.flags()),
        Part::FirstCommand => first_command_words(alloc, &config.commands),
    }
}

/// Tries a line.
pub(crate) fn outcome(alloc: Global, line: &str) -> Result<Outcome, AllocError> {
    let Some(case) = Case::of(line) else {
        return Ok(Outcome::Malformed);
    };
    match read(alloc, case.newest, case.text) {
        Ok(config) => {
            let came = words(alloc, config, case.part)?;
            Outcome::of(alloc, case.wanted, &came)
        }
        Err(error) => Outcome::of(alloc, case.wanted, &error.number()),
    }
}
