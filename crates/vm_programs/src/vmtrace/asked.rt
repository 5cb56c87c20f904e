//! What the words ask for.
ghost use Rattle.std.specs.Prelude.{◌≡◌, ◌≤◌, Err, IfOk, codes, false, true, unwrap_or};
ghost use Rattle.std.specs.Option.{ForSome};
ghost use Rattle.vm_import.specs.Settings.{settings_of};
ghost use Rattle.vm_config.specs.Names.{is_name};
ghost use Rattle.vm_programs.specs.vmtrace.CommandLine.{LieInRange, name_of, settings_in};
ghost use Rattle.vm_programs.specs.declared.vmtrace.asked.WordsFault.TheVariants.{BadName, Memory};
ghost use Rattle.vm_words.specs.Words.{number_of};

use std::alloc::{AllocError, Global};
use vm_config::is_name;
use vm_import::ImportSettings;
use vm_words::Request;

/// Why words are refused that have the form of the command line.
#[derive(Clone, Copy, PartialEq, Eq)]
pub(crate) enum WordsFault {
    /// The name is none of a guest.
    BadName,
    /// Memory was refused.
    Memory,
}

impl From<AllocError> for WordsFault {
    ghost from_gives = { λ error fault. fault ≡ Memory };

    fn from(_: AllocError) -> Self {
        WordsFault::Memory
    }
}

// The minimum, where the words say it.
fn min_of(request: &Request<'_>) -> Option<u32>
    requires { ForSome (number_of (codes "min") request.now) (λ n. (1 ≤ n) × (n ≤ 262144)) }
    ensures exact { result ≡ number_of (codes "min") request.now }
    ensures within { ForSome result (λ n. (1 ≤ n) × (n ≤ 262144)) }
{
    match request.number("min") {
        Some(number) => Some(number as u32),
        None => None,
    }
}

// The accesses of an interval.
fn interval_of(request: &Request<'_>) -> u32
    requires { ForSome (number_of (codes "interval") request.now) (λ n. (1 ≤ n) × (n ≤ 1000000000)) }
    ensures exact { result ≡ unwrap_or (number_of (codes "interval") request.now) 1000000 }
    ensures within { (1 ≤ result) × (result ≤ 1000000000) }
{
    match request.number("interval") {
        Some(number) => number as u32,
        None => 1_000_000,
    }
}

// The steps of an epoch.
fn quantum_of(request: &Request<'_>) -> u32
    requires { ForSome (number_of (codes "quantum") request.now) (λ n. (1 ≤ n) × (n ≤ 65536)) }
    ensures exact { result ≡ unwrap_or (number_of (codes "quantum") request.now) 1024 }
    ensures within { (1 ≤ result) × (result ≤ 65536) }
{
    match request.number("quantum") {
        Some(number) => number as u32,
        None => 1024,
    }
}

// The most steps.
fn steps_of(request: &Request<'_>) -> u32
    requires { ForSome (number_of (codes "steps") request.now) (λ n. (1 ≤ n) × (n ≤ 1000000)) }
    ensures exact { result ≡ unwrap_or (number_of (codes "steps") request.now) 1000000 }
    ensures within { (1 ≤ result) × (result ≤ 1000000) }
{
    match request.number("steps") {
        Some(number) => number as u32,
        None => 1_000_000,
    }
}

// What a request asks for.
pub(crate) fn asked_of(alloc: Global, request: &Request<'_>) -> Result<ImportSettings, WordsFault>
    requires { LieInRange request.now }
    ensures asked { IfOk result (λ settings. settings_of settings ≡ settings_in request.now) }
    ensures named { IfOk result (λ _. is_name (name_of request.now) ≡ true) }
    ensures unnamed { result ≡ Err BadName → is_name (name_of request.now) ≡ false }
{
    let name = request.text("name").unwrap_or("guest");
    if !is_name(name) {
        return Err(WordsFault::BadName);
    }
    Ok(ImportSettings {
        name: String::from_str(alloc, name)?,
        min: min_of(request),
        interval: interval_of(request),
        quantum: quantum_of(request),
        skip: request.number("skip").unwrap_or(0),
        steps: steps_of(request),
        has_code: !request.has_flag("no-code"),
    })
}
