// From a text to a configuration.
ghost use Rattle.std.specs.Prelude.{◌≡◌, ℕ, ◌≤◌, IfOk, Ok, Some};
ghost use Rattle.std.specs.Option.{option_map};
ghost use Rattle.vm_json.specs.View.{view};
ghost use Rattle.vm_config.specs.declared.config.Config.{Config};
ghost use Rattle.vm_config.specs.declared.error.ConfigError.{ConfigError};
ghost use Rattle.vm_config.specs.declared.place.Key.{Key};
ghost use Rattle.vm_config.specs.FirstFault.{StandsAtGuest};
ghost use Rattle.vm_config.specs.Limits.{IsConfig};
ghost use Rattle.vm_config.specs.Located.{config_at, config_v1_at, keys_at, numbers_at, root_at, version_at};
ghost use Rattle.vm_config.specs.Migration.{migrated};
ghost use Rattle.vm_config.specs.Outcomes.{IsOrMemory};
ghost use Rattle.vm_config.specs.Places.{error_in, fault_in, IsOrLacksMemory};
ghost use Rattle.vm_config.specs.Reading.{config_of, config_v1_of, data_in, root_in};
ghost use Rattle.vm_config.specs.Seen.{data_of, root_seen};
ghost use Rattle.vm_config.specs.Versions.{newer, version_1, version_2, version_3, AreLimits};

use crate::commands::commands;
use crate::config::{Config, ConfigV1};
use crate::error::ConfigError;
use crate::fault::{Fault, at, in_text, without_place};
use crate::guests::{GuestList, guests};
use crate::keys::{number, number_or_default, objects, objects_or_none, take_objects};
use crate::machine::{machine, page_of};
use crate::migration::migrate;
use crate::place::{Key, Part, Place};
use crate::version::{Limits, VERSION_1, VERSION_2, VERSION_3};
use std::alloc::{AllocError, Global};
use vm_domains::MachineSpec;
use vm_json::{ReadError, Scratch, Value, is_object};

// The newest version.
const NEWEST: u64 = 3;

const MAX_QUANTUM: u64 = 65536;

const DEFAULT_QUANTUM: u64 = 100;

const MAX_EPOCHS: u64 = 10_000;

const MAX_COMMANDS: usize = 10_000;

// The machine, what its pages stand for, the steps of an epoch, and the epochs of a run.
#[derive(Clone, Copy)]
struct Numbers {
    machine: MachineSpec,
    page: u32,
    quantum: u32,
    epochs: u32,
}

// The first keys of the root after the version.
#[tactic(auto, unfolding(crate::specs::Located::numbers_at))]
fn numbers_of(limits: &Limits, root: &Value<'_>) -> Result<Numbers, Fault>
    requires { AreLimits limits.now }
    ensures numbers { result ≡ numbers_at limits.now (view root.now) }
    ensures tax { IfOk result (λ n. n.machine.tax ≤ limits.now.tax) }
    ensures percent { IfOk result (λ n. n.machine.percent.high ≤ limits.now.percent) }
    ensures page { IfOk result (λ n. (4 ≤ n.page) × (n.page ≤ 1048576)) }
    ensures quantum { IfOk result (λ n. (1 ≤ n.quantum) × (n.quantum ≤ 65536)) }
    ensures epochs { IfOk result (λ n. n.epochs ≤ 10000) }
{
    let machine = machine(limits, root)?;
    let page = page_of(&machine);
    let quantum = number_or_default(
        root,
        Part::Root,
        Key::Quantum,
        1,
        MAX_QUANTUM,
        DEFAULT_QUANTUM,
    )?;
    let epochs = number(root, Part::Root, Key::Epochs, 0, MAX_EPOCHS)?;
    Ok(Numbers {
        machine,
        page,
        quantum: quantum as u32,
        epochs: epochs as u32,
    })
}

// The keys of the root after the version, then each guest, and then each command.
fn keys(alloc: Global, limits: &Limits, root: Value<'_>) -> Result<Config, Fault>
    requires { AreLimits limits.now }
    ensures config { IsOrLacksMemory result (keys_at limits.now (view root.entry)) }
    ensures limits { IfOk result IsConfig }
    ensures tax { IfOk result (λ c. c.machine.tax ≤ limits.now.tax) }
    ensures percent { IfOk result (λ c. c.machine.percent.high ≤ limits.now.percent) }
{
    let numbers = numbers_of(limits, &root)?;
    at(
        Part::Root,
        Key::Guests,
        objects(&root, "guests", limits.guests),
    )?;
    let schedule = objects_or_none(&root, "commands", MAX_COMMANDS);
    let schedule = at(Part::Root, Key::Commands, schedule)?;
    // The commands are read first, since the root is not whole once the guests are moved out. Their faults come last.
    let commands = commands(alloc, schedule);
    let objects = at(
        Part::Root,
        Key::Guests,
        take_objects(alloc, root, "guests", limits.guests),
    )?;
    let GuestList { domains, autostart } = guests(
        alloc,
        limits,
        numbers.quantum,
        numbers.page,
        objects,
    )?;
    Ok(Config {
        machine: numbers.machine,
        epochs: numbers.epochs,
        domains,
        autostart,
        commands: commands?,
    })
}

// The keys of version 1.
#[tactic(auto, unfolding(crate::specs::Versions::version_1))]
fn keys_v1(alloc: Global, root: Value<'_>) -> Result<ConfigV1, Fault>
    ensures config { IsOrLacksMemory result (keys_at version_1 (view root.entry)) }
    ensures limits { IfOk result IsConfig }
{
    let written = keys(alloc, &VERSION_1, root)?;
    Ok(ConfigV1 { written })
}

// The keys of version 2.
#[tactic(auto, unfolding(crate::specs::Versions::version_2))]
fn keys_v2(alloc: Global, root: Value<'_>) -> Result<Config, Fault>
    ensures config { IsOrLacksMemory result (keys_at version_2 (view root.entry)) }
    ensures limits { IfOk result IsConfig }
{
    keys(alloc, &VERSION_2, root)
}

// The keys of version 3.
#[tactic(auto, unfolding(crate::specs::Versions::version_3))]
fn keys_v3(alloc: Global, root: Value<'_>) -> Result<Config, Fault>
    ensures config { IsOrLacksMemory result (keys_at version_3 (view root.entry)) }
    ensures limits { IfOk result IsConfig }
{
    keys(alloc, &VERSION_3, root)
}

// The keys of a version above 1.
fn keys_newer(alloc: Global, version: u64, root: Value<'_>) -> Result<Config, Fault>
    ensures config { IsOrLacksMemory result (keys_at (newer version) (view root.entry)) }
    ensures limits { IfOk result IsConfig }
{
    if version == 2 {
        return keys_v2(alloc, root);
    }
    keys_v3(alloc, root)
}

// The JSON value that the bytes are.
fn parse<'a>(
    alloc: Global,
    bytes: &'a [u8],
    scratch: &'a mut Scratch,
) -> Result<Value<'a>, ConfigError>
    ensures { IsOrMemory (data_of result) (data_in bytes.now) }
{
    match vm_json::read(alloc, bytes, scratch) {
        Ok(value) => Ok(value),
        Err(ReadError::Memory) => Err(ConfigError::Memory),
        Err(ReadError::NotJson) => Err(ConfigError::NotJson),
    }
}

// The root of a text, which is an object.
fn object<'a>(
    alloc: Global,
    bytes: &'a [u8],
    scratch: &'a mut Scratch,
) -> Result<Value<'a>, ConfigError>
    ensures { IsOrMemory (data_of result) (root_in bytes.now) }
{
    let value = parse(alloc, bytes, scratch)?;
    if !is_object(&value) {
        return Err(ConfigError::Kind);
    }
    Ok(value)
}

// The same, with the place of a fault.
fn root<'a>(alloc: Global, bytes: &'a [u8], scratch: &'a mut Scratch) -> Result<Value<'a>, Fault>
    ensures { IsOrLacksMemory (root_seen result) (root_at bytes.now) }
{
    in_text(object(alloc, bytes, scratch))
}

// The version of a configuration, at most the newest one that is asked for.
fn version(root: &Value<'_>, newest: u64) -> Result<u64, Fault>
    ensures { result ≡ version_at newest (view root.now) }
{
    number(root, Part::Root, Key::Version, 1, newest)
}

// The configuration of version 1 that a text means, or its first fault with its place.
fn located_v1(alloc: Global, bytes: &[u8]) -> Result<ConfigV1, Fault>
    ensures config { IsOrLacksMemory result (config_v1_at bytes.now) }
    ensures limits { IfOk result IsConfig }
{
    let mut scratch = Scratch::new(alloc);
    let root = root(alloc, bytes, &mut scratch)?;
    version(&root, 1)?;
    keys_v1(alloc, root)
}

// The configuration that a text means, or its first fault with its place.
fn located(alloc: Global, bytes: &[u8]) -> Result<Config, Fault>
    ensures config { IsOrLacksMemory result (config_at bytes.now) }
    ensures limits { IfOk result IsConfig }
    ensures migrates { (c : Config) → config_v1_at bytes.now ≡ Ok c → IsOrLacksMemory result (Ok (migrated c)) }
{
    let mut scratch = Scratch::new(alloc);
    let root = root(alloc, bytes, &mut scratch)?;
    let version = version(&root, NEWEST)?;
    if version == 1 {
        let config = keys_v1(alloc, root)?;
        return Ok(migrate(config));
    }
    keys_newer(alloc, version, root)
}

/// Reads a configuration of version 1, as [`read_config`] does; another version is out of its range ([`ConfigError::Range`]).
pub fn read_config_v1(alloc: Global, bytes: &[u8]) -> Result<ConfigV1, ConfigError>
    ensures config { IsOrMemory result (config_v1_of bytes.now) }
    ensures limits { IfOk result IsConfig }
{
    without_place(located_v1(alloc, bytes))
}

/// Reads a configuration from a JSON text (RFC 8259), whose root is an object. Other keys than these are ignored, and so are those that
/// are not keys of its version, which mean their defaults. A number is written with digits alone and is below 2^64.
///
/// | Key | Kind | Range, version 1 | Versions 2 and 3 | Default |
/// |---|---|---|---|---|
/// | `version` | number | 1 | 2 or 3 | required |
/// | `frames` | number, frames of 4096 bytes | 1 to 65536 | to 262144 | required |
/// | `swap` | number, pages of 4096 bytes | 0 to 4194304 | to 67108864 | 0 |
/// | `overhead` | number, frames for each running guest | 0 to 1024 | | 0 |
/// | `tax` | number, percent; from version 2 on hundredths of a percent | 0 to 99 | to 9999 | 75; 7500 |
/// | `percent` | array of four numbers, none above the one before it; from version 2 on hundredths | each 0 to 100 | to 10000 | `[6,4,2,1]`; `[600,400,200,100]` |
/// | `page_rate` | number, frames for a guest and boundary | 1 to 256 | | 16 |
/// | `rebalance` | number, pages that idle guests give at once to those who would pay more | not a key | in version 3 0 to 262144 | 0 |
/// | `page` | number, KiB that a page stands for | not a key | in version 3 4 to 1048576 | 4 |
/// | `quantum` | number, steps an epoch | 1 to 65536 | | 100 |
/// | `epochs` | number | 0 to 10000 | | required |
/// | `guests` | array of objects | 0 to 64 | to 256 | required |
/// | `commands` | array of objects | 0 to 10000 | | none |
///
/// | Key of a guest | Kind | Range, version 1 | Versions 2 and 3 | Default |
/// |---|---|---|---|---|
/// | `name` | text | 1 to 32 letters, digits, `_`, `.`, `-`, the first no `-` | | required |
/// | `size` | number, pages | 1 to 65536 | to 262144 | required |
/// | `min` | number, pages | 1 to `size` | | required |
/// | `shares` | number | 1 to 1000000 | | 1000 |
/// | `samples` | number, pages drawn for a period | 1 to 1000 | | 100 |
/// | `period` | number, executed steps | 1 to 1000000 | | 1000 |
/// | `rate` | number, pages an epoch of the driver | 1 to 256 | | 16 |
/// | `seed` | number | 0 to 2^64 - 1 | | 0 |
/// | `stream` | number | 0 to 2^64 - 1 | | 0 |
/// | `autostart` | truth value | | | true |
/// | `tell` | truth value | not a key | known | true |
/// | `driver` | text | not a key | in version 3 `own` or `none` | `own` |
/// | `trace` | array of texts, each a step | 0 to 1000000 | | none |
///
/// | Key of a command | Kind | Range | Default |
/// |---|---|---|---|
/// | `at` | number, epoch | 0 to 9999 | required |
/// | `line` | text | 1 to 256 printable characters of ASCII and spaces | required |
///
/// The answer is the configuration that the text means, or its first fault: the keys are looked at in the order of the tables,
/// those of the root before those of each guest, and these before those of each command. Of one key, that it is absent comes
/// first, then its kind, then its range; the kinds of all items of an array come before their number. A name is looked at before
/// it is compared with those of earlier guests. Of a trace, the steps come last: each is read within the pages of the greatest
/// guest of the version, and its page is then below `size` ([`TraceError::Range`](vm_trace::TraceError::Range)).
/// [`ConfigError::Memory`] may come in place of any answer.
///
/// A configuration of version 1 is migrated: it is what [`migrate`] makes of what [`read_config_v1`] reads. One of version 2 means what
/// it means as version 3 ([`law_version_2`](crate::law_version_2)). Each guest has the quantum and the page of the root, and keeps the
/// limits of [`GuestSpec`](vm_guest::GuestSpec), and the machine those of [`MachineSpec`](vm_domains::MachineSpec).
pub fn read_config(alloc: Global, bytes: &[u8]) -> Result<Config, ConfigError>
    ensures config { IsOrMemory result (config_of bytes.now) }
    ensures limits { IfOk result IsConfig }
    ensures migrates { (c : Config) → config_v1_of bytes.now ≡ Ok c → IsOrMemory result (Ok (migrated c)) }
{
    without_place(located(alloc, bytes))
}

// The first fault of a text, with its place.
fn first_fault(alloc: Global, bytes: &[u8]) -> Result<Option<Fault>, AllocError>
    ensures { IfOk result (λ found. found ≡ fault_in (config_at bytes.now)) }
{
    match located(alloc, bytes) {
        Ok(_) => Ok(None),
        Err(fault) => {
            if fault.error == ConfigError::Memory {
                return Err(AllocError);
            }
            Ok(Some(fault))
        }
    }
}

/// The error that [`read_config`] answers of a text, with the place of its fault, and `None` where it answers a configuration.
/// The place is the first in the order of refusals at which the text has a fault: the text as a whole, a key of the root, or a key
/// of a guest or a command, which are counted from 0. Where an array has an item of another kind, or too many items, its own key
/// is told.
///
/// It takes memory and time as `read_config` does, and answers [`AllocError`] where memory is refused.
pub fn explain(alloc: Global, bytes: &[u8]) -> Result<Option<Fault>, AllocError>
    ensures error { IfOk result (λ found. option_map (λ fault. fault.error) found ≡ error_in (config_of bytes.now)) }
    ensures place { IfOk result (λ found. found ≡ fault_in (config_at bytes.now)) }
    ensures guest { IfOk result (λ found. (number : ℕ) (key : Key) (error : ConfigError)
        → found ≡ Some (record { error = error; place = Place.Key (Part.Guest number) key }) → StandsAtGuest bytes.now number error) }
{
    first_fault(alloc, bytes)
}
