// The odd keys of a part: those that a version doesn't know, and those that stand twice.
ghost use Rattle.std.specs.Prelude.{◌≡◌, IfOk, None, OnOk, Some, map, option_map, string_bytes};
ghost use Rattle.json.specs.Value.{value_view};
ghost use Rattle.vm_json.specs.Tree.{value_view as keys_view};
ghost use Rattle.vm_keys.specs.Keys.{keys_in};
ghost use Rattle.vm_keys.specs.OddKeys.{odd_of, twice};
ghost use Rattle.vm_check.specs.Odd.{guest_keys, known_keys, odd_in, odd_line, odd_lines, root_keys, unknown_line};
ghost use Rattle.vm_check.specs.Report.{with_lines};

use crate::document::{part_in, version_of};
use crate::report::Report;
use json::Value;
use std::alloc::{AllocError, Global};
use std::fmt;
use vm_config::Part;
use vm_keys::{OddKey, ShownKey, odd_keys};

// The keys of the root.
fn root_keys(version: u32) -> &'static [&'static str]
    ensures { map (λ k. k.now) result.now ≡ root_keys version }
{
    if version == 3 {
        &[
            "version",
            "frames",
            "swap",
            "overhead",
            "tax",
            "percent",
            "page_rate",
            "rebalance",
            "page",
            "quantum",
            "epochs",
            "guests",
            "commands",
        ]
    } else {
        &[
            "version",
            "frames",
            "swap",
            "overhead",
            "tax",
            "percent",
            "page_rate",
            "quantum",
            "epochs",
            "guests",
            "commands",
        ]
    }
}

// The keys of a guest.
fn guest_keys(version: u32) -> &'static [&'static str]
    ensures { map (λ k. k.now) result.now ≡ guest_keys version }
{
    if version == 1 {
        &[
            "name",
            "size",
            "min",
            "shares",
            "samples",
            "period",
            "rate",
            "seed",
            "stream",
            "autostart",
            "trace",
        ]
    } else if version == 2 {
        &[
            "name",
            "size",
            "min",
            "shares",
            "samples",
            "period",
            "rate",
            "seed",
            "stream",
            "autostart",
            "tell",
            "trace",
        ]
    } else {
        &[
            "name",
            "size",
            "min",
            "shares",
            "samples",
            "period",
            "rate",
            "seed",
            "stream",
            "autostart",
            "tell",
            "driver",
            "trace",
        ]
    }
}

// The keys of a part.
fn known_keys(version: u32, part: Part) -> &'static [&'static str]
    ensures { map (λ k. k.now) result.now ≡ known_keys version part }
{
    match part {
        Part::Root => root_keys(version),
        Part::Guest(_) => guest_keys(version),
        Part::Command(_) => &["at", "line"],
    }
}

// What a part is called.
#[derive(Clone, Copy)]
struct PartName {
    part: Part,
}

impl fmt::Display for PartName {
    ghost use Rattle.std.specs.Prelude.{Some};
    ghost use Rattle.vm_check.specs.Odd.{part_words};

    ghost output = { λ name. Some (part_words name.part) };

    fn fmt<W: fmt::Write>(&self, f: &mut fmt::Formatter<W>) -> fmt::Result {
        match self.part {
            Part::Root => write!(f, "the root"),
            Part::Guest(_) => write!(f, "a guest"),
            Part::Command(_) => write!(f, "a command"),
        }
    }
}

// The place of a key that may be any.
#[derive(Clone, Copy)]
struct OddPlace<'a> {
    part: Part,
    key: &'a str,
}

impl fmt::Display for OddPlace<'_> {
    ghost use Rattle.std.specs.Prelude.{Some};
    ghost use Rattle.vm_check.specs.Odd.{odd_place};

    ghost output = { λ place. Some (odd_place place.part place.key.now) };

    fn fmt<W: fmt::Write>(&self, f: &mut fmt::Formatter<W>) -> fmt::Result {
        let key = ShownKey { key: self.key };
        match self.part {
            Part::Root => write!(f, "key {key}"),
            Part::Guest(number) => write!(f, "guest {number}, key {key}"),
            Part::Command(number) => write!(f, "command {number}, key {key}"),
        }
    }
}

// What is told of a key that is like no known one.
fn far_line(alloc: Global, part: Part, key: &str) -> Result<String, AllocError>
    ensures { IfOk result (λ line. string_bytes line ≡ unknown_line part key.now None) }
{
    let place = OddPlace { part, key };
    let name = PartName { part };
    format!(in alloc; "{place}: no key of {name}")
}

// What is told of a key that is nearly a known one.
fn near_line(alloc: Global, part: Part, key: &str, near: &str) -> Result<String, AllocError>
    ensures { IfOk result (λ line. string_bytes line ≡ unknown_line part key.now (Some near.now)) }
{
    let place = OddPlace { part, key };
    let name = PartName { part };
    let near = ShownKey { key: near };
    format!(in alloc; "{place}: no key of {name}, nearest is {near}")
}

// What is told of a key that stands twice.
fn twice_line(alloc: Global, part: Part, key: &str) -> Result<String, AllocError>
    ensures { IfOk result (λ line. string_bytes line ≡ odd_line part (twice key.now)) }
{
    let place = OddPlace { part, key };
    format!(in alloc; "{place}: stands twice")
}

// What is told of a key that isn't known.
fn unknown_line(
    alloc: Global,
    part: Part,
    key: &str,
    nearest: Option<&str>,
) -> Result<String, AllocError>
    ensures { IfOk result (λ line. string_bytes line ≡ unknown_line part key.now (option_map (λ k. k.now) nearest.entry)) }
{
    match nearest {
        Some(near) => near_line(alloc, part, key, near),
        None => far_line(alloc, part, key),
    }
}

// What is told of an odd key.
fn odd_line(alloc: Global, part: Part, odd: OddKey<'_, '_>) -> Result<String, AllocError>
    ensures { IfOk result (λ line. string_bytes line ≡ odd_line part (odd_of odd.entry)) }
{
    match odd {
        OddKey::Unknown { key, nearest } => unknown_line(alloc, part, key, nearest),
        OddKey::Twice { key } => twice_line(alloc, part, key),
    }
}

// Adds a line for each odd key.
fn push_odd(
    alloc: Global,
    report: &mut Report,
    part: Part,
    odd: &[OddKey<'_, '_>],
) -> Result<(), AllocError>
    ensures { OnOk result (report.new ≡ with_lines report.old (map (λ o. odd_line part (odd_of o)) odd.now)) }
{
    for key in odd {
        let line = odd_line(alloc, part, *key)?;
        report.push(line.as_str())?;
    }
    Ok(())
}

// Members without their values.
fn bare_members<'a>(
    alloc: Global,
    members: &[(&'a str, Value<'a>)],
) -> Result<Vec<(&'a str, vm_json::Value<'a>)>, AllocError>
    ensures { IfOk result (λ bare. map (λ m. m.0.now) bare.items ≡ map (λ m. m.0.now) members.now) }
{
    let mut bare = Vec::new(alloc);
    for (key, _) in members {
        bare.push((*key, vm_json::Value::Null))?;
    }
    Ok(bare)
}

// The keys of an object, without their values; those of another value are none.
fn keys_of<'a>(alloc: Global, object: &Value<'a>) -> Result<vm_json::Value<'a>, AllocError>
    ensures { IfOk result (λ keys. keys_in (keys_view keys) ≡ keys_in (value_view object.now)) }
{
    if let Value::Object(members) = object {
        let bare = bare_members(alloc, members)?;
        return Ok(vm_json::Value::Object(bare));
    }
    Ok(vm_json::Value::Null)
}

// Adds a line for each odd key of the object of a part.
fn push_object(
    alloc: Global,
    report: &mut Report,
    version: u32,
    part: Part,
    object: &Value<'_>,
) -> Result<(), AllocError>
    ensures { OnOk result (report.new ≡ with_lines report.old (odd_in version part (value_view object.now))) }
{
    let keys = keys_of(alloc, object)?;
    let odd = odd_keys(alloc, &keys, known_keys(version, part))?;
    push_odd(alloc, report, part, &odd)
}

/// Adds a line for each odd key of a part, if it is an object.
pub(crate) fn push_odd_keys(
    alloc: Global,
    report: &mut Report,
    root: &Value<'_>,
    part: Part,
) -> Result<(), AllocError>
    ensures { OnOk result (report.new ≡ with_lines report.old (odd_lines part (value_view root.now))) }
{
    match part_in(root, part) {
        Some(object) => push_object(alloc, report, version_of(root), part, object),
        None => Ok(()),
    }
}
