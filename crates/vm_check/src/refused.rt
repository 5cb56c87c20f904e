// What is told of a text that is refused.
ghost use Rattle.std.specs.Prelude.{◌≡◌, IfOk, option_map, string_bytes};
ghost use Rattle.json.specs.Value.{value_view};
ghost use Rattle.vm_check.specs.Refused.{plain_text, ranged, ranged_at, ranged_by, ranged_in, ranged_text, refused_text, size_for, words_of};

use crate::document::{number_at, part_in, version_of};
use crate::range::{Range, range_of};
use json::Value;
use std::alloc::{AllocError, Global};
use vm_config::{ConfigError, Fault, Key, Part, Place};

// A number out of its range, as it is written. A minimum's range goes to the size of its guest.
#[derive(Clone, Copy)]
pub(crate) struct Ranged<'a> {
    value: &'a str,
    range: Range,
    size: Option<&'a str>,
}

// The size of a guest, at the key of its minimum.
fn size_for<'a>(object: &Value<'a>, key: Key) -> Option<&'a str>
    ensures { option_map (λ s. s.now) result ≡ size_for key (value_view object.now) }
{
    if key == Key::Min {
        number_at(object, "size")
    } else {
        None
    }
}

// The number at a key of a part, if one with a range stands there.
fn ranged_in<'a>(root: &Value<'a>, part: Part, key: Key) -> Option<Ranged<'a>>
    ensures { option_map ranged result ≡ ranged_in part key (value_view root.now) }
{
    let object = part_in(root, part)?;
    let value = number_at(object, key.name())?;
    let range = range_of(version_of(root), key)?;
    Some(Ranged {
        value,
        range,
        size: size_for(object, key),
    })
}

// The number at a place.
fn ranged_at<'a>(root: &Value<'a>, place: Place) -> Option<Ranged<'a>>
    ensures { option_map ranged result ≡ ranged_at place (value_view root.now) }
{
    match place {
        Place::Text => None,
        Place::Key { part, key } => ranged_in(root, part, key),
    }
}

// The number that is out of its range, if the fault is that.
fn ranged_by<'a>(root: Option<&Value<'a>>, fault: Fault) -> Option<Ranged<'a>>
    ensures { option_map ranged result ≡ ranged_by (option_map (λ v. value_view v.now) root.entry) fault }
{
    if fault.error != ConfigError::Range {
        return None;
    }
    ranged_at(root?, fault.place)
}

// The words of an error that has no number.
fn words_of(error: ConfigError) -> &'static str
    ensures { result.now ≡ words_of error }
{
    match error {
        ConfigError::NotJson => "not a JSON text",
        ConfigError::Missing => "a required key is absent",
        ConfigError::Kind => "a value is not of its key's kind",
        ConfigError::Range => "a value is outside its key's range",
        ConfigError::Name => "a name has a character or a length that names do not have",
        ConfigError::Twice => "two guests have one name",
        ConfigError::Trace { .. } => "a step has a fault",
        ConfigError::Memory => "out of memory",
    }
}

// What is told of a fault by itself.
fn plain_text(alloc: Global, fault: Fault) -> Result<String, AllocError>
    ensures { IfOk result (λ line. string_bytes line ≡ plain_text fault) }
{
    let place = fault.place;
    match fault.error {
        ConfigError::Trace { step, fault, .. } => format!(in alloc;
            "{place}: step {step}: {fault}"
        ),
        ConfigError::Kind if place == Place::Text => format!(in alloc; "{place}: not an object"),
        error => {
            let words = words_of(error);
            format!(in alloc; "{place}: {words}")
        }
    }
}

// What is told of a number out of its range.
fn ranged_text(alloc: Global, place: Place, found: Ranged<'_>) -> Result<String, AllocError>
    ensures { IfOk result (λ line. string_bytes line ≡ ranged_text place (ranged found.entry)) }
{
    let value = found.value;
    let least = found.range.least;
    let greatest = found.range.greatest;
    match found.size {
        Some(size) => format!(in alloc; "{place}: {value}, allowed {least} to {size}"),
        None => format!(in alloc; "{place}: {value}, allowed {least} to {greatest}"),
    }
}

/// What is told of the first fault of a text, whose JSON value this is: with the number and its range where it is out of that, and
/// else as the fault prints.
pub(crate) fn refused_text(
    alloc: Global,
    root: Option<&Value<'_>>,
    fault: Fault,
) -> Result<String, AllocError>
    ensures { IfOk result (λ line. string_bytes line ≡ refused_text (option_map (λ v. value_view v.now) root.entry) fault) }
{
    match ranged_by(root, fault) {
        Some(found) => ranged_text(alloc, fault.place, found),
        None => plain_text(alloc, fault),
    }
}
