// The JSON value of a text, with all members of its objects in their order.
ghost use Rattle.std.specs.Prelude.{◌≡◌, IfOk, option_map};
ghost use Rattle.json.specs.Value.{value_view};
ghost use Rattle.vm_check.specs.Document.{item_in, number_at, part_in, tree_in, version_of};

use json::{Error, Scratch, Value};
use std::alloc::{AllocError, Global};
use std::str;
use vm_config::Part;

/// The JSON value that a text is; `None` where it is none.
pub(crate) fn tree<'a>(
    alloc: Global,
    text: &'a [u8],
    scratch: &'a mut Scratch,
) -> Result<Option<Value<'a>>, AllocError>
    ensures { IfOk result (λ tree. option_map value_view tree ≡ tree_in text.now) }
{
    let Ok(text) = str::from_utf8(text) else {
        return Ok(None);
    };
    match Value::parse(alloc, text, scratch) {
        Ok(value) => Ok(Some(value)),
        Err(Error::Invalid) => Ok(None),
        Err(_) => Err(AllocError),
    }
}

// The item of a number in the array at a key.
fn item_in<'v, 'a>(root: &'v Value<'a>, key: &str, number: usize) -> Option<&'v Value<'a>>
    ensures { option_map (λ v. value_view v.now) result ≡ item_in key.now number (value_view root.now) }
{
    root.get(key)?.at(number)
}

/// The object of a part, if there is one.
pub(crate) fn part_in<'v, 'a>(root: &'v Value<'a>, part: Part) -> Option<&'v Value<'a>>
    ensures { option_map (λ v. value_view v.now) result ≡ part_in part (value_view root.now) }
{
    match part {
        Part::Root => Some(root),
        Part::Guest(number) => item_in(root, "guests", number),
        Part::Command(number) => item_in(root, "commands", number),
    }
}

/// The number at a key, as it is written.
pub(crate) fn number_at<'a>(object: &Value<'a>, key: &str) -> Option<&'a str>
    ensures { option_map (λ s. s.now) result ≡ number_at key.now (value_view object.now) }
{
    object.get(key)?.as_number()
}

/// The version of a configuration: 1 or 2 where such a number stands there, and else the newest, 3.
pub(crate) fn version_of(root: &Value<'_>) -> u32
    ensures { result ≡ version_of (value_view root.now) }
{
    let Some(version) = number_at(root, "version") else {
        return 3;
    };
    if version == "1" {
        1
    } else if version == "2" {
        2
    } else {
        3
    }
}
