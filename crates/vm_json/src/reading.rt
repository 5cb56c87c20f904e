// From bytes to a value.
ghost use Rattle.std.specs.Prelude.{◌≡◌, ◌<◌, length, Some, None, Err, IfOk};
ghost use Rattle.std.specs.Str.{IsUtf8};
ghost use Rattle.vm_json.specs.Tree.{items_view, members_view, value_view};
ghost use Rattle.serde_json.specs.Read.{read as read_text};
ghost use Rattle.vm_json.specs.View.{are_members_readable, are_readable, is_readable, json_of, view};
ghost use Rattle.vm_json.specs.declared.error.ReadError.TheVariants.{Memory, NotJson};

use crate::error::ReadError;
use crate::number::is_in_range;
use crate::plain::read_plain;
use crate::value::{Value, read_value};
use json::{Reader, Scratch};
use std::alloc::Global;

// How deep arrays and objects may nest.
const MAX_DEPTH: usize = 127;

/// The JSON value (RFC 8259) that bytes are.
///
/// Arrays and objects may nest 127 deep, and a number is to be an integer of 64 bits or round to a finite float. Texts are borrowed
/// from the bytes, or, where they have escapes, from the scratch.
///
/// [`ReadError::NotJson`] comes for bytes that are no UTF-8 (section 8.1), no JSON text, nest deeper, or have another number;
/// [`ReadError::Memory`] only for some bytes.
pub fn read<'a>(
    alloc: Global,
    bytes: &'a [u8],
    scratch: &'a mut Scratch,
) -> Result<Value<'a>, ReadError>
    ensures ok { IfOk result (λ v. IsUtf8 bytes.now × (read_text bytes.now ≡ Some (view v))) }

    // With each member where it stands in the text, also those of a key that comes twice.
    ensures tree { IfOk result (λ v. json_of bytes.now ≡ Some (value_view v)) }

    ensures refused { result ≡ Err NotJson → IsUtf8 bytes.now → read_text bytes.now ≡ None }
    ensures memory { result ≡ Err Memory → 0 < length bytes.now }
{
    let Ok(text) = simdutf8::compat::from_utf8(bytes) else {
        return Err(ReadError::NotJson);
    };
    let value = read_json(alloc, text, scratch)?;
    if !is_readable(&value) {
        return Err(ReadError::NotJson);
    }
    Ok(value)
}

// The value whose numbers may have any size. A text without escapes is read from its bytes, and any other, or one that is not
// understood that way, from its tokens.
fn read_json<'a>(
    alloc: Global,
    text: &'a str,
    scratch: &'a mut Scratch,
) -> Result<Value<'a>, ReadError>
    ensures ok { IfOk result (λ v. json_of text.now ≡ Some (value_view v)) }
    ensures refused { result ≡ Err NotJson → json_of text.now ≡ None }
    ensures memory { result ≡ Err Memory → 0 < length text.now }
{
    if !text.as_bytes().contains(&b'\\') {
        if let Some(value) = read_plain(alloc, text, MAX_DEPTH)? {
            return Ok(value);
        }
    }
    read_tokens(alloc, text, scratch)
}

// The same, from the tokens.
fn read_tokens<'a>(
    alloc: Global,
    text: &'a str,
    scratch: &'a mut Scratch,
) -> Result<Value<'a>, ReadError>
    ensures ok { IfOk result (λ v. json_of text.now ≡ Some (value_view v)) }
    ensures refused { result ≡ Err NotJson → json_of text.now ≡ None }
    ensures memory { result ≡ Err Memory → 0 < length text.now }
{
    let Ok(mut reader) = Reader::new(text, scratch) else {
        return Err(ReadError::Memory);
    };
    let value = read_value(alloc, &mut reader, MAX_DEPTH)?;
    if reader.next().is_some() {
        return Err(ReadError::NotJson);
    }
    Ok(value)
}

// Whether each number of the value is in range.
#[cycle(is_readable)]
fn is_readable(value: &Value<'_>) -> bool
    ensures { result ≡ is_readable (value_view value.now) }
{
    match value {
        Value::Number(text) => is_in_range(*text),
        Value::Array(items) => are_readable(items),
        Value::Object(members) => are_members_readable(members),
        Value::Texts(_) => true,
        Value::Null | Value::Bool(_) | Value::Text(_) => true,
    }
}

#[cycle(is_readable)]
fn are_readable(items: &[Value<'_>]) -> bool
    ensures { result ≡ are_readable (items_view items.now) }
{
    for item in items {
        if !is_readable(item) {
            return false;
        }
    }
    true
}

#[cycle(is_readable)]
fn are_members_readable(members: &[(&str, Value<'_>)]) -> bool
    ensures { result ≡ are_members_readable (members_view members.now) }
{
    for (_, value) in members {
        if !is_readable(value) {
            return false;
        }
    }
    true
}
