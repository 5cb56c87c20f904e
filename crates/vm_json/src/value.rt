// A JSON value as a tree, and how it is read.
ghost use Rattle.std.specs.Prelude.{◌≡◌, ◌<◌, ◌≤◌, ◌++◌, ◌∷◌, [], length, Some, None, Err, IfErr, IfOk, OnOk, IsTrue};
ghost use Rattle.json.specs.Json.{array, items, members, string, value};
ghost use Rattle.json.specs.Reads.{opens, token_of};
ghost use Rattle.json.specs.Value.{items_of};
ghost use Rattle.vm_json.specs.Tree.{array_at, gathered, members_view, value_view};
ghost use Rattle.vm_json.specs.declared.error.ReadError.TheVariants.{Memory, NotJson};

use crate::error::ReadError;
use json::{Reader, Token};
use std::alloc::{AllocError, Global};

/// A JSON value (RFC 8259, section 3), whose texts and numbers are borrowed. Its numbers stay text.
///
/// An array of texts alone is read as [`Value::Texts`], in which an item takes half as much memory as in another array.
#[derive(Drop)]
pub enum Value<'a> {
    /// The word `null`.
    Null,
    /// One of the words `true` and `false`.
    Bool(bool),
    /// A number, as it is written (section 6).
    Number(&'a str),
    /// A text, without its escapes (section 7).
    Text(&'a str),
    /// The items of an array of texts (section 5).
    Texts(Vec<&'a str>),
    /// The items of an array.
    Array(Vec<Value<'a>>),
    /// The members of an object, in order (section 4).
    Object(Vec<(&'a str, Value<'a>)>),
}

// Adds a text behind the other items, of which texts are kept by themselves until another value comes.
pub(crate) fn gather<'a>(
    texts: &mut Vec<&'a str>,
    values: &mut Vec<Value<'a>>,
    text: &'a str,
) -> Result<(), AllocError>
    ensures ok { OnOk result (gathered texts.new.items values.new.items
        ≡ gathered texts.old.items values.old.items ++ string text.now ∷ []) }
{
    if values.is_empty() {
        add(texts, text)
    } else {
        add(values, Value::Text(text))
    }
}

#[inline(always)]
pub(crate) fn add<T: Drop>(items: &mut Vec<T>, item: T) -> Result<(), AllocError>
    ensures ok { OnOk result (items.new.items ≡ items.old.items ++ item ∷ []) }
{
    if items.len() < items.capacity() {
        items.push_reserved(item);
        return Ok(());
    }
    items.push(item)?;
    Ok(())
}

// The values of texts, and then these.
fn values_of<'a>(
    alloc: Global,
    texts: &[&'a str],
    values: Vec<Value<'a>>,
) -> Result<Vec<Value<'a>>, AllocError>
    ensures ok { IfOk result (λ vs. gathered [] vs.items ≡ gathered texts.now values.entry.items) }
{
    if texts.is_empty() {
        return Ok(values);
    }
    let mut all = Vec::new(alloc);
    for text in texts {
        add(&mut all, Value::Text(*text))?;
    }
    for value in values {
        add(&mut all, value)?;
    }
    Ok(all)
}

// The array of all that was gathered.
pub(crate) fn array_of<'a>(
    alloc: Global,
    texts: Vec<&'a str>,
    values: Vec<Value<'a>>,
) -> Result<Value<'a>, AllocError>
    ensures ok { IfOk result (λ v. value_view v ≡ array (items_of (gathered texts.entry.items values.entry.items))) }
{
    if values.is_empty() {
        return Ok(Value::Texts(texts));
    }
    let values = values_of(alloc, &texts, values)?;
    Ok(Value::Array(values))
}

// The next value of the reader. Arrays and objects may nest `depth` deep.
#[cycle(read)]
pub(crate) fn read_value<'a>(
    alloc: Global,
    reader: &mut Reader<'a>,
    depth: usize,
) -> Result<Value<'a>, ReadError>
    ensures ok { IfOk result (λ v. value depth reader.old ≡ Some (value_view v, reader.new)) }
    ensures shorter { OnOk result (length reader.new < length reader.old) }
    ensures invalid { result ≡ Err NotJson → value depth reader.old ≡ None }
    ensures memory { result ≡ Err Memory → IsTrue (opens reader.old) }
{
    let Some(token) = reader.next() else {
        return Err(ReadError::NotJson);
    };
    value_from(alloc, token, reader, depth)
}

// The value that a token begins.
#[cycle(read)]
fn value_from<'a>(
    alloc: Global,
    token: Token<'a>,
    reader: &mut Reader<'a>,
    depth: usize,
) -> Result<Value<'a>, ReadError>
    ensures ok { IfOk result (λ v. value depth (token_of token.entry ∷ reader.old) ≡ Some (value_view v, reader.new)) }
    ensures shorter { OnOk result (length reader.new ≤ length reader.old) }
    ensures invalid { result ≡ Err NotJson → value depth (token_of token.entry ∷ reader.old) ≡ None }
    ensures memory { result ≡ Err Memory → IsTrue (opens (token_of token.entry ∷ reader.old)) }
{
    match token {
        Token::String(text) => Ok(Value::Text(text)),
        Token::Number(text) => Ok(Value::Number(text)),
        Token::Bool(b) => Ok(Value::Bool(b)),
        Token::Null => Ok(Value::Null),
        Token::EndObject | Token::EndArray | Token::Key(_) | Token::Bad => Err(ReadError::NotJson),
        Token::BeginArray => {
            if depth == 0 {
                return Err(ReadError::NotJson);
            }
            read_items(alloc, reader, depth - 1)
        }
        Token::BeginObject => {
            if depth == 0 {
                return Err(ReadError::NotJson);
            }
            let members = read_members(alloc, reader, depth - 1)?;
            Ok(Value::Object(members))
        }
    }
}

// The array whose items come next.
#[cycle(read)]
fn read_items<'a>(
    alloc: Global,
    reader: &mut Reader<'a>,
    depth: usize,
) -> Result<Value<'a>, ReadError>
    ensures ok { IfOk result (λ v. array_at (items (value depth) (length reader.old) reader.old) ≡ Some (value_view v, reader.new)) }
    ensures shorter { OnOk result (length reader.new < length reader.old) }
    ensures invalid { result ≡ Err NotJson → items (value depth) (length reader.old) reader.old ≡ None }
{
    let mut texts = Vec::new(alloc);
    let mut values = Vec::new(alloc);
    while !reader.take_end_array() {
        let Some(token) = reader.next() else {
            return Err(ReadError::NotJson);
        };
        if let Token::String(text) = token {
            gather(&mut texts, &mut values, text)?;
        } else {
            let item = value_from(alloc, token, reader, depth)?;
            add(&mut values, item)?;
        }
    }
    let array = array_of(alloc, texts, values)?;
    Ok(array)
}

// The members of the object that come next.
#[cycle(read)]
fn read_members<'a>(
    alloc: Global,
    reader: &mut Reader<'a>,
    depth: usize,
) -> Result<Vec<(&'a str, Value<'a>)>, ReadError>
    ensures ok { IfOk result (λ ms. members (value depth) (length reader.old) reader.old ≡ Some (members_view ms.items, reader.new)) }
    ensures shorter { OnOk result (length reader.new < length reader.old) }
    ensures invalid { result ≡ Err NotJson → members (value depth) (length reader.old) reader.old ≡ None }
{
    let mut found = Vec::new(alloc);
    loop {
        let Ok(next) = reader.next_key() else {
            return Err(ReadError::NotJson);
        };
        let Some(key) = next else {
            return Ok(found);
        };
        let member = read_value(alloc, reader, depth)?;
        add(&mut found, (key, member))?;
    }
}
