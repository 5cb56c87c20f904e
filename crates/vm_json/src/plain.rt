// Reading a plain text, which has no escapes, straight from its bytes. Memory for an item or a member is asked for once a comma or
// the closing bracket is seen behind it, so that no more is asked for before a fault than by the reader of tokens.
ghost use Rattle.std.specs.Prelude.{◌≡◌, ◌<◌, ◌≤◌, ◌++◌, ◌∷◌, ℕ, [], length, map, option_and_then, Some, IfOk, IfSome, OnErr, OnOk};
ghost use Rattle.json.specs.Json.{array, if_last, value};
ghost use Rattle.json.specs.Lex.{tokens};
ghost use Rattle.vm_json.specs.Plain.{GivesArray, GivesMembers, GivesTexts, GivesValue, Spells};
ghost use Rattle.vm_json.specs.Tree.{gathered, members_view, value_view};

mod lexeme;
mod number;
mod run;

use crate::value::{Value, add, array_of, gather};
use lexeme::{after, after_blanks, after_item, number_at, text_at, text_before, word_at};
use std::alloc::{AllocError, Global};

// Why no value was read.
#[derive(Drop)]
enum Stop {
    // The text has an escape or a fault, or nests too deep.
    NotPlain,
    Memory(AllocError),
}

impl From<AllocError> for Stop {
    fn from(error: AllocError) -> Stop {
        Stop::Memory(error)
    }
}

// The value that a text is, where the text is plain. It may nest `depth` deep.
pub(crate) fn read_plain<'a>(
    alloc: Global,
    text: &'a str,
    depth: usize,
) -> Result<Option<Value<'a>>, AllocError>
    ensures value { IfOk result (λ found. IfSome found (λ v. option_and_then (λ p. if_last p.0 p.1) (value depth (tokens text.now))
        ≡ Some (value_view v))) }
    ensures memory { OnErr result (0 < length text.now) }
{
    if text.is_empty() {
        return Ok(None);
    }
    match whole_value(alloc, text, depth) {
        Ok(value) => Ok(Some(value)),
        Err(Stop::NotPlain) => Ok(None),
        Err(Stop::Memory(error)) => Err(error),
    }
}

// The value that ends with the text.
fn whole_value<'a>(alloc: Global, text: &'a str, depth: usize) -> Result<Value<'a>, Stop>
    ensures { IfOk result (λ v. option_and_then (λ p. if_last p.0 p.1) (value depth (tokens text.now)) ≡ Some (value_view v)) }
{
    let (value, left) = plain_value(alloc, after_blanks(text), depth)?;
    if left.is_empty() {
        Ok(value)
    } else {
        Err(Stop::NotPlain)
    }
}

// The value that comes first in a text that begins with no blank, and what follows it and the blanks behind it.
#[cycle(plain)]
fn plain_value<'a>(alloc: Global, text: &'a str, depth: usize) -> Result<(Value<'a>, &'a str), Stop>
    ensures value { IfOk result (λ found. GivesValue depth text.now (value_view found.0) found.1.now) }
    ensures shorter { IfOk result (λ found. length found.1.now ≤ length text.now) }
{
    if let Some(inside) = after(b'[', text) {
        if depth == 0 {
            return Err(Stop::NotPlain);
        }
        return plain_items(alloc, inside, depth - 1);
    }
    if let Some(inside) = after(b'{', text) {
        if depth == 0 {
            return Err(Stop::NotPlain);
        }
        let (members, left) = plain_members(alloc, inside, depth - 1)?;
        return Ok((Value::Object(members), left));
    }
    leaf(text).ok_or(Stop::NotPlain)
}

// A text, a number or a word, and what follows it.
fn leaf<'a>(text: &'a str) -> Option<(Value<'a>, &'a str)>
    ensures value { (depth : ℕ) → IfSome result (λ found. GivesValue depth text.now (value_view found.0) found.1.now) }
    ensures shorter { IfSome result (λ found. length found.1.now ≤ length text.now) }
{
    if let Some((found, left)) = text_at(text) {
        return Some((Value::Text(found), left));
    }
    if let Some((found, left)) = number_at(text) {
        return Some((Value::Number(found), left));
    }
    let (word, behind) = word_at(text);
    let value = word_value(word)?;
    Some((value, after_blanks(behind)))
}

// The literal that a word is.
fn word_value<'a>(word: &str) -> Option<Value<'a>>
    ensures { IfSome result (λ v. Spells word.now (value_view v)) }
{
    if word == "true" {
        Some(Value::Bool(true))
    } else if word == "false" {
        Some(Value::Bool(false))
    } else if word == "null" {
        Some(Value::Null)
    } else {
        None
    }
}

// Adds a value behind the other items.
fn gather_value<'a>(
    texts: &mut Vec<&'a str>,
    values: &mut Vec<Value<'a>>,
    value: Value<'a>,
) -> Result<(), AllocError>
    ensures ok { OnOk result (gathered texts.new.items values.new.items
        ≡ gathered texts.old.items values.old.items ++ value_view value.entry ∷ []) }
{
    if let Value::Text(text) = value {
        gather(texts, values, text)
    } else {
        add(values, value)
    }
}

// The texts that come first, as long as a comma follows, and what follows that. Nearly all of a long text are such items.
fn take_texts<'a>(alloc: Global, text: &'a str) -> Result<(Vec<&'a str>, &'a str), AllocError>
    ensures ok { IfOk result (λ taken. GivesTexts text.now (map (λ t. t.now) taken.0.items) taken.1.now) }
    ensures shorter { IfOk result (λ taken. length taken.1.now ≤ length text.now) }
{
    let mut texts = Vec::new(alloc);
    let mut left = text;
    while let Some((found, next)) = text_before(b',', left) {
        add(&mut texts, found)?;
        left = next;
    }
    Ok((texts, left))
}

// The array whose bracket was passed, and what follows it.
#[cycle(plain)]
fn plain_items<'a>(alloc: Global, text: &'a str, depth: usize) -> Result<(Value<'a>, &'a str), Stop>
    ensures value { IfOk result (λ found. GivesArray depth text.now (value_view found.0) found.1.now) }
    ensures shorter { IfOk result (λ found. length found.1.now ≤ length text.now) }
{
    if let Some(left) = after(b']', text) {
        return Ok((Value::Texts(Vec::new(alloc)), left));
    }
    let (mut texts, mut left) = take_texts(alloc, text)?;
    let mut values = Vec::new(alloc);
    loop {
        let (value, next) = plain_value(alloc, left, depth)?;
        let (ended, behind) = after_item(b']', next).ok_or(Stop::NotPlain)?;
        gather_value(&mut texts, &mut values, value)?;
        if ended {
            let array = array_of(alloc, texts, values)?;
            return Ok((array, behind));
        }
        left = behind;
    }
}

// The members of the object whose brace was passed, and what follows it.
#[cycle(plain)]
fn plain_members<'a>(
    alloc: Global,
    text: &'a str,
    depth: usize,
) -> Result<(Vec<(&'a str, Value<'a>)>, &'a str), Stop>
    ensures value { IfOk result (λ found. GivesMembers depth text.now (members_view found.0.items) found.1.now) }
    ensures shorter { IfOk result (λ found. length found.1.now ≤ length text.now) }
{
    let mut members = Vec::new(alloc);
    if let Some(left) = after(b'}', text) {
        return Ok((members, left));
    }
    let mut left = text;
    loop {
        let (key, behind_key) = text_before(b':', left).ok_or(Stop::NotPlain)?;
        let (value, next) = plain_value(alloc, behind_key, depth)?;
        let (ended, behind) = after_item(b'}', next).ok_or(Stop::NotPlain)?;
        add(&mut members, (key, value))?;
        if ended {
            return Ok((members, behind));
        }
        left = behind;
    }
}
