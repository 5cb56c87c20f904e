// Looking into a value.
ghost use Rattle.std.specs.Prelude.{◌≡◌, map, length, true, None, Some, is_some, option_map, option_and_then, unwrap_or, slice_get, IfSome};
ghost use Rattle.serde_json.specs.Find.{as_array, as_bool, as_object, as_str, get};
ghost use Rattle.json.specs.Find.{get as tree_get, get_member};
ghost use Rattle.json.specs.Value.{items_of as tree_items_of};
ghost use Rattle.vm_json.specs.Tree.{members_view, texts_view, value_view};
ghost use Rattle.vm_json.specs.View.{begins_with_text, items_data, items_seen};
ghost use Rattle.serde_json.specs.View.{items_of};
ghost use Rattle.vm_json.specs.View.{view};

use crate::value::Value;
use std::alloc::Global;

/// The member of that name where the value is an object (RFC 8259, section 4), the last one where the name comes twice.
pub fn member<'v, 'a>(object: &'v Value<'a>, name: &str) -> Option<&'v Value<'a>>
    ensures { option_map (λ v. view v.now) result ≡ get name.now (view object.now) }
{
    if let Value::Object(members) = object {
        last(members, name)
    } else {
        None
    }
}

/// The same member, as it stands in the text: its own objects keep keys that come twice.
pub fn last_member<'v, 'a>(object: &'v Value<'a>, name: &str) -> Option<&'v Value<'a>>
    ensures { option_map (λ v. value_view v.now) result ≡ tree_get name.now (value_view object.now) }
{
    match object {
        Value::Object(members) => last(members, name),
        _ => None,
    }
}

// The last of the members of that name.
fn last<'v, 'a>(members: &'v [(&'a str, Value<'a>)], name: &str) -> Option<&'v Value<'a>>
    ensures { option_map (λ v. value_view v.now) result ≡ get_member name.now (members_view members.now) }
{
    let mut left = members.len();
    while left > 0 {
        left -= 1;
        let member = &members[left];
        if member.0 == name {
            return Some(&member.1);
        }
    }
    None
}

/// The same member, moved out. The rest of the value is let go.
pub fn take_member<'a>(object: Value<'a>, name: &str) -> Option<Value<'a>>
    ensures { option_map view result ≡ get name.now (view object.entry) }
{
    if let Value::Object(members) = object {
        take_last(members, name)
    } else {
        None
    }
}

// The last of the members of that name.
#[tactic(auto, using(crate::proofs::ViewLemmas::popped))]
fn take_last<'a>(members: Vec<(&'a str, Value<'a>)>, name: &str) -> Option<Value<'a>>
    ensures { option_map value_view result ≡ get_member name.now (members_view members.entry.items) }
{
    let mut rest = members;
    while let Some((key, value)) = rest.pop() {
        if key == name {
            return Some(value);
        }
    }
    None
}

/// The truth value that the value is.
pub fn truth(value: &Value<'_>) -> Option<bool>
    ensures { result ≡ as_bool (view value.now) }
{
    if let Value::Bool(b) = value {
        Some(*b)
    } else {
        None
    }
}

/// The text that the value is, without its escapes (RFC 8259, section 7).
pub fn text<'a>(value: &Value<'a>) -> Option<&'a str>
    ensures { option_map (λ s. s.now) result ≡ as_str (view value.now) }
{
    if let Value::Text(text) = value {
        Some(*text)
    } else {
        None
    }
}

/// The items of an array, as they are kept.
#[derive(Clone, Copy)]
pub enum Elements<'v, 'a> {
    /// Texts.
    Texts(&'v [&'a str]),
    /// Any values.
    Values(&'v [Value<'a>]),
}

/// The items, where the value is an array (RFC 8259, section 5).
pub fn items<'v, 'a>(value: &'v Value<'a>) -> Option<Elements<'v, 'a>>
    ensures { option_map (λ found. items_of (items_seen found)) result ≡ as_array (view value.now) }
{
    match value {
        Value::Texts(texts) => Some(Elements::Texts(texts.as_slice())),
        Value::Array(values) => Some(Elements::Values(values.as_slice())),
        _ => None,
    }
}

// The text at a place.
fn text_at<'a>(texts: &[&'a str], place: usize) -> Option<&'a str>
    ensures { option_map (λ s. s.now) result ≡ slice_get (map (λ t. t.now) texts.now) place }
{
    if place < texts.len() {
        Some(texts[place])
    } else {
        None
    }
}

// The text that the value at a place is.
fn value_text_at<'a>(values: &[Value<'a>], place: usize) -> Option<&'a str>
    ensures { option_map (λ s. s.now) result ≡ option_and_then as_str (slice_get (map view values.now) place) }
{
    if place < values.len() {
        text(&values[place])
    } else {
        None
    }
}

impl<'v, 'a> Elements<'v, 'a> {
    /// How many items there are.
    pub fn len(self) -> usize
        ensures { result ≡ length (items_seen self.entry) }
    {
        match self {
            Elements::Texts(texts) => texts.len(),
            Elements::Values(values) => values.len(),
        }
    }

    /// The text that the item at a place is, counted from 0, without its escapes.
    pub fn text(self, place: usize) -> Option<&'a str>
        ensures { option_map (λ s. s.now) result ≡ option_and_then as_str (slice_get (items_seen self.entry) place) }
    {
        match self {
            Elements::Texts(texts) => text_at(texts, place),
            Elements::Values(values) => value_text_at(values, place),
        }
    }
}

/// The items of an array, moved out. `None` also comes where they begin with a text.
pub fn into_values<'a>(alloc: Global, value: Value<'a>) -> Option<Vec<Value<'a>>>
    ensures values { IfSome result (λ vs. as_array (view value.entry) ≡ Some (items_of (map view vs.items))) }
    ensures none { result ≡ None → unwrap_or (option_map begins_with_text (as_array (view value.entry))) true ≡ true }
{
    match value {
        Value::Array(values) => Some(values),
        Value::Texts(texts) => if_none(alloc, &texts),
        _ => None,
    }
}

// An array of no values, where there are no texts.
fn if_none<'a>(alloc: Global, texts: &[&str]) -> Option<Vec<Value<'a>>>
    ensures values { IfSome result (λ vs. items_data (tree_items_of (texts_view texts.now)) ≡ items_of (map view vs.items)) }
    ensures none { result ≡ None → begins_with_text (items_data (tree_items_of (texts_view texts.now))) ≡ true }
{
    if texts.is_empty() {
        Some(Vec::new(alloc))
    } else {
        None
    }
}

/// Whether the value is an object.
pub fn is_object(value: &Value<'_>) -> bool
    ensures { result ≡ is_some (as_object (view value.now)) }
{
    matches!(value, Value::Object(_))
}
