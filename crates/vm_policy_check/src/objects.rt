// The objects of a policy's guests.
ghost use Rattle.std.specs.Prelude.{◌≡◌, option_map};
ghost use Rattle.json.specs.Find.{at, get_item};
ghost use Rattle.vm_json.specs.Tree.{items_view, value_view};
ghost use Rattle.vm_policy_check.specs.KnownKeys.{keys_of_guest, keys_or_none};

use vm_json::{Value, last_member};

// What stands for a guest, unless it has no keys.
pub(crate) fn guest_at<'v, 'a>(root: &'v Value<'a>, number: usize) -> Option<&'v Value<'a>>
    ensures { keys_or_none (option_map (λ v. value_view v.now) result) ≡ keys_of_guest number (value_view root.now) }
{
    match last_member(root, "guests") {
        Some(guests) => item_at(guests, number),
        None => None,
    }
}

// An item of an array, unless it has no keys.
fn item_at<'v, 'a>(value: &'v Value<'a>, place: usize) -> Option<&'v Value<'a>>
    ensures { keys_or_none (option_map (λ v. value_view v.now) result) ≡ keys_or_none (at place (value_view value.now)) }
{
    match value {
        Value::Array(values) => value_at(values, place),
        Value::Texts(_) => None,
        _ => None,
    }
}

fn value_at<'v, 'a>(values: &'v [Value<'a>], place: usize) -> Option<&'v Value<'a>>
    ensures { option_map (λ v. value_view v.now) result ≡ get_item place (items_view values.now) }
{
    if place < values.len() {
        Some(&values[place])
    } else {
        None
    }
}
