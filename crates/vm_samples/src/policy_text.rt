// From a text to a policy.
ghost use Rattle.std.specs.Prelude.{◌≡◌, IfOk};
ghost use Rattle.vm_json.specs.View.{view};
ghost use Rattle.vm_samples.specs.Policies.{IsPolicy};
ghost use Rattle.vm_samples.specs.PolicyOf.{data_in, fields_at, policy_of, root_at, root_in};
ghost use Rattle.vm_samples.specs.Placed.{at};
ghost use Rattle.vm_samples.specs.declared.place.Place.TheVariants.{Text};
ghost use Rattle.vm_samples.specs.Roots.{AreFields};
ghost use Rattle.vm_samples.specs.Seen.{in_text, AnswersOrMemory, ReadsPolicy};

use crate::fault::{PolicyError, PolicyFault, Wrong, at};
use crate::guests::guests_at;
use crate::keys::objects_or_none;
use crate::place::{Key, Place};
use crate::policy::Policy;
use crate::root::{Amounts, Scale, Shares, Wants, amounts_at, scale_at, shares_at, wants_at};
use std::alloc::Global;
use vm_json::{ReadError, Scratch, Value, is_object};

// All that stands in the root but its guests.
#[derive(Clone, Copy)]
struct Fields {
    scale: Scale,
    amounts: Amounts,
    shares: Shares,
    wants: Wants,
}

#[tactic(auto, unfolding(crate::specs::PolicyOf::fields_at))]
fn fields_at(root: &Value<'_>) -> Result<Fields, PolicyFault>
    ensures fields { result ≡ fields_at (view root.now) }
    ensures within { IfOk result AreFields }
{
    let scale = scale_at(root)?;
    let amounts = amounts_at(scale, root)?;
    let shares = shares_at(root)?;
    let wants = wants_at(root)?;
    Ok(Fields {
        scale,
        amounts,
        shares,
        wants,
    })
}

// The policy of a root.
#[tactic(auto, unfolding(crate::specs::PolicyOf::root_at))]
fn root_at(alloc: Global, root: &Value<'_>) -> Result<Policy, PolicyError>
    ensures { ReadsPolicy result (root_at (view root.now)) }
{
    let fields = fields_at(root)?;
    let objects = at(Place::Root(Key::Guests), objects_or_none(root, Key::Guests))?;
    let guests = guests_at(alloc, fields.scale.unit, objects)?;
    Ok(Policy {
        unit: fields.scale.unit,
        memory: fields.scale.memory,
        overhead: fields.amounts.overhead,
        rate: fields.amounts.rate,
        rebalance: fields.amounts.rebalance,
        tax: fields.shares.tax,
        percents: fields.shares.percents,
        headroom: fields.wants.headroom,
        cache: fields.wants.cache,
        most: fields.wants.most,
        patience: fields.wants.patience,
        guests,
    })
}

// The JSON value that a text is.
fn data_in<'a>(
    alloc: Global,
    text: &'a [u8],
    scratch: &'a mut Scratch,
) -> Result<Value<'a>, PolicyError>
    ensures { AnswersOrMemory result view (at Text (data_in text.now)) }
{
    match vm_json::read(alloc, text, scratch) {
        Ok(value) => Ok(value),
        Err(ReadError::Memory) => Err(PolicyError::Memory),
        Err(ReadError::NotJson) => Err(PolicyError::Fault(in_text(Wrong::NotJson))),
    }
}

// What is wrong with the text as a whole.
fn in_text(wrong: Wrong) -> PolicyFault
    ensures { result ≡ in_text wrong }
{
    PolicyFault {
        place: Place::Text,
        wrong,
    }
}

// The root of a text, which has to be an object.
fn root_in<'a>(
    alloc: Global,
    text: &'a [u8],
    scratch: &'a mut Scratch,
) -> Result<Value<'a>, PolicyError>
    ensures { AnswersOrMemory result view (root_in text.now) }
{
    let root = data_in(alloc, text, scratch)?;
    if !is_object(&root) {
        return Err(PolicyError::Fault(in_text(Wrong::NotAnObject)));
    }
    Ok(root)
}

/// Reads a policy from a JSON text (RFC 8259), whose root is an object. Other keys than these are ignored; `null` is no absence. A
/// number is written with digits alone and is below 2^64. A size is a text as [`scaled_pages`](vm_commands::scaled_pages) reads it,
/// where a bare number is KiB; it is rounded up to KiB. Memory is counted in units of `unit`.
///
/// | Key | Kind | Range | Default |
/// |---|---|---|---|
/// | `version` | number | 1 | required |
/// | `memory` | size | 1 to 262144 units, rounded down | required |
/// | `unit` | size | 4 KiB to 1 GiB | 1 MiB, doubled until `memory` is at most 262144 units, but at most 1 GiB |
/// | `overhead` | size | 0 to 1024 units, rounded up | 0 |
/// | `rate` | size | 1 to 262144 units, rounded up | the greater of 128 MiB, rounded up, and a 64th of `memory`, in units |
/// | `rebalance` | size | 0 to 262144 units, rounded up | as much as `rate` |
/// | `tax` | number, hundredths of a percent | 0 to 9999 | 7500 |
/// | `percent` | list of four numbers, hundredths of a percent, none above the one before it | each 0 to 10000 | `[600,400,200,100]` |
/// | `headroom` | number, percent | 0 to 1000 | 20 |
/// | `cache` | number, percent | 0 to 100, and `(100 + headroom) * cache` below 10000 | 50, or 0 where 50 is out of range |
/// | `most` | number, percent | 0 to 99 | 65 |
/// | `patience` | number of samples | 1 to 10000 | 5 |
/// | `guests` | list of objects | 0 to 256 | none |
///
/// | Key of a guest | Kind | Range | Default |
/// |---|---|---|---|
/// | `name` | text, as [`is_name`](crate::is_name) takes it, and no earlier guest's | | required |
/// | `min` | size | 1 to 2^54 units, rounded up | none |
/// | `max` | size | 1 to 2^54 units, rounded down | none |
/// | `shares` | number | 1 to 1000000 | 1000 |
/// | `steer` | truth value | | true |
///
/// The answer is the policy that the text means, or its first fault: the keys are looked at in the order of the tables, those of the
/// root before those of each guest. Of one key, that it is absent comes first, then its kind, then its range; only whether `memory`
/// is in its range comes behind `unit`. [`PolicyError::Memory`] may come in place of any answer.
pub fn read_policy(alloc: Global, text: &[u8]) -> Result<Policy, PolicyError>
    ensures policy { ReadsPolicy result (policy_of text.now) }
    ensures within { IfOk result IsPolicy }
{
    let mut scratch = Scratch::new(alloc);
    match root_in(alloc, text, &mut scratch) {
        Ok(root) => root_at(alloc, &root),
        Err(error) => Err(error),
    }
}
