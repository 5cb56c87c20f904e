// One key of a policy, by the kind and the range that it has to have.
ghost use Rattle.std.specs.Prelude.{◌≡◌, ℕ, ◌≤◌, ◌^◌, [], Err, IfOk, IfSome, map, length, option_map};
ghost use Rattle.std.specs.List.{list_all};
ghost use Rattle.serde_json.specs.Data.{string};
ghost use Rattle.vm_json.specs.View.{items_seen, view};
ghost use Rattle.vm_samples.specs.declared.fault.Wrong.TheVariants.{NotNumbers, NotObjects};
ghost use Rattle.vm_samples.specs.Keys.{falling_percents, in_range, is_object, is_whole, items_in, least_units, most_units, number_in, number_or, objects_among, objects_in, objects_or_none, percents_among, percents_in, percents_or, required_number, required_size, size_in, text_in, truth_or, units_in, units_or};
ghost use Rattle.vm_samples.specs.Places.{found};
ghost use Rattle.vm_samples.specs.Policies.{AreFalling};
ghost use Rattle.vm_samples.specs.Seen.{seen, Answers};

use crate::fault::Wrong;
use crate::place::Key;
use vm_commands::scaled_pages;
use vm_json::{Elements, Value, member};
use vm_plan::Percents;

const MAX_GUESTS: usize = 256;

// The most units of a size: 2^54 KiB are more bytes than a size has.
const MAX_UNITS: u64 = 1 << 54;

// What stands at a key.
pub(crate) fn found<'v, 'a>(object: &'v Value<'a>, key: Key) -> Option<&'v Value<'a>>
    ensures { seen result ≡ found key (view object.now) }
{
    member(object, key.name())
}

pub(crate) fn in_range(number: u64, least: u64, greatest: u64) -> Result<u64, Wrong>
    ensures value { result ≡ in_range least greatest number }
    ensures within { IfOk result (λ n. (least ≤ n) × (n ≤ greatest)) }
{
    if number < least || greatest < number {
        return Err(Wrong::Range);
    }
    Ok(number)
}

// ---- numbers

// A number that is written with digits alone and lies in the range.
pub(crate) fn number_in(value: &Value<'_>, least: u64, greatest: u64) -> Result<u64, Wrong>
    ensures value { result ≡ number_in (view value.now) least greatest }
    ensures within { IfOk result (λ n. (least ≤ n) × (n ≤ greatest)) }
{
    let number = vm_json::whole(value).ok_or(Wrong::NotWhole)?;
    in_range(number, least, greatest)
}

// A number that has to be there.
pub(crate) fn required_number(
    found: Option<&Value<'_>>,
    least: u64,
    greatest: u64,
) -> Result<u64, Wrong>
    ensures value { result ≡ required_number (seen found.entry) least greatest }
    ensures within { IfOk result (λ n. (least ≤ n) × (n ≤ greatest)) }
{
    match found {
        Some(value) => number_in(value, least, greatest),
        None => Err(Wrong::Absent),
    }
}

// A number, or its default where there is none.
pub(crate) fn number_or(
    found: Option<&Value<'_>>,
    least: u64,
    greatest: u64,
    default: u64,
) -> Result<u64, Wrong>
    requires low { least ≤ default }
    requires high { default ≤ greatest }
    ensures value { result ≡ number_or (seen found.entry) least greatest default }
    ensures within { IfOk result (λ n. (least ≤ n) × (n ≤ greatest)) }
{
    match found {
        Some(value) => number_in(value, least, greatest),
        None => Ok(default),
    }
}

// ---- truth values

// A truth value, or its default where there is none.
pub(crate) fn truth_or(found: Option<&Value<'_>>, default: bool) -> Result<bool, Wrong>
    ensures { result ≡ truth_or (seen found.entry) default }
{
    match found {
        Some(value) => vm_json::truth(value).ok_or(Wrong::NotATruth),
        None => Ok(default),
    }
}

// ---- texts

// A text that has to be there.
pub(crate) fn text_in<'a>(found: Option<&Value<'a>>) -> Result<&'a str, Wrong>
    ensures { Answers result (λ s. s.now) (text_in (seen found.entry)) }
{
    let value = found.ok_or(Wrong::Absent)?;
    vm_json::text(value).ok_or(Wrong::NotAText)
}

// ---- sizes

// The KiB of a size, rounded up.
pub(crate) fn size_in(value: &Value<'_>) -> Result<u64, Wrong>
    ensures { result ≡ size_in (view value.now) }
{
    let text = vm_json::text(value).ok_or(Wrong::NotAText)?;
    scaled_pages(text, 1).ok_or(Wrong::NotASize)
}

// The KiB of a size that has to be there.
pub(crate) fn required_size(found: Option<&Value<'_>>) -> Result<u64, Wrong>
    ensures { result ≡ required_size (seen found.entry) }
{
    match found {
        Some(value) => size_in(value),
        None => Err(Wrong::Absent),
    }
}

// A size in units, rounded up.
fn units_in(unit: u32, value: &Value<'_>, least: u64, greatest: u64) -> Result<u64, Wrong>
    requires { 1 ≤ unit }
    ensures value { result ≡ units_in unit (view value.now) least greatest }
    ensures within { IfOk result (λ n. (least ≤ n) × (n ≤ greatest)) }
{
    let kib = size_in(value)?;
    in_range(kib.div_ceil(u64::from(unit)), least, greatest)
}

// The same, or its default where there is none.
pub(crate) fn units_or(
    unit: u32,
    found: Option<&Value<'_>>,
    least: u64,
    greatest: u64,
    default: u64,
) -> Result<u64, Wrong>
    requires unit { 1 ≤ unit }
    requires low { least ≤ default }
    requires high { default ≤ greatest }
    ensures value { result ≡ units_or unit (seen found.entry) least greatest default }
    ensures within { IfOk result (λ n. (least ≤ n) × (n ≤ greatest)) }
{
    match found {
        Some(value) => units_in(unit, value, least, greatest),
        None => Ok(default),
    }
}

// The units that a guest is left at least, rounded up.
pub(crate) fn least_units(unit: u32, found: Option<&Value<'_>>) -> Result<Option<u64>, Wrong>
    requires { 1 ≤ unit }
    ensures value { result ≡ least_units unit (seen found.entry) }
    ensures within { IfOk result (λ units. IfSome units (λ n. (1 ≤ n) × (n ≤ 2 ^ 54))) }
{
    let Some(value) = found else {
        return Ok(None);
    };
    let units = units_in(unit, value, 1, MAX_UNITS)?;
    Ok(Some(units))
}

// The units that a guest has at most, rounded down.
pub(crate) fn most_units(unit: u32, found: Option<&Value<'_>>) -> Result<Option<u64>, Wrong>
    requires { 1 ≤ unit }
    ensures value { result ≡ most_units unit (seen found.entry) }
    ensures within { IfOk result (λ units. IfSome units (λ n. (1 ≤ n) × (n ≤ 2 ^ 54))) }
{
    let Some(value) = found else {
        return Ok(None);
    };
    let kib = size_in(value)?;
    let units = in_range(kib / u64::from(unit), 1, MAX_UNITS)?;
    Ok(Some(units))
}

// ---- lists

// The items of a list; what is none is refused so.
#[tactic(auto, using(crate::proofs::ValueLemmas::list_of_items))]
fn items<'v, 'a>(value: &'v Value<'a>, wrong: Wrong) -> Result<Elements<'v, 'a>, Wrong>
    ensures { Answers result items_seen (items_in wrong (view value.now)) }
{
    vm_json::items(value).ok_or(wrong)
}

// Whether each value is an object.
fn are_objects(values: &[Value<'_>]) -> bool
    ensures { result ≡ list_all (λ v. is_object (view v)) values.now }
{
    values.iter().all(|value| vm_json::is_object(value))
}

// All the values, if they are objects and at most 256.
#[tactic(auto, using(crate::proofs::ValueLemmas::objects_seen, crate::proofs::ValueLemmas::count_seen))]
fn limited_objects<'v, 'a>(values: &'v [Value<'a>]) -> Result<&'v [Value<'a>], Wrong>
    ensures objects { Answers result (λ vs. map view vs.now) (objects_among 256 (map view values.now)) }
    ensures few { IfOk result (λ vs. length vs.now ≤ 256) }
{
    if !are_objects(values) {
        return Err(Wrong::NotObjects);
    }
    if values.len() > MAX_GUESTS {
        return Err(Wrong::TooMany);
    }
    Ok(values)
}

// An empty list, for a key that is absent.
fn no_values<'v, 'a>() -> &'v [Value<'a>]
    ensures { result.now ≡ [] }
{
    &[]
}

// All the items, if they are objects and at most 256.
fn objects_among<'v, 'a>(found: Elements<'v, 'a>) -> Result<&'v [Value<'a>], Wrong>
    ensures objects { Answers result (λ vs. map view vs.now) (objects_among 256 (items_seen found.entry)) }
    ensures few { IfOk result (λ vs. length vs.now ≤ 256) }
{
    if let Elements::Values(values) = found {
        return limited_objects(values);
    }
    if found.len() != 0 {
        return Err(Wrong::NotObjects);
    }
    Ok(no_values())
}

// The objects of a list, at most 256.
fn objects_in<'v, 'a>(value: &'v Value<'a>) -> Result<&'v [Value<'a>], Wrong>
    ensures objects { Answers result (λ vs. map view vs.now) (objects_in 256 (view value.now)) }
    ensures few { IfOk result (λ vs. length vs.now ≤ 256) }
{
    objects_among(items(value, Wrong::NotObjects)?)
}

// The objects at a key, or none where it is absent.
pub(crate) fn objects_or_none<'v, 'a>(
    object: &'v Value<'a>,
    key: Key,
) -> Result<&'v [Value<'a>], Wrong>
    ensures objects { Answers result (λ vs. map view vs.now) (objects_or_none 256 (found key (view object.now))) }
    ensures few { IfOk result (λ vs. length vs.now ≤ 256) }
{
    let Some(value) = found(object, key) else {
        return Ok(no_values());
    };
    objects_in(value)
}

// ---- percents

// Whether each value is a number that is written with digits alone.
fn are_whole(values: &[Value<'_>]) -> bool
    ensures { result ≡ list_all (λ v. is_whole (view v)) values.now }
{
    values.iter().all(|value| vm_json::whole(value).is_some())
}

// Four percents, none above the one before it.
fn falling_percents(values: &[Value<'_>]) -> Result<Percents, Wrong>
    ensures percents { result ≡ falling_percents 10000 (map view values.now) }
    ensures falling { IfOk result (AreFalling 10000) }
{
    let [high, soft, hard, low] = values else {
        return Err(Wrong::Range);
    };
    let high = number_in(high, 0, 10_000)?;
    let soft = number_in(soft, 0, high)?;
    let hard = number_in(hard, 0, soft)?;
    let low = number_in(low, 0, hard)?;
    Ok(Percents {
        high: high as u32,
        soft: soft as u32,
        hard: hard as u32,
        low: low as u32,
    })
}

// The percents that values are.
#[tactic(auto, using(crate::proofs::ValueLemmas::whole_seen))]
fn percents_among(values: &[Value<'_>]) -> Result<Percents, Wrong>
    ensures percents { result ≡ percents_among 10000 (map view values.now) }
    ensures falling { IfOk result (AreFalling 10000) }
{
    if !are_whole(values) {
        return Err(Wrong::NotNumbers);
    }
    falling_percents(values)
}

// What is wrong with texts as percents: without any there are too few.
fn no_percents(texts: &[&str]) -> Wrong
    ensures { percents_among 10000 (map (λ t. string t.now) texts.now) ≡ Err result }
{
    if texts.is_empty() {
        Wrong::Range
    } else {
        Wrong::NotNumbers
    }
}

// The percents that a value is.
fn percents_in(value: &Value<'_>) -> Result<Percents, Wrong>
    ensures percents { result ≡ percents_in 10000 (view value.now) }
    ensures falling { IfOk result (AreFalling 10000) }
{
    match items(value, Wrong::NotNumbers)? {
        Elements::Values(values) => percents_among(values),
        Elements::Texts(texts) => Err(no_percents(texts)),
    }
}

// The same, or their default where there are none.
pub(crate) fn percents_or(found: Option<&Value<'_>>, default: Percents) -> Result<Percents, Wrong>
    requires { AreFalling 10000 default }
    ensures percents { result ≡ percents_or (seen found.entry) 10000 default }
    ensures falling { IfOk result (AreFalling 10000) }
{
    match found {
        Some(value) => percents_in(value),
        None => Ok(default),
    }
}
