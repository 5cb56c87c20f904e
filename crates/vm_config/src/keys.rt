// One key of a JSON object, by the kind and the range that it has to have.
ghost use Rattle.std.specs.Prelude.{◌≡◌, ◌≢◌, ℕ, ◌≤◌, [], Err, IfErr, IfOk, map, length, vec_len};
ghost use Rattle.serde_json.specs.Find.{get};
ghost use Rattle.serde_json.specs.Data.{string};
ghost use Rattle.vm_json.specs.View.{items_seen, view};
ghost use Rattle.vm_config.specs.declared.error.ConfigError.TheVariants.{Kind};
ghost use Rattle.vm_domains.specs.Machine.{AreFalling};
ghost use Rattle.vm_config.specs.Keys.{among, falling_percents, is_object, is_own, is_text, is_whole, items_in, number_in, objects_in, objects_of, objects_or_none, own_driver_in, percents_among, percents_in, text_in, text_of, texts_or_none};
ghost use Rattle.vm_config.specs.Outcomes.{Answers};
ghost use Rattle.vm_config.specs.Places.{flag_if_at, flag_or_at, number_at, number_if_at, number_or_at, own_driver_if_at, own_driver_or_at, percents_or_at};
ghost use Rattle.std.specs.List.{list_all};

use crate::error::ConfigError;
use crate::fault::{Fault, at};
use crate::place::{Key, Part};
use std::alloc::Global;
use vm_json::{Elements, Value, member, take_member};
use vm_plan::Percents;

// ---- numbers

// A number that is written with digits alone and lies in the range.
fn number_within(value: &Value<'_>, least: u64, greatest: u64) -> Result<u64, ConfigError>
    ensures value { result ≡ number_in (view value.now) least greatest }
    ensures within { IfOk result (λ n. (least ≤ n) × (n ≤ greatest)) }
{
    let number = vm_json::whole(value).ok_or(ConfigError::Kind)?;
    if number < least || greatest < number {
        return Err(ConfigError::Range);
    }
    Ok(number)
}

// The number at a key that has to be there.
pub(crate) fn number(
    object: &Value<'_>,
    part: Part,
    key: Key,
    least: u64,
    greatest: u64,
) -> Result<u64, Fault>
    ensures value { result ≡ number_at (view object.now) part key least greatest }
    ensures within { IfOk result (λ n. (least ≤ n) × (n ≤ greatest)) }
{
    let number = match member(object, key.name()) {
        Some(value) => number_within(value, least, greatest),
        None => Err(ConfigError::Missing),
    };
    at(part, key, number)
}

// The number at a key, or its default where there is none.
pub(crate) fn number_or_default(
    object: &Value<'_>,
    part: Part,
    key: Key,
    least: u64,
    greatest: u64,
    default: u64,
) -> Result<u64, Fault>
    requires low { least ≤ default }
    requires high { default ≤ greatest }
    ensures value { result ≡ number_or_at (view object.now) part key least greatest default }
    ensures within { IfOk result (λ n. (least ≤ n) × (n ≤ greatest)) }
{
    let number = match member(object, key.name()) {
        Some(value) => number_within(value, least, greatest),
        None => Ok(default),
    };
    at(part, key, number)
}

// The same at a key that some versions do not know.
pub(crate) fn number_if_known(
    is_known: bool,
    object: &Value<'_>,
    part: Part,
    key: Key,
    least: u64,
    greatest: u64,
    default: u64,
) -> Result<u64, Fault>
    requires low { least ≤ default }
    requires high { default ≤ greatest }
    ensures value { result ≡ number_if_at is_known (view object.now) part key least greatest default }
    ensures within { IfOk result (λ n. (least ≤ n) × (n ≤ greatest)) }
{
    if is_known {
        number_or_default(object, part, key, least, greatest, default)
    } else {
        Ok(default)
    }
}

// ---- truth values

// The truth value at a key, or its default where there is none.
pub(crate) fn flag_or_default(
    object: &Value<'_>,
    part: Part,
    key: Key,
    default: bool,
) -> Result<bool, Fault>
    ensures { result ≡ flag_or_at (view object.now) part key default }
{
    let flag = match member(object, key.name()) {
        Some(value) => vm_json::truth(value).ok_or(ConfigError::Kind),
        None => Ok(default),
    };
    at(part, key, flag)
}

// The same at a key that some versions do not know.
pub(crate) fn flag_if_known(
    is_known: bool,
    object: &Value<'_>,
    part: Part,
    key: Key,
    default: bool,
) -> Result<bool, Fault>
    ensures { result ≡ flag_if_at is_known (view object.now) part key default }
{
    if is_known {
        flag_or_default(object, part, key, default)
    } else {
        Ok(default)
    }
}

// ---- texts

// The text at a key that has to be there.
pub(crate) fn text<'a>(object: &Value<'a>, key: &str) -> Result<&'a str, ConfigError>
    ensures { Answers result (λ s. s.now) (text_in (get key.now (view object.now))) }
{
    let value = member(object, key).ok_or(ConfigError::Missing)?;
    vm_json::text(value).ok_or(ConfigError::Kind)
}

// ---- the driver of a guest

// Whether a text names the guest's own driver, or none.
fn is_own(text: &str) -> Result<bool, ConfigError>
    ensures { result ≡ is_own text.now }
{
    if text == "own" {
        return Ok(true);
    }
    if text == "none" {
        return Ok(false);
    }
    Err(ConfigError::Range)
}

// Whether a value names the guest's own driver, or none.
fn own_driver(value: &Value<'_>) -> Result<bool, ConfigError>
    ensures { result ≡ own_driver_in (view value.now) }
{
    is_own(vm_json::text(value).ok_or(ConfigError::Kind)?)
}

// Whether a guest has a driver of its own, as it has where the key is absent.
fn own_driver_or_default(object: &Value<'_>, guest: Part) -> Result<bool, Fault>
    ensures { result ≡ own_driver_or_at (view object.now) guest }
{
    let is_own = match member(object, Key::Driver.name()) {
        Some(value) => own_driver(value),
        None => Ok(true),
    };
    at(guest, Key::Driver, is_own)
}

// The same where some versions do not know the key.
pub(crate) fn own_driver_if_known(
    is_known: bool,
    object: &Value<'_>,
    guest: Part,
) -> Result<bool, Fault>
    ensures { result ≡ own_driver_if_at is_known (view object.now) guest }
{
    if is_known {
        own_driver_or_default(object, guest)
    } else {
        Ok(true)
    }
}

// ---- arrays

// The items of an array.
#[tactic(auto, using(crate::proofs::ValueLemmas::list_of_items))]
fn items<'v, 'a>(value: &'v Value<'a>) -> Result<Elements<'v, 'a>, ConfigError>
    ensures { Answers result items_seen (items_in (view value.now)) }
{
    vm_json::items(value).ok_or(ConfigError::Kind)
}

// Whether each value is an object.
fn are_objects(values: &[Value<'_>]) -> bool
    ensures { result ≡ list_all (λ v. is_object (view v)) values.now }
{
    values.iter().all(|value| vm_json::is_object(value))
}

// All the values, if they are objects and at most `limit`.
#[tactic(auto, using(crate::proofs::ValueLemmas::objects_seen, crate::proofs::ValueLemmas::count_seen))]
fn limited_objects<'v, 'a>(
    values: &'v [Value<'a>],
    limit: usize,
) -> Result<&'v [Value<'a>], ConfigError>
    ensures objects { Answers result (λ vs. map view vs.now) (among is_object limit (map view values.now)) }
    ensures few { IfOk result (λ vs. length vs.now ≤ limit) }
    ensures same { IfOk result (λ vs. vs.now ≡ values.now) }
{
    if !are_objects(values) {
        return Err(ConfigError::Kind);
    }
    if values.len() > limit {
        return Err(ConfigError::Range);
    }
    Ok(values)
}

// An empty list, for a key that is absent.
fn no_values<'v, 'a>() -> &'v [Value<'a>]
    ensures { result.now ≡ [] }
{
    &[]
}

fn no_texts<'v, 'a>() -> &'v [&'a str]
    ensures { result.now ≡ [] }
{
    &[]
}

// All the items, if they are objects and at most `limit`.
fn objects_among<'v, 'a>(
    found: Elements<'v, 'a>,
    limit: usize,
) -> Result<&'v [Value<'a>], ConfigError>
    ensures objects { Answers result (λ vs. map view vs.now) (among is_object limit (items_seen found.entry)) }
    ensures few { IfOk result (λ vs. length vs.now ≤ limit) }
{
    if let Elements::Values(values) = found {
        return limited_objects(values, limit);
    }
    if found.len() != 0 {
        return Err(ConfigError::Kind);
    }
    Ok(no_values())
}

// The objects at a key that has to be there.
pub(crate) fn objects<'v, 'a>(
    object: &'v Value<'a>,
    key: &str,
    limit: usize,
) -> Result<&'v [Value<'a>], ConfigError>
    ensures objects { Answers result (λ vs. map view vs.now) (objects_in limit (get key.now (view object.now))) }
    ensures few { IfOk result (λ vs. length vs.now ≤ limit) }
{
    let value = member(object, key).ok_or(ConfigError::Missing)?;
    objects_among(items(value)?, limit)
}

// The objects at a key, or none where the key is absent.
pub(crate) fn objects_or_none<'v, 'a>(
    object: &'v Value<'a>,
    key: &str,
    limit: usize,
) -> Result<&'v [Value<'a>], ConfigError>
    ensures { Answers result (λ vs. map view vs.now) (objects_or_none limit (get key.now (view object.now))) }
{
    if member(object, key).is_none() {
        return Ok(no_values());
    }
    objects(object, key, limit)
}

// The objects of an array, which are moved out, if they are at most `limit`.
fn take_among<'a>(
    alloc: Global,
    value: Value<'a>,
    limit: usize,
) -> Result<Vec<Value<'a>>, ConfigError>
    ensures objects { Answers result (λ vs. map view vs.items) (objects_of limit (view value.entry)) }
    ensures few { IfOk result (λ vs. vec_len vs ≤ limit) }
{
    let Some(items) = vm_json::into_values(alloc, value) else {
        return Err(ConfigError::Kind);
    };
    if let Err(error) = limited_objects(items.as_slice(), limit) {
        return Err(error);
    }
    Ok(items)
}

// The objects at a key that has to be there, which are moved out. The rest goes.
pub(crate) fn take_objects<'a>(
    alloc: Global,
    object: Value<'a>,
    key: &str,
    limit: usize,
) -> Result<Vec<Value<'a>>, ConfigError>
    ensures objects { Answers result (λ vs. map view vs.items) (objects_in limit (get key.now (view object.entry))) }
    ensures few { IfOk result (λ vs. vec_len vs ≤ limit) }
{
    let value = take_member(object, key).ok_or(ConfigError::Missing)?;
    take_among(alloc, value, limit)
}

// Whether each value is a text.
fn are_texts(values: &[Value<'_>]) -> bool
    ensures { result ≡ list_all (λ v. is_text (view v)) values.now }
{
    values.iter().all(|value| vm_json::text(value).is_some())
}

// Whether each item is a text.
#[tactic(auto, using(crate::proofs::ValueLemmas::values_texts, crate::proofs::ValueLemmas::all_texts))]
fn has_texts_alone(found: Elements<'_, '_>) -> bool
    ensures { result ≡ list_all is_text (items_seen found.entry) }
{
    match found {
        Elements::Texts(_) => true,
        Elements::Values(values) => are_texts(values),
    }
}

// All the items, if they are texts and at most `limit`.
fn limited_texts<'v, 'a>(
    found: Elements<'v, 'a>,
    limit: usize,
) -> Result<Elements<'v, 'a>, ConfigError>
    ensures texts { Answers result items_seen (among is_text limit (items_seen found.entry)) }
    ensures few { IfOk result (λ items. length (items_seen items) ≤ limit) }
{
    if !has_texts_alone(found) {
        return Err(ConfigError::Kind);
    }
    if found.len() > limit {
        return Err(ConfigError::Range);
    }
    Ok(found)
}

// The texts at a key, or none where the key is absent.
pub(crate) fn texts_or_none<'v, 'a>(
    object: &'v Value<'a>,
    key: &str,
    limit: usize,
) -> Result<Elements<'v, 'a>, ConfigError>
    ensures texts { Answers result (λ items. map text_of (items_seen items)) (texts_or_none limit (get key.now (view object.now))) }
    ensures few { IfOk result (λ items. length (items_seen items) ≤ limit) }
{
    let Some(value) = member(object, key) else {
        return Ok(Elements::Texts(no_texts()));
    };
    limited_texts(items(value)?, limit)
}

// ---- percents

// Whether each value is a number that is written with digits alone.
fn are_whole(values: &[Value<'_>]) -> bool
    ensures { result ≡ list_all (λ v. is_whole (view v)) values.now }
{
    values.iter().all(|value| vm_json::whole(value).is_some())
}

// Four percents, none above the one before it.
fn falling_percents(values: &[Value<'_>], most: u64) -> Result<Percents, ConfigError>
    requires { most ≤ 10000 }
    ensures percents { result ≡ falling_percents most (map view values.now) }
    ensures falling { IfOk result (AreFalling most) }
{
    let [high, soft, hard, low] = values else {
        return Err(ConfigError::Range);
    };
    let high = number_within(high, 0, most)?;
    let soft = number_within(soft, 0, high)?;
    let hard = number_within(hard, 0, soft)?;
    let low = number_within(low, 0, hard)?;
    Ok(Percents {
        high: high as u32,
        soft: soft as u32,
        hard: hard as u32,
        low: low as u32,
    })
}

// The percents that values are.
#[tactic(auto, using(crate::proofs::ValueLemmas::whole_seen))]
fn percents_among(values: &[Value<'_>], most: u64) -> Result<Percents, ConfigError>
    requires { most ≤ 10000 }
    ensures percents { result ≡ percents_among most (map view values.now) }
    ensures falling { IfOk result (AreFalling most) }
{
    if !are_whole(values) {
        return Err(ConfigError::Kind);
    }
    falling_percents(values, most)
}

// What is wrong with texts as percents: without any there are too few.
fn no_percents(texts: &[&str]) -> ConfigError
    ensures { (most : ℕ) → percents_among most (map (λ t. string t.now) texts.now) ≡ Err result }
{
    if texts.is_empty() {
        ConfigError::Range
    } else {
        ConfigError::Kind
    }
}

// The percents that a value is.
fn percents(value: &Value<'_>, most: u64) -> Result<Percents, ConfigError>
    requires { most ≤ 10000 }
    ensures percents { result ≡ percents_in most (view value.now) }
    ensures falling { IfOk result (AreFalling most) }
{
    match items(value)? {
        Elements::Values(values) => percents_among(values, most),
        Elements::Texts(texts) => Err(no_percents(texts)),
    }
}

// The percents at a key, or their default where there is none.
pub(crate) fn percents_or_default(
    object: &Value<'_>,
    part: Part,
    key: Key,
    most: u64,
    default: Percents,
) -> Result<Percents, Fault>
    requires most { most ≤ 10000 }
    requires falling { AreFalling most default }
    ensures percents { result ≡ percents_or_at (view object.now) part key most default }
    ensures falling { IfOk result (AreFalling most) }
{
    let percents = match member(object, key.name()) {
        Some(value) => percents(value, most),
        None => Ok(default),
    };
    at(part, key, percents)
}
