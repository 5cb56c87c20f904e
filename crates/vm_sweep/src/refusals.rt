//! Which lists of guests a configuration refuses.
ghost use Rattle.std.specs.Prelude.{◌≡◌};
ghost use Rattle.std.specs.List.{list_any};
ghost use Rattle.std.specs.Result.{result_err};
ghost use Rattle.vm_domains.specs.Domains.{position_of};
ghost use Rattle.vm_sweep.specs.Refusals.{cause_in, cause_of, first_refused, is_outside, range_at, refusal_of};

use crate::errors::{GuestRefusal, RefusalCause};
use crate::lists::{GuestList, Lists};
use std::alloc::Global;
use vm_config::Config;
use vm_lists::ValueList;
use vm_variants::{GuestRange, GuestSetting, guest_range};

fn is_outside(range: GuestRange, value: u32) -> bool
    ensures { result ≡ is_outside range value }
{
    value < range.least || range.greatest < value
}

// Whether any value is.
fn any_outside(range: GuestRange, values: &ValueList) -> bool
    ensures { result ≡ list_any (is_outside range) values.now }
{
    let mut any = false;
    for index in 0..values.len() {
        let Some(value) = values.get(index) else {
            unreachable!();
        };
        any = any | is_outside(range, value);
    }
    any
}

// Why values for a guest with this range are refused, if they are.
fn cause_in(range: Option<GuestRange>, values: &ValueList) -> Option<RefusalCause>
    ensures { result ≡ cause_in values.now range }
{
    let Some(range) = range else {
        return Some(RefusalCause::NoGuest);
    };
    if any_outside(range, values) {
        Some(RefusalCause::OutOfRange)
    } else {
        None
    }
}

// The place of the guest with the name of a list.
fn place_of(config: &Config, list: &GuestList) -> Option<usize>
    ensures { result ≡ position_of list.now.name config.now.domains }
{
    config.domains.position(list.name())
}

// The range of the guest at a place.
fn range_at(
    alloc: Global,
    config: &mut Config,
    setting: GuestSetting,
    place: Option<usize>,
) -> Option<GuestRange>
    ensures range { result ≡ range_at setting config.old place }
    ensures unchanged { config.new ≡ config.old }
{
    match place {
        Some(place) => guest_range(alloc, config, setting, place),
        None => None,
    }
}

// Why a list is refused, if it is.
fn cause_of(
    alloc: Global,
    config: &mut Config,
    setting: GuestSetting,
    list: &GuestList,
) -> Option<RefusalCause>
    ensures cause { result ≡ cause_of setting list.now config.old }
    ensures unchanged { config.new ≡ config.old }
{
    let place = place_of(config, list);
    let range = range_at(alloc, config, setting, place);
    cause_in(range, list.values())
}

// The first of these that is refused.
fn refuse_first(
    alloc: Global,
    config: &mut Config,
    setting: GuestSetting,
    lists: &[GuestList],
) -> Result<(), GuestRefusal>
    ensures refusal { result_err result ≡ first_refused setting 0 lists.now config.old }
    ensures unchanged { config.new ≡ config.old }
{
    for (number, list) in lists.iter().enumerate() {
        if let Some(cause) = cause_of(alloc, config, setting, list) {
            return Err(GuestRefusal {
                setting,
                list: number,
                cause,
            });
        }
    }
    Ok(())
}

/// The first list that a configuration refuses, if it refuses one: minimums come before shares. The configuration stays as it is. Takes
/// no memory.
#[tactic(auto, unfolding(crate::specs::Refusals::refusal_of))]
pub(crate) fn refuse(alloc: Global, config: &mut Config, lists: &Lists) -> Result<(), GuestRefusal>
    ensures refusal { result_err result ≡ refusal_of lists.now config.old }
    ensures unchanged { config.new ≡ config.old }
{
    refuse_first(alloc, config, GuestSetting::Min, lists.minimums())?;
    refuse_first(alloc, config, GuestSetting::Shares, lists.shares())
}
