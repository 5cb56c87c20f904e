//! A setting of one guest.
ghost use Rattle.std.specs.Prelude.{◌≡◌, All, OnErr, OnOk, slice_get};
ghost use Rattle.std.specs.Option.{option_map};
ghost use Rattle.std.specs.Result.{result_err};
ghost use Rattle.vm_domains.specs.Domains.{configs_of};
ghost use Rattle.vm_guest.specs.Config.{IsWithinLimits};
ghost use Rattle.vm_variants.specs.Guests.{range_of, refusal_of, with_value, IsInRange};
ghost use Rattle.vm_variants.specs.Variants.{changed_at, refusal_in, with_guest_value};

use crate::error::GuestError;
use crate::guest_setting::{GuestRange, GuestSetting};
use crate::parts::{put_guests, take_guests};
use std::alloc::Global;
use vm_config::Config;
use vm_domains::GuestSpec;

// The values that a setting of the guest at a place of a list may have.
fn range_at(guests: &[GuestSpec], setting: GuestSetting, place: usize) -> Option<GuestRange>
    ensures { result ≡ option_map (range_of setting) (slice_get guests.now place) }
{
    let guest = guests.get(place)?;
    Some(setting.range(guest))
}

// Why a value of the guest at a place of a list is refused, if it is.
fn refuse_at(
    guests: &[GuestSpec],
    setting: GuestSetting,
    place: usize,
    value: u32,
) -> Result<(), GuestError>
    ensures { result_err result ≡ refusal_of setting place value (slice_get guests.now place) }
{
    let Some(GuestRange { least, greatest }) = range_at(guests, setting, place) else {
        return Err(GuestError::NoGuest { place });
    };
    if value < least || greatest < value {
        return Err(GuestError::OutOfRange {
            setting,
            place,
            least,
            greatest,
        });
    }
    Ok(())
}

// Gives a guest a value in its range.
fn set_value(guest: &mut GuestSpec, setting: GuestSetting, value: u32)
    requires { IsInRange setting value guest.old }
    ensures guest { guest.new ≡ with_value setting value guest.old }
    ensures limits { IsWithinLimits guest.new }
{
    match setting {
        GuestSetting::Min => guest.min = value,
        GuestSetting::Shares => guest.shares = value,
    }
}

// Gives the guest at a place of a list a value that isn't refused.
fn set_at(
    guests: &mut [GuestSpec],
    setting: GuestSetting,
    place: usize,
    value: u32,
) -> Result<(), GuestError>
    requires { All IsWithinLimits guests.old }
    ensures ok { OnOk result (guests.new ≡ changed_at place (with_value setting value) guests.old) }
    ensures err { OnErr result (guests.new ≡ guests.old) }
    ensures refusal { result_err result ≡ refusal_of setting place value (slice_get guests.old place) }
    ensures limits { All IsWithinLimits guests.new }
{
    refuse_at(guests, setting, place, value)?;
    set_value(&mut guests[place], setting, value);
    Ok(())
}

/// The values that a setting of the guest at a place may have, counted from 0 in the order of the configuration; `None` where there is
/// no such guest. The configuration stays as it is. Takes no memory.
pub fn guest_range(
    alloc: Global,
    config: &mut Config,
    setting: GuestSetting,
    place: usize,
) -> Option<GuestRange>
    ensures range { result ≡ option_map (range_of setting) (slice_get (configs_of config.old.domains) place) }
    ensures unchanged { config.new ≡ config.old }
{
    let (names, guests) = take_guests(alloc, config);
    let range = range_at(&guests, setting, place);
    put_guests(config, names, guests);
    range
}

/// Why a value of the guest at a place would be refused, if it would be: the error of [`set_guest`]. The configuration stays as it is.
/// Takes no memory.
pub fn check_guest(
    alloc: Global,
    config: &mut Config,
    setting: GuestSetting,
    place: usize,
    value: u32,
) -> Result<(), GuestError>
    ensures refusal { result_err result ≡ refusal_in setting place value config.old }
    ensures unchanged { config.new ≡ config.old }
{
    let (names, guests) = take_guests(alloc, config);
    let answer = refuse_at(&guests, setting, place, value);
    put_guests(config, names, guests);
    answer
}

/// Gives a setting of the guest at a place another value: pages for [`GuestSetting::Min`], a number of shares for
/// [`GuestSetting::Shares`]. Places are counted from 0, in the order of the configuration. All else stays. Takes no memory.
///
/// [`GuestError::NoGuest`] comes exactly where there is no guest at the place, and [`GuestError::OutOfRange`] exactly where the value is
/// outside the range of its setting. An `Err` changes nothing.
pub fn set_guest(
    alloc: Global,
    config: &mut Config,
    setting: GuestSetting,
    place: usize,
    value: u32,
) -> Result<(), GuestError>
    ensures ok { OnOk result (config.new ≡ with_guest_value setting place value config.old) }
    ensures err { OnErr result (config.new ≡ config.old) }
    ensures refusal { result_err result ≡ refusal_in setting place value config.old }
{
    let (names, mut guests) = take_guests(alloc, config);
    let answer = set_at(&mut guests, setting, place, value);
    put_guests(config, names, guests);
    answer
}
