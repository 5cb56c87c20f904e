//! All that a run changes.
ghost use Rattle.std.specs.Prelude.{◌≡◌, None, OnErr, OnOk};
ghost use Rattle.std.specs.Option.{ForSome};
ghost use Rattle.std.specs.Result.{result_err};
ghost use Rattle.vm_variants.specs.Changes.{changed, first_refusal, no_change, refusal_among, with_percent, with_values, IsPercent};
ghost use Rattle.vm_variants.specs.Variants.{refusal_in, with_guest_value};

use crate::error::GuestError;
use crate::guest_setting::GuestSetting;
use crate::guest_value::GuestValue;
use crate::minimums::set_minimums;
use crate::seeds::add_to_seeds;
use crate::setting::{check_guest, set_guest};
use std::alloc::Global;
use std::marker::Model;
use vm_config::Config;

/// All that a run changes in the guests of a configuration. Its type keeps the range of the percentage.
#[derive(Drop)]
pub struct Changes {
    /// The percentage of its size that each guest has as its minimum, rounded up, 1 to 100; `None` leaves minimums as they are.
    pub percent: Option<u32>,
    /// Minimums of some guests, in pages, whatever the percentage says. Of two for one guest the later counts.
    pub minimums: Vec<GuestValue>,
    /// Shares of some guests, in the same way.
    pub shares: Vec<GuestValue>,
    /// The number that is added to each seed, modulo 2^64.
    pub added: u64,
}

impl Model for Changes {
    ghost use Rattle.vm_variants.specs.Changes.{IsVariation, Variation};

    ghost Value = { Variation };

    ghost view = { λ c. record { percent = c.percent; minimums = c.minimums.items; shares = c.shares.items; added = c.added } };

    ghost invariant = { λ c. IsVariation (record { percent = c.percent; minimums = c.minimums.items; shares = c.shares.items; added = c.added }) };
}

// Why the first value that is refused is so, if one is.
fn refuse_first(
    alloc: Global,
    config: &mut Config,
    setting: GuestSetting,
    values: &[GuestValue],
) -> Result<(), GuestError>
    ensures refusal { result_err result ≡ refusal_among setting values.now config.old }
    ensures unchanged { config.new ≡ config.old }
{
    for value in values {
        check_guest(alloc, config, setting, value.place, value.value)?;
    }
    Ok(())
}

// The percentage, if it is named.
fn set_percent(alloc: Global, config: &mut Config, percent: Option<u32>)
    requires { ForSome percent IsPercent }
    ensures { config.new ≡ with_percent percent config.old }
{
    if let Some(percent) = percent {
        set_minimums(alloc, config, percent);
    }
}

// A value that isn't refused.
fn put_value(alloc: Global, config: &mut Config, setting: GuestSetting, value: GuestValue)
    requires { refusal_in setting value.place value.value config.old ≡ None }
    ensures { config.new ≡ with_guest_value setting value.place value.value config.old }
{
    match set_guest(alloc, config, setting, value.place, value.value) {
        Ok(()) => {}
        Err(_) => unreachable!(),
    }
}

// Values that aren't refused, one after the other.
fn put_values(alloc: Global, config: &mut Config, setting: GuestSetting, values: &[GuestValue])
    requires { refusal_among setting values.now config.old ≡ None }
    ensures { config.new ≡ with_values setting values.now config.old }
{
    for value in values {
        put_value(alloc, config, setting, *value);
    }
}

impl Changes {
    /// Nothing is changed.
    pub fn new(alloc: Global) -> Self
        ensures { result ≡ no_change }
    {
        Changes {
            percent: None,
            minimums: Vec::new(alloc),
            shares: Vec::new(alloc),
            added: 0,
        }
    }

    /// Why the first of the values that the configuration refuses is refused, minimums before shares. The configuration stays as it is.
    /// Takes no memory.
    pub fn check(&self, alloc: Global, config: &mut Config) -> Result<(), GuestError>
        ensures refusal { result_err result ≡ first_refusal self.now config.old }
        ensures unchanged { config.new ≡ config.old }
    {
        refuse_first(alloc, config, GuestSetting::Min, &self.minimums)?;
        refuse_first(alloc, config, GuestSetting::Shares, &self.shares)
    }

    /// Changes a configuration: the percentage comes first, then each minimum, which wins over it, then shares, then seeds. All else
    /// stays. Takes no memory.
    ///
    /// An `Err` comes exactly where the configuration refuses a value, tells why the first of these is refused, minimums before shares,
    /// and changes nothing.
    pub fn apply(&self, alloc: Global, config: &mut Config) -> Result<(), GuestError>
        ensures ok { OnOk result (config.new ≡ changed self.now config.old) }
        ensures err { OnErr result (config.new ≡ config.old) }
        ensures refusal { result_err result ≡ first_refusal self.now config.old }
    {
        self.check(alloc, config)?;
        set_percent(alloc, config, self.percent);
        put_values(alloc, config, GuestSetting::Min, &self.minimums);
        put_values(alloc, config, GuestSetting::Shares, &self.shares);
        add_to_seeds(alloc, config, self.added);
        Ok(())
    }
}
