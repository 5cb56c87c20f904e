//! The values of one run.
ghost use Rattle.std.specs.Prelude.{◌≡◌};
ghost use Rattle.vm_config.specs.Settings.{with_setting, IsInRange};
ghost use Rattle.vm_tally.specs.Combinations.{configured, values_of, with_value};

use std::marker::Model;
use vm_config::{Config, Setting};

/// Values for five settings of a machine. Its type keeps their ranges.
#[derive(Clone, Copy, Debug)]
pub struct Combination {
    /// Frames, 1 to 262144.
    pub frames: u32,
    /// Pages of the swap area, at most 67108864.
    pub swap: u32,
    /// The tax on idle memory in hundredths of a percent, at most 9999.
    pub tax: u32,
    /// The most frames that a guest gives up by paging in a boundary, 1 to 256.
    pub page_rate: u32,
    /// The most pages that a boundary moves from idle guests to those who would pay more for them, at most 262144.
    pub rebalance: u32,
}

impl Model for Combination {
    ghost use Rattle.vm_tally.specs.Combinations.{AreInRange, Values};

    ghost Value = { Values };

    ghost view = { λ c. record { frames = c.frames; swap = c.swap; tax = c.tax; page_rate = c.page_rate; rebalance = c.rebalance } };

    ghost invariant = { λ c. AreInRange (record { frames = c.frames; swap = c.swap; tax = c.tax; page_rate = c.page_rate; rebalance = c.rebalance }) };

    ghost inverse = { λ v. record { frames = v.frames; swap = v.swap; tax = v.tax; page_rate = v.page_rate; rebalance = v.rebalance } };
}

// Gives a setting a value in its range.
fn put(config: &mut Config, setting: Setting, value: u32)
    requires { IsInRange setting value }
    ensures { config.new ≡ with_setting setting value config.old }
{
    match config.set(setting, value) {
        Ok(()) => {}
        Err(_) => unreachable!(),
    }
}

impl Combination {
    /// The values that a configuration has.
    pub fn of(config: &Config) -> Combination
        ensures { result ≡ values_of config.now }
    {
        let machine = config.machine;
        Combination {
            frames: machine.frames,
            swap: machine.swap,
            tax: machine.tax,
            page_rate: machine.page_rate,
            rebalance: machine.rebalance,
        }
    }

    /// The same with another value for a setting.
    pub fn with(&self, setting: Setting, value: u32) -> Combination
        requires { IsInRange setting value }
        ensures { result ≡ with_value setting value self.now }
    {
        let mut other = *self;
        match setting {
            Setting::Frames => other.frames = value,
            Setting::Swap => other.swap = value,
            Setting::Tax => other.tax = value,
            Setting::PageRate => other.page_rate = value,
            Setting::Rebalance => other.rebalance = value,
        }
        other
    }

    /// Gives a configuration these values in the place of its own. All else of it stays.
    pub fn apply(&self, config: &mut Config)
        ensures { config.new ≡ configured self.now config.old }
    {
        put(config, Setting::Frames, self.frames);
        put(config, Setting::Swap, self.swap);
        put(config, Setting::Tax, self.tax);
        put(config, Setting::PageRate, self.page_rate);
        put(config, Setting::Rebalance, self.rebalance);
    }
}
