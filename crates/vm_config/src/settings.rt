// The numbers of a machine that may be set.
ghost use Rattle.std.specs.Prelude.{◌≡◌, ℕ, IfErr, OnErr, OnOk};
ghost use Rattle.vm_config.specs.declared.config.Config.{Config};
ghost use Rattle.vm_config.specs.Limits.{IsConfig};
ghost use Rattle.vm_config.specs.Settings.{greatest_of, least_of, setting_of, with_setting, IsInRange};

use crate::config::Config;
use crate::machine::{MAX_PAGE_RATE, MAX_REBALANCE};
use crate::version::VERSION_2;
use thiserror::Error;

/// A number of a machine that may be set.
#[derive(Clone, Copy, Debug, PartialEq, Eq)]
pub enum Setting {
    /// Frames of 4096 bytes, 1 to 262144.
    Frames,
    /// Pages of 4096 bytes in the swap area, 0 to 67108864.
    Swap,
    /// The tax on idle memory in hundredths of a percent, 0 to 9999.
    Tax,
    /// The most frames that a guest gives up by paging in a boundary, 1 to 256.
    PageRate,
    /// The most pages that a boundary moves from idle guests to those who would pay more for them, 0 to 262144.
    Rebalance,
}

/// A value is not in the range of its setting, from `least` to `greatest`.
#[derive(Clone, Copy, Debug, PartialEq, Eq, Error)]
#[error("not {least} to {greatest}")]
pub struct OutOfRange {
    pub least: u32,
    pub greatest: u32,
}

impl Setting {
    /// The least value that may be set.
    pub fn least(self) -> u32
        ensures { result ≡ least_of self }
    {
        match self {
            Setting::Frames => 1,
            Setting::Swap => 0,
            Setting::Tax => 0,
            Setting::PageRate => 1,
            Setting::Rebalance => 0,
        }
    }

    /// The greatest value that may be set.
    pub fn greatest(self) -> u32
        ensures { result ≡ greatest_of self }
    {
        match self {
            Setting::Frames => VERSION_2.frames as u32,
            Setting::Swap => VERSION_2.swap as u32,
            Setting::Tax => VERSION_2.tax as u32,
            Setting::PageRate => MAX_PAGE_RATE as u32,
            Setting::Rebalance => MAX_REBALANCE as u32,
        }
    }
}

impl Config {
    /// The value that a setting has.
    pub fn setting(&self, setting: Setting) -> u32
        ensures { result ≡ setting_of setting self.now }
    {
        match setting {
            Setting::Frames => self.machine.frames,
            Setting::Swap => self.machine.swap,
            Setting::Tax => self.machine.tax,
            Setting::PageRate => self.machine.page_rate,
            Setting::Rebalance => self.machine.rebalance,
        }
    }

    /// Gives a setting another value; all else stays. An `Err` comes only for a value outside the setting's range, which it names, and
    /// changes nothing. Takes no memory.
    pub fn set(&mut self, setting: Setting, value: u32) -> Result<(), OutOfRange>
        ensures ok { OnOk result (self.new ≡ with_setting setting value self.old) }
        ensures inside { OnOk result (IsInRange setting value) }
        ensures err { OnErr result (self.new ≡ self.old) }
        ensures outside { OnErr result (¬ IsInRange setting value) }
        ensures range { IfErr result (λ missed. missed ≡ record { least = least_of setting; greatest = greatest_of setting }) }
    {
        let range = OutOfRange {
            least: setting.least(),
            greatest: setting.greatest(),
        };
        if value < range.least || range.greatest < value {
            return Err(range);
        }
        match setting {
            Setting::Frames => self.machine.frames = value,
            Setting::Swap => self.machine.swap = value,
            Setting::Tax => self.machine.tax = value,
            Setting::PageRate => self.machine.page_rate = value,
            Setting::Rebalance => self.machine.rebalance = value,
        }
        Ok(())
    }
}

/// A value that is set keeps the limits of a configuration and is the one that stands there from then on; setting the value that stands
/// there changes nothing.
pub fn law_settings()
    ensures limits { (setting : Setting) (value : ℕ) (c : Config) → IsInRange setting value → IsConfig c → IsConfig (with_setting setting value c) }
    ensures stands { (setting : Setting) (value : ℕ) (c : Config) → setting_of setting (with_setting setting value c) ≡ value }
    ensures same { (setting : Setting) (c : Config) → with_setting setting (setting_of setting c) c ≡ c }
{}
