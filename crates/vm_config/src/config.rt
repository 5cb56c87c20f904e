use crate::autostart::Autostart;
use crate::schedule::Schedule;
use std::alloc::AllocError;
use std::marker::Model;
use vm_domains::{Domains, MachineSpec};

/// A whole configuration, with tax and percents in hundredths of a percent; before it is migrated, one of version 1 has whole
/// percents.
#[derive(Drop)]
pub struct Config {
    /// How the machine is set up.
    pub machine: MachineSpec,
    /// How many epochs the run has, at most 10000.
    pub epochs: u32,
    /// The guests, in the order of the configuration.
    pub domains: Domains,
    /// Which of them start by themselves before the first epoch.
    pub autostart: Autostart,
    /// The command lines. One whose epoch the run does not reach is never obeyed.
    pub commands: Schedule,
}

/// `clone` gives the same configuration in memory of its own, with no more room than it takes. An `Err` says that memory was refused.
impl Clone for Config {
    ghost use Rattle.std.specs.Prelude.{◌≡◌};

    ghost is_clone = { λ config copy. copy ≡ config };

    fn clone(&self) -> Result<Config, AllocError> {
        Ok(Config {
            machine: self.machine,
            epochs: self.epochs,
            domains: self.domains.clone()?,
            autostart: self.autostart.clone()?,
            commands: self.commands.clone()?,
        })
    }
}

/// A configuration of version 1, in which tax and percents are whole percents. [`migrate`](crate::migrate) makes a [`Config`] of
/// it. A clause reads it as a `Config` with the numbers of its text.
#[derive(Drop)]
pub struct ConfigV1 {
    // With the tax and the percents as they are written, in whole percents.
    pub(crate) written: Config,
}

impl Model for ConfigV1 {
    ghost use Rattle.vm_config.specs.declared.config.Config.{Config};
    ghost use Rattle.vm_config.specs.Migration.{IsInPercents};

    ghost Value = { Config };

    ghost view = { λ c. c.written };

    ghost invariant = { λ c. IsInPercents c.written.machine };
}
