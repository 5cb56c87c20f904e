// A run that goes on by one epoch at a time.
ghost use Rattle.std.specs.Prelude.{◌≡◌, ◌≢◌, ◌+◌, ◌<◌, ◌≤◌, ℕ, suc, IfOk, IfErr, OnOk, OnErr, Err};
ghost use Rattle.vm_config.specs.declared.config.Config.{Config as Configuration};
ghost use Rattle.vm_host.specs.declared.phase.Phase.TheVariants.{Ready, Waiting};
ghost use Rattle.vm_sim.specs.declared.run_error.RunError.TheVariants.{Memory, Workers};
ghost use Rattle.vm_sim.specs.Course.{boundary_at};
ghost use Rattle.vm_sim.specs.Run.{FailsOnText, MeansConfig};

use crate::agenda::Agenda;
use crate::calendar::Calendar;
use crate::run_error::RunError;
use crate::simulation::boundary_before;
use std::alloc::Global;
use std::marker::Model;
use std::thread::Threads;
use vm_config::{Config, read_config};
use vm_host::{Boundary, Gate, Host, Shelf};

/// The run of a configuration, which goes on by one epoch at a time, so that its host can be looked at after each. It has to be
/// closed, since the guests hold the machine's frames.
pub struct SteppedRun {
    host: Host,
    calendar: Calendar,
    done: u32,
}

impl Model for SteppedRun {
    ghost use Rattle.vm_sim.specs.Stepping.{RunState};

    ghost Value = { RunState };

    ghost view = { λ r. record { host = r.host; agenda = r.calendar.agenda; epochs = r.calendar.epochs; done = r.done } };
}

impl SteppedRun {
    ghost use Rattle.vm_sim.specs.Stepping.{run_after, run_ready};

    /// The run of a configuration before its first epoch. An `Err` says that memory was refused; the configuration is let go then.
    pub fn new(alloc: Global, config: Config) -> Result<Self, RunError>
        ensures start { IfOk result (λ run. run ≡ run_after config 0) }
        ensures waits { IfOk result (λ run. run.host.phase ≡ Waiting) }
        ensures memory { IfErr result (λ error. error ≡ Memory) }
    {
        SteppedRun::with_shelf(alloc, config, Shelf::new(alloc))
    }

    /// The same with the rooms that guests of other runs left, for guests of this one to start in. An `Err` says that memory was
    /// refused; the configuration and the rooms are let go then.
    pub fn with_shelf(alloc: Global, config: Config, shelf: Shelf) -> Result<Self, RunError>
        ensures start { IfOk result (λ run. run ≡ run_after config 0) }
        ensures waits { IfOk result (λ run. run.host.phase ≡ Waiting) }
        ensures memory { IfErr result (λ error. error ≡ Memory) }
    {
        let Config {
            machine,
            epochs,
            domains,
            autostart,
            commands,
        } = config;
        let agenda = Agenda {
            autostart,
            commands,
        };
        let calendar = Calendar::new(alloc, agenda, epochs)?;
        match Host::with_shelf(alloc, machine, domains, shelf) {
            Ok(host) => Ok(SteppedRun {
                host,
                calendar,
                done: 0,
            }),
            Err(_) => Err(RunError::Memory),
        }
    }

    /// The run of the configuration that a text is, before its first epoch.
    ///
    /// The answer is [`RunError::Config`] with the first fault of the configuration, and [`RunError::Memory`] where memory was
    /// refused.
    pub fn of_text(alloc: Global, text: &[u8]) -> Result<Self, RunError>
        ensures start { IfOk result (λ run. MeansConfig (λ config. run ≡ run_after config 0) text.now) }
        ensures waits { IfOk result (λ run. run.host.phase ≡ Waiting) }
        ensures failed { IfErr result (FailsOnText text.now) }
        ensures workers { result ≢ Err Workers }
    {
        let config = read_config(alloc, text)?;
        SteppedRun::new(alloc, config)
    }

    /// How many epochs the run has, at most 10000.
    pub fn epochs(&self) -> u32
        ensures { result ≡ self.now.epochs }
    {
        self.calendar.epochs()
    }

    /// The host after the epochs that are done, or after the boundary that follows them.
    pub fn host(&self) -> &Host
        ensures { result.now ≡ self.now.host }
    {
        &self.host
    }

    /// The boundary before the next epoch, and what it tells. It asks for an epoch that is not done yet, and for no boundary since the
    /// last one. Where memory is refused, the run can only be closed.
    pub fn boundary(&mut self, alloc: Global) -> Result<Boundary, RunError>
        requires left { self.old.done < self.old.epochs }
        requires waits { self.old.host.phase ≡ Waiting }
        ensures made { (config : Configuration) (k : ℕ) → self.old ≡ run_after config k
            → OnOk result (self.new ≡ run_ready config k) }
        ensures told { (config : Configuration) (k : ℕ) → self.old ≡ run_after config k
            → IfOk result (λ told. told ≡ boundary_at config k) }
        ensures ready { OnOk result (self.new.host.phase ≡ Ready) }
        ensures counted { self.new.done ≡ self.old.done }
        ensures epochs { self.new.epochs ≡ self.old.epochs }
        ensures memory { IfErr result (λ error. error ≡ Memory) }
    {
        prove!(self.done < self.calendar.epochs());
        let told = boundary_before(alloc, self.done, &self.calendar, &mut self.host)?;
        Ok(told)
    }

    /// The epoch after its boundary, on at most `workers` threads, the caller's among them; each guest passes the gate. Whatever
    /// their number, the host that is left is that of one worker that serves the guests in order. It asks for a boundary since the
    /// last epoch. Where memory is refused, nothing changes.
    pub fn epoch<RT: Threads + Sync, G: Gate + Sync>(
        &mut self,
        rt: &RT,
        alloc: Global,
        gate: &G,
        workers: u32,
    ) -> Result<(), RunError>
        requires workers { (0 < workers) × (workers ≤ 64) }
        requires left { self.old.done < self.old.epochs }
        requires ready { self.old.host.phase ≢ Waiting }
        ensures next { (config : Configuration) (k : ℕ) → self.old ≡ run_ready config k
            → OnOk result (self.new ≡ run_after config (suc k)) }
        ensures waits { OnOk result (self.new.host.phase ≡ Waiting) }
        ensures counted { OnOk result (self.new.done ≡ self.old.done + 1) }
        ensures epochs { OnOk result (self.new.epochs ≡ self.old.epochs) }
        ensures unchanged { OnErr result (self.new ≡ self.old) }
        ensures memory { IfErr result (λ error. error ≡ Memory) }
    {
        prove!(self.done < self.calendar.epochs());
        self.host.epoch(rt, alloc, gate, workers)?;
        self.done += 1;
        Ok(())
    }

    /// The same on the caller's thread alone, which needs no runtime: the guests are served in order.
    pub fn epoch_alone<G: Gate>(&mut self, gate: &G) -> Result<(), RunError>
        requires left { self.old.done < self.old.epochs }
        requires ready { self.old.host.phase ≢ Waiting }
        ensures next { (config : Configuration) (k : ℕ) → self.old ≡ run_ready config k
            → OnOk result (self.new ≡ run_after config (suc k)) }
        ensures waits { OnOk result (self.new.host.phase ≡ Waiting) }
        ensures counted { OnOk result (self.new.done ≡ self.old.done + 1) }
        ensures epochs { OnOk result (self.new.epochs ≡ self.old.epochs) }
        ensures unchanged { OnErr result (self.new ≡ self.old) }
        ensures memory { IfErr result (λ error. error ≡ Memory) }
    {
        prove!(self.done < self.calendar.epochs());
        self.host.epoch_alone(gate)?;
        self.done += 1;
        Ok(())
    }

    // The boundary before the next epoch, unless it is done.
    fn make_ready(&mut self, alloc: Global) -> Result<(), RunError>
        requires { self.old.done < self.old.epochs }
        ensures made { (config : Configuration) (k : ℕ) → self.old ≡ run_after config k
            → OnOk result (self.new ≡ run_ready config k) }
        ensures ready { OnOk result (self.new.host.phase ≢ Waiting) }
        ensures counted { self.new.done ≡ self.old.done }
        ensures epochs { self.new.epochs ≡ self.old.epochs }
        ensures memory { IfErr result (λ error. error ≡ Memory) }
    {
        if self.host.ready() {
            return Ok(());
        }
        self.boundary(alloc)?;
        Ok(())
    }

    /// The next epoch, with the boundary before it unless that is done: what [`SteppedRun::boundary`] and [`SteppedRun::epoch`] do.
    /// It asks for an epoch that is not done yet. Where memory is refused, the run can only be closed.
    pub fn step<RT: Threads + Sync, G: Gate + Sync>(
        &mut self,
        rt: &RT,
        alloc: Global,
        gate: &G,
        workers: u32,
    ) -> Result<(), RunError>
        requires workers { (0 < workers) × (workers ≤ 64) }
        requires left { self.old.done < self.old.epochs }
        ensures next { (config : Configuration) (k : ℕ) → self.old ≡ run_after config k
            → OnOk result (self.new ≡ run_after config (suc k)) }
        ensures waits { OnOk result (self.new.host.phase ≡ Waiting) }
        ensures counted { OnOk result (self.new.done ≡ self.old.done + 1) }
        ensures epochs { OnOk result (self.new.epochs ≡ self.old.epochs) }
        ensures memory { IfErr result (λ error. error ≡ Memory) }
    {
        self.make_ready(alloc)?;
        self.epoch(rt, alloc, gate, workers)?;
        Ok(())
    }

    /// Ends the run. Its guests are stopped, all frames go back to the machine, and the configuration comes back. It takes no memory.
    pub fn close(self) -> Config
        ensures back { (config : Configuration) (k : ℕ) → self ≡ run_after config k → result ≡ config }
        ensures ready { (config : Configuration) (k : ℕ) → self ≡ run_ready config k → result ≡ config }
    {
        let (config, shelf) = self.close_keeping();
        drop(shelf);
        config
    }

    /// Ends the run as [`SteppedRun::close`] does, and keeps the rooms of its guests for another one ([`SteppedRun::with_shelf`]). It
    /// takes no memory.
    pub fn close_keeping(self) -> (Config, Shelf)
        ensures back { (config : Configuration) (k : ℕ) → self ≡ run_after config k → result.0 ≡ config }
        ensures ready { (config : Configuration) (k : ℕ) → self ≡ run_ready config k → result.0 ≡ config }
    {
        let SteppedRun {
            host,
            calendar,
            done: _,
        } = self;
        let machine = host.machine();
        let epochs = calendar.epochs();
        let Agenda {
            autostart,
            commands,
        } = calendar.into_agenda();
        let (domains, shelf) = host.close_keeping();
        let config = Config {
            machine,
            epochs,
            domains,
            autostart,
            commands,
        };
        (config, shelf)
    }
}
