// What holds of every run.
ghost use Rattle.std.specs.Prelude.{◌≡◌, ℕ};
ghost use Rattle.vm_config.specs.declared.config.Config.{Config};
ghost use Rattle.vm_config.specs.Limits.{IsConfig};
ghost use Rattle.vm_config.specs.Migration.{migrated};
ghost use Rattle.vm_sim.specs.Course.{world_after};
ghost use Rattle.vm_sim.specs.Headline.{ConservesFrames, ReadsLastWrites, RebalancesFairly, RevokesFairly};
ghost use Rattle.vm_sim.specs.Migration.{converted, report_by_percents, world_by_percents};
ghost use Rattle.vm_sim.specs.Report.{report_of};

use vm_host::law_boundary;
use vm_plan::law_scales;
use vm_runs::law_course;

/// The run of each configuration, where one worker serves the guests in order: each read gives the bytes that were last written
/// there (`reads`); frames free, held by guests and set aside for them add up to the machine at each boundary and after each epoch
/// (`conservation`); each revocation takes from a guest above its minimum whose adjusted ratio of shares to pages is least
/// (`revocations`); and each page that moves at a boundary is given by a guest above its minimum and above what it uses, whose adjusted
/// ratio is least of those that are (`rebalancing`).
pub fn law_runs()
    ensures reads { (c : Config) → IsConfig c → ReadsLastWrites c }
    ensures conservation { (c : Config) → IsConfig c → ConservesFrames c }
    ensures revocations { (c : Config) → IsConfig c → RevokesFairly c }
    ensures rebalancing { (c : Config) → IsConfig c → RebalancesFairly c }
{
    law_boundary();
    law_course();
}

/// A configuration of version 1 and the one that it stands for run alike: by the formulas of whole percents its hosts are those of
/// the migrated configuration, but for how the machine's tax and percents are written, and its report is the same text.
pub fn law_migration()
    ensures hosts { (c : Config) (k : ℕ) → world_after (migrated c) k ≡ converted (world_by_percents c k) }
    ensures report { (c : Config) → report_of (migrated c) ≡ report_by_percents c }
{
    law_scales();
}
