// The numbers of a run, and the lines of its report.
ghost use Rattle.std.specs.Prelude.{◌≡◌};
ghost use Rattle.vm_config.specs.declared.config.Config.{Config};
ghost use Rattle.vm_sim.specs.Report.{report_of};
ghost use Rattle.vm_laws.specs.Columns.{AddsUpLines};
ghost use Rattle.vm_laws.specs.ReportLines.{lines_of, text_of_lines};

/// The report of a configuration is the text of lines, each of its kind (`report`), and the numbers of its run that are in the report
/// too are what adding up those lines gives (`columns`): epochs by their states, commands refused for want of frames and of swap,
/// pages revoked, granted and rebalanced, frames paged, guests blocked and stalled, and pages in swap and in balloons at the end.
pub fn law_lines()
    ensures report { (c : Config) → report_of c ≡ text_of_lines (lines_of c) }
    ensures columns { (c : Config) → AddsUpLines c }
{}
