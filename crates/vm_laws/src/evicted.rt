// The pages that touches of guests sent to swap, in the rows of a run and in its numbers.
ghost use Rattle.vm_config.specs.declared.config.Config.{Config};
ghost use Rattle.vm_laws.specs.Evicted.{AddsUpRows};

/// The column `evicted` of the series of a configuration adds up to what its run is told to have evicted, and its worst epoch is the first
/// whose rows have the most.
pub fn law_evicted()
    ensures { (c : Config) → AddsUpRows c }
{}
