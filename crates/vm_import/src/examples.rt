// Worked examples of what the contracts speak of.
ghost use Rattle.vm_import.specs.SetExamples.{ForgetsCovered, KeepsFirst, RanksByFirstTouch, ReadsBeforeWrites, TouchesLast, TouchesTwo, WriteCovers};

/// What is kept of a few accesses.
pub fn law_examples()
    ensures first { KeepsFirst }
    ensures ranks { RanksByFirstTouch }
    ensures write { WriteCovers }
    ensures two { TouchesTwo }
    ensures modify { ReadsBeforeWrites }
    ensures interval { ForgetsCovered }
    ensures last { TouchesLast }
{}
