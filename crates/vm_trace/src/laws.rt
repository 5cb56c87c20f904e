//! Laws of the definitions.
ghost use Rattle.std.specs.Prelude.{◌≡◌, ◌↔◌, ◌≤◌, ℕ, List, Ok};
ghost use Rattle.vm_trace.specs.declared.limits.StepLimits.{StepLimits};
ghost use Rattle.vm_trace.specs.declared.step.Step.{Step};
ghost use Rattle.vm_trace.specs.Meaning.{alone, step_within, steps_within};
ghost use Rattle.vm_trace.specs.Spelling.{IsSpelled, AreSpelled};
ghost use Rattle.vm_trace.specs.Versions.{before_3};

/// The functions that read texts give the steps that a text spells, and none of another text. Which fault that has is said by the
/// functions alone.
pub fn law_spelling()
    ensures steps { (limits : StepLimits) (text : List ℕ) (steps : List Step) → 1 ≤ limits.pages → (steps_within limits text ≡ Ok steps) ↔ AreSpelled limits text steps }
    ensures step { (pages : ℕ) (text : List ℕ) (step : Step) → 1 ≤ pages → (step_within pages text ≡ Ok step) ↔ IsSpelled (before_3 pages) text step }
{}

/// Before version 3 a text stands for one step.
pub fn law_one_step()
    ensures { (pages : ℕ) (text : List ℕ) → steps_within (before_3 pages) text ≡ alone (step_within pages text) }
{}
