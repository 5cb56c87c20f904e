// What is true of every policy and every list of samples, by the definitions alone.
ghost use Rattle.std.specs.Prelude.{◌≡◌, ◌<◌, ◌^◌, ℕ, length, true, List, Result, Err};
ghost use Rattle.vm_samples.specs.declared.sample.BadSample.{BadSample};
ghost use Rattle.vm_samples.specs.Policies.{PolicyView, IsPolicy};
ghost use Rattle.vm_samples.specs.Samples.{DomainView};
ghost use Rattle.vm_steer.specs.Fold.{after_sample, last_told};
ghost use Rattle.vm_steer.specs.Laws.{are_comments, AreBare, IsFair, KeepsBounds, KeepsPromise, RaisesWhatIsThere};
ghost use Rattle.vm_steer.specs.Entries.{EntryView, ToldView};
ghost use Rattle.vm_steer.specs.Steering.{SteeringView};
ghost use Rattle.vm_steer.specs.Table.{fields_of};
ghost use Rattle.vm_steer.specs.Text.{bad_text};

/// After any samples, what a domain is ordered is at least its minimum; where it is lowered, at least what it holds less the rate; where
/// it is raised, at most its cap, which is at most its size.
pub fn law_bounds()
    ensures { (policy : PolicyView) (samples : List (Result (List DomainView) BadSample)) (domains : List DomainView) → IsPolicy policy
        → KeepsBounds policy (last_told policy samples) domains }
{}

/// After any samples, what all are meant to hold is no more than it was before the decisions, or it fits into memory with the rest; and
/// nothing is raised where what is held and promised is more than memory.
pub fn law_promise()
    ensures kept { (policy : PolicyView) (samples : List (Result (List DomainView) BadSample)) (domains : List DomainView) → IsPolicy policy
        → KeepsPromise policy (last_told policy samples) domains }
    ensures raised { (policy : PolicyView) (samples : List (Result (List DomainView) BadSample)) (domains : List DomainView) → IsPolicy policy
        → RaisesWhatIsThere policy (last_told policy samples) domains }
{}

/// After any samples, each revocation and each entry of rebalancing takes from a domain above its minimum whose adjusted ratio is least.
pub fn law_fairness()
    ensures { (policy : PolicyView) (samples : List (Result (List DomainView) BadSample)) (domains : List DomainView) → IsPolicy policy
        → IsFair policy (last_told policy samples) domains }
{}

/// A bad sample leaves everything that is remembered as it was, and its text has only comments, and so no `setmem`.
pub fn law_bad_samples()
    ensures kept { (s : SteeringView) (bad : BadSample) → after_sample s (Err bad) ≡ s }
    ensures silent { (number : ℕ) (bad : BadSample) → number < 2 ^ 64 → bad.line < 2 ^ 64
        → are_comments true (bad_text number bad) ≡ true }
{}

/// No field of a sample's records has a comma, a quote, CR or LF, so that none needs quotes; and each record has 14 fields.
pub fn law_records()
    ensures bare { (number : ℕ) (told : ToldView) (e : EntryView) → AreBare (fields_of number told e) }
    ensures fields { (number : ℕ) (told : ToldView) (e : EntryView) → length (fields_of number told e) ≡ 14 }
{}
