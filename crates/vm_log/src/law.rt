// What is true of every policy and every list of samples, by the definitions alone.
ghost use Rattle.std.specs.Prelude.{ℕ, ◌≤◌, length, List, Result};
ghost use Rattle.vm_recorded.specs.Hosts.{IsHost};
ghost use Rattle.vm_recorded.specs.Texts.{text_of};
ghost use Rattle.vm_samples.specs.declared.sample.BadSample.{BadSample};
ghost use Rattle.vm_samples.specs.Policies.{IsPolicy, PolicyView};
ghost use Rattle.vm_samples.specs.Samples.{DomainView};
ghost use Rattle.vm_log.specs.HostOf.{host_of};
ghost use Rattle.vm_log.specs.Taking.{taken_of};

/// What is taken of any samples under a policy in range is a recorded host in range (`IsHost` of `vm_recorded`), however many samples make
/// an epoch: each guest has a name of its own, a size of 1 to 262144 units, a minimum of at least one, at most its cap, which is at most its
/// size, and it was there in at least one epoch of the text and used at most its size in each; and no limit of a text is passed (`range`).
/// So the text is that of a configuration, as `law_recorded` of `vm_laws` says of such hosts.
///
/// The text has at most 16777216 bytes (`short`).
pub fn law_in_range()
    ensures range { (policy : PolicyView) → IsPolicy policy → (every : ℕ) → 1 ≤ every → (samples : List (Result (List DomainView) BadSample))
        → IsHost (host_of policy every (taken_of every policy samples).samples) }
    ensures short { (policy : PolicyView) → IsPolicy policy → (every : ℕ) → 1 ≤ every → (samples : List (Result (List DomainView) BadSample))
        → length (text_of (host_of policy every (taken_of every policy samples).samples)) ≤ 16777216 }
{}
