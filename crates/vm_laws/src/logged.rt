// The text of a host log, as a configuration.
ghost use Rattle.std.specs.Prelude.{ℕ, ◌≤◌, ◌≡◌, List, Ok, Result};
ghost use Rattle.vm_laws.specs.Logged.{IsLogRead};
ghost use Rattle.vm_laws.specs.Recorded.{IsHostRead};
ghost use Rattle.vm_log.specs.HostOf.{host_of};
ghost use Rattle.vm_log.specs.Taking.{taken_of};
ghost use Rattle.vm_samples.specs.declared.sample.BadSample.{BadSample};
ghost use Rattle.vm_samples.specs.Policies.{IsPolicy, PolicyView};
ghost use Rattle.vm_samples.specs.Samples.{DomainView};
ghost use Rattle.vm_steer.specs.Streams.{policy_in};

/// The text that `vm_log` makes of any samples, under a policy in range, is one that `read_config` of `vm_config` accepts, however many
/// samples make an epoch: it means the configuration of the recorded host (`samples`), as [`law_recorded`](crate::law_recorded) has it,
/// since what is taken of samples is a host in range (`law_in_range` of `vm_log`).
///
/// So it is of every host log with a policy, whatever its bytes are, and the text has at most 16777216 bytes (`log`).
pub fn law_logged()
    ensures samples { (policy : PolicyView) → IsPolicy policy → (every : ℕ) → 1 ≤ every → (samples : List (Result (List DomainView) BadSample))
        → IsHostRead (host_of policy every (taken_of every policy samples).samples) }
    ensures log { (every : ℕ) → 1 ≤ every → (bytes : List ℕ) (policy : PolicyView) → policy_in bytes ≡ Ok policy → IsLogRead every policy bytes }
{}
