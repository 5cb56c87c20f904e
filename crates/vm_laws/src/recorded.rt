// The text of a recorded host, as a configuration.
ghost use Rattle.std.specs.Prelude.{ℕ, ◌≤◌};
ghost use Rattle.vm_laws.specs.Recorded.{AreStepsRead, IsHostRead};
ghost use Rattle.vm_recorded.specs.Hosts.{GuestView, HostView, IsGuest, IsHost};
ghost use Rattle.vm_recorded.specs.Traces.{steps_from};

/// The text of a recorded host is one that `read_config` of `vm_config` accepts, where the host is in range (`IsHost`): it keeps the
/// ranges of its policy and has at most 10000 epochs, and at most 256 guests with names of their own, each of at most 1000000 steps,
/// and 65536 in an epoch.
///
/// The configuration has the machine of the policy, with what the guests may hold as its frames. A guest is as large as it was and has
/// a driver of its own; in each of its epochs it frees what it uses no more, touches what it uses, and then yields. Command lines
/// start, cap and destroy it at the epochs in which it came and went. What the text leaves out is as a configuration has it then
/// (`read`).
///
/// The steps of one guest are read so whatever else its host has, and they are as many as the limits of a text count (`steps`).
///
/// How long the text is is no matter of its meaning: `vm_recorded` judges it by itself.
pub fn law_recorded()
    ensures read { (host : HostView) → IsHost host → IsHostRead host }
    ensures steps { (epochs : ℕ) (g : GuestView) → IsGuest epochs g → steps_from 0 g.uses ≤ 1000000 → AreStepsRead g }
{}
