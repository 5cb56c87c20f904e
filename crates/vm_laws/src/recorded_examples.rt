// A small recorded host, by example.
ghost use Rattle.std.specs.Prelude.{◌≡◌};
ghost use Rattle.vm_laws.specs.Recorded.{config_of_host};
ghost use Rattle.vm_laws.specs.RecordedExamples.{config, host, text};
ghost use Rattle.vm_recorded.specs.Hosts.{IsHost};
ghost use Rattle.vm_recorded.specs.Texts.{text_of};

/// A worked example: a recorded host, its text and its configuration, written out by hand. [`law_recorded`](crate::law_recorded) says
/// that the one means the other.
pub fn law_recorded_example()
    ensures in_range { IsHost host }
    ensures text_is { text_of host ≡ text }
    ensures config_is { config_of_host host ≡ config }
{}
