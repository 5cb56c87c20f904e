// Why a domain is left alone.
ghost use Rattle.std.specs.Prelude.{◌≡◌};
ghost use Rattle.vm_steer.specs.Whys.{words_of};

/// Why a domain is left alone. A domain is told the first of these that applies.
#[derive(Clone, Copy, Debug, PartialEq, Eq)]
pub enum Why {
    /// Its name is no guest's, or all digits, which `virsh` would take for an id.
    Name,
    /// Its name stands twice in the sample.
    Twice,
    /// The policy says so.
    Policy,
    /// Its state is told, and it isn't running.
    NotRunning,
    /// What it holds or what it may hold isn't told.
    NoBalloon,
    /// Nothing is told of what its guest could give.
    NoStatistics,
    /// What it may hold isn't 1 to 262144 units.
    Size,
}

impl Why {
    /// The words in which it is told.
    pub fn words(self) -> &'static str
        ensures { result.now ≡ words_of self }
    {
        match self {
            Why::Name => "name",
            Why::Twice => "twice",
            Why::Policy => "policy",
            Why::NotRunning => "not running",
            Why::NoBalloon => "no balloon",
            Why::NoStatistics => "no statistics",
            Why::Size => "size",
        }
    }
}
