// What is told of a domain's balloon.
ghost use Rattle.std.specs.Prelude.{◌≡◌};
ghost use Rattle.vm_steer.specs.Look.{balloon_in};

use crate::why::Why;
use vm_samples::Domain;

// Memory in KiB. One of `usable` and `unused` is told at least.
#[derive(Clone, Copy)]
pub(crate) struct Balloon {
    pub(crate) current: u64,
    pub(crate) maximum: u64,
    pub(crate) usable: Option<u64>,
    pub(crate) unused: Option<u64>,
    pub(crate) swap_in: Option<u64>,
}

// What is told of a domain's, if it is enough.
pub(crate) fn balloon_in(domain: &Domain) -> Result<Balloon, Why>
    ensures { let d = domain.now in result ≡ balloon_in d.current d.maximum d.usable d.unused d.swap_in }
{
    let (Some(current), Some(maximum)) = (domain.current, domain.maximum) else {
        return Err(Why::NoBalloon);
    };
    if domain.usable.is_none() && domain.unused.is_none() {
        return Err(Why::NoStatistics);
    }
    Ok(Balloon {
        current,
        maximum,
        usable: domain.usable,
        unused: domain.unused,
        swap_in: domain.swap_in,
    })
}
