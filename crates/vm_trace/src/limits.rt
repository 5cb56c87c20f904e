// What the version of a text allows its steps.
ghost use Rattle.std.specs.Prelude.{◌≡◌};
ghost use Rattle.vm_trace.specs.Versions.{most_posted};

use crate::buffer::MAX_BUFFER;
use crate::bytes::MAX_BYTES;

/// What the version of a text allows its steps.
#[derive(Clone, Copy, Debug, PartialEq, Eq)]
pub struct StepLimits {
    /// The pages of the greatest guest: 65536 in version 1, and 262144 in versions 2 and 3.
    pub pages: u32,
    /// Whether there is what version 3 has beside the versions before it: steps `t`, `y` and `a`, `f` with a count, and raw
    /// buffers of more than 64 bytes.
    pub version_3: bool,
}

// The most bytes of a raw buffer.
pub(crate) fn most_posted(limits: StepLimits) -> usize
    ensures { result ≡ most_posted limits }
{
    if limits.version_3 {
        MAX_BUFFER
    } else {
        MAX_BYTES
    }
}
