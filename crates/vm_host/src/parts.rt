// A host's parts.
ghost use Rattle.std.specs.Prelude.{◌≡◌};

use crate::phase::Phase;
use vm_domains::{MachineSpec, Names};
use vm_plan::State;
use vm_pool::Pool;

pub(crate) struct Parts {
    pub(crate) spec: MachineSpec,
    pub(crate) names: Names,
    pub(crate) pool: Pool,
    pub(crate) state: State,
    pub(crate) phase: Phase,
}

// The tax on idle memory, in hundredths of a percent.
pub(crate) fn tax_of(parts: &Parts) -> u32
    ensures { result ≡ parts.now.spec.tax }
{
    parts.spec.tax
}

// The KiB that a page stands for.
pub(crate) fn page_of(parts: &Parts) -> u32
    ensures { result ≡ parts.now.spec.page }
{
    parts.spec.page
}
