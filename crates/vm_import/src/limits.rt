//! What a guest has at most.
ghost use Rattle.std.specs.Prelude.{◌≡◌, ◌+◌, ◌<◌, ◌^◌};
ghost use Rattle.vm_import.specs.Limits.{limit_passed};
ghost use Rattle.vm_import.specs.Settings.{settings_of};

use crate::settings::ImportSettings;
use crate::sizes::{MAX_PAGES, epochs_of};
use thiserror::Error;

/// What a guest that is made of a log has at most.
#[derive(Clone, Copy, Debug, PartialEq, Eq, Error)]
pub enum Limit {
    /// As many steps as the settings say, idle ones too.
    #[error("{0} steps")]
    Steps(u32),
    /// 262144 pages.
    #[error("262144 pages")]
    Pages,
    /// 10000 epochs.
    #[error("10000 epochs")]
    Epochs,
    /// 16777216 bytes of text.
    #[error("16777216 bytes")]
    Bytes,
}

const MAX_EPOCHS: u64 = 10000;

const MAX_BYTES: u64 = 16777216;

// The first limit that is passed by so many steps, pages and bytes.
pub(crate) fn limit_passed(
    settings: &ImportSettings,
    steps: u64,
    pages: u64,
    bytes: u64,
) -> Option<Limit>
    requires { steps < 2 ^ 63 + 2 ^ 62 }
    ensures { result ≡ limit_passed (settings_of settings.now) steps pages bytes }
{
    if steps > u64::from(settings.steps) {
        return Some(Limit::Steps(settings.steps));
    }
    if pages > MAX_PAGES {
        return Some(Limit::Pages);
    }
    if epochs_of(settings.quantum, steps) > MAX_EPOCHS {
        return Some(Limit::Epochs);
    }
    if bytes > MAX_BYTES {
        return Some(Limit::Bytes);
    }
    None
}
