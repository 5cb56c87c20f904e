// What stands around the steps of a guest.
ghost use Rattle.std.specs.Prelude.{◌≡◌, ◌+◌, ◌≤◌, ◌<◌, ◌^◌, IfOk, length, string_bytes};
ghost use Rattle.vm_import.specs.Settings.{settings_of};
ghost use Rattle.vm_import.specs.Texts.{head_of, tail_of};

use crate::numbers::decimal_len;
use crate::settings::ImportSettings;
use crate::sizes::{epochs_of, frames_for, min_of};
use std::alloc::{AllocError, Global};

// All up to the first step.
#[tactic(auto, unfolding(crate::specs::Texts::head_of))]
pub(crate) fn head_text(alloc: Global, settings: &ImportSettings) -> Result<String, AllocError>
    ensures { IfOk result (λ text. string_bytes text ≡ head_of (settings_of settings.now)) }
{
    let quantum = settings.quantum;
    let name = settings.name.as_str();
    format!(in alloc;
        "{{\"version\":2,\"quantum\":{quantum},\"guests\":[{{\"name\":\"{name}\",\"trace\":["
    )
}

// All behind the last step.
#[tactic(auto, unfolding(crate::specs::Texts::tail_of))]
pub(crate) fn tail_text(
    alloc: Global,
    settings: &ImportSettings,
    size: u64,
    steps: u64,
) -> Result<String, AllocError>
    requires { steps < 2 ^ 63 + 2 ^ 62 }
    ensures { IfOk result (λ text. string_bytes text ≡ tail_of (settings_of settings.now) size steps) }
{
    let min = min_of(settings, size);
    let frames = frames_for(size);
    let swap = size - min;
    let epochs = epochs_of(settings.quantum, steps);
    format!(in alloc;
        "],\"size\":{size},\"min\":{min}}}],\"frames\":{frames},\"swap\":{swap},\"epochs\":{epochs}}}\n"
    )
}

// How many bytes stand behind the last step, beside the digits of numbers.
const TAIL_WORDS: u64 = 48;

// How many bytes stand behind the last step.
#[tactic(auto, unfolding(crate::specs::Texts::tail_of))]
pub(crate) fn tail_len(settings: &ImportSettings, size: u64, steps: u64) -> u64
    requires { steps < 2 ^ 63 + 2 ^ 62 }
    ensures exact { result ≡ length (tail_of (settings_of settings.now) size steps) }
    ensures few { result ≤ 148 }
{
    let min = min_of(settings, size);
    TAIL_WORDS
        + decimal_len(size)
        + decimal_len(min)
        + decimal_len(frames_for(size))
        + decimal_len(size - min)
        + decimal_len(epochs_of(settings.quantum, steps))
}
