// What is found of a guest by itself: whether it ever starts, and whether its trace can end.
ghost use Rattle.std.specs.Prelude.{◌≡◌};
ghost use Rattle.vm_check.specs.Guests.{is_started, long_trace, never_starts, starts};

use crate::order::{Ask, Asked, Order};
use crate::what::What;
use vm_domains::GuestSpec;

// Whether a command starts the guest of a number.
fn starts(guest: usize, asked: Asked) -> bool
    ensures { result ≡ starts guest asked }
{
    match asked {
        Asked::Of { guest: other, ask } => other == guest && ask == Ask::Start,
        Asked::Wrong(_) => false,
    }
}

// Whether a command that runs starts it.
fn is_started(epochs: u32, guest: usize, orders: &[Order]) -> bool
    ensures { result ≡ is_started epochs guest orders.now }
{
    orders
        .iter()
        .any(|order| order.at < epochs && starts(guest, order.asked))
}

/// That a guest neither starts by itself nor is started.
pub(crate) fn never_starts(
    epochs: u32,
    guest: usize,
    autostart: bool,
    orders: &[Order],
) -> Option<What>
    ensures { result ≡ never_starts epochs guest autostart orders.now }
{
    if autostart || is_started(epochs, guest, orders) {
        return None;
    }
    Some(What::NeverStarts)
}

/// That a trace has more steps than run in so many epochs.
pub(crate) fn long_trace(epochs: u32, spec: &GuestSpec) -> Option<What>
    ensures { result ≡ long_trace epochs spec.now }
{
    let steps = spec.trace.len();
    let quantum = spec.quantum;
    if steps as u64 <= u64::from(epochs) * u64::from(quantum) {
        return None;
    }
    Some(What::LongTrace {
        steps,
        epochs,
        quantum,
    })
}
