// The starts of epoch 0.
ghost use Rattle.std.specs.Prelude.{◌≡◌, ◌++◌, ℕ, List, IfOk, OnOk};
ghost use Rattle.vm_check.specs.Starts.{autostarts_from, ends_starts, ordered_starts, started_by, starts_of, with_started};

use crate::order::{Ask, Asked, Order};
use std::alloc::{AllocError, Global};

// Adds the guests that start by themselves.
fn push_autostarts(starts: &mut Vec<usize>, flags: &[bool]) -> Result<(), AllocError>
    ensures { OnOk result (starts.new.items ≡ starts.old.items ++ autostarts_from 0 flags.now) }
{
    for (guest, starts_itself) in flags.iter().enumerate() {
        if *starts_itself {
            starts.push(guest)?;
        }
    }
    Ok(())
}

// Whether a command of epoch 0 frees memory, or asks for more: what is admitted behind it isn't followed.
fn ends_starts(order: Order) -> bool
    ensures { result ≡ ends_starts order }
{
    match order.asked {
        Asked::Of { ask, .. } => order.at == 0 && (ask == Ask::Destroy || ask == Ask::SetMinimum),
        Asked::Wrong(_) => false,
    }
}

// The guest that a command of epoch 0 starts.
fn started_by(order: Order) -> Option<usize>
    ensures { result ≡ started_by order }
{
    match order.asked {
        Asked::Of { guest, ask } => {
            if order.at == 0 && ask == Ask::Start {
                Some(guest)
            } else {
                None
            }
        }
        Asked::Wrong(_) => None,
    }
}

// Adds the guest that a command of epoch 0 starts.
fn push_started(starts: &mut Vec<usize>, order: Order) -> Result<(), AllocError>
    ensures { OnOk result ((later : List ℕ) → starts.old.items ++ with_started (started_by order) later ≡ starts.new.items ++ later) }
{
    if let Some(guest) = started_by(order) {
        starts.push(guest)?;
    }
    Ok(())
}

// Adds the guests that commands of epoch 0 start.
fn push_ordered(starts: &mut Vec<usize>, orders: &[Order]) -> Result<(), AllocError>
    ensures { OnOk result (starts.new.items ≡ starts.old.items ++ ordered_starts orders.now) }
{
    for order in orders {
        if ends_starts(*order) {
            return Ok(());
        }
        push_started(starts, *order)?;
    }
    Ok(())
}

/// The guests that start at epoch 0, where there is one.
pub(crate) fn starts_of(
    alloc: Global,
    epochs: u32,
    autostart: &[bool],
    orders: &[Order],
) -> Result<Vec<usize>, AllocError>
    ensures { IfOk result (λ starts. starts.items ≡ starts_of epochs autostart.now orders.now) }
{
    let mut starts = Vec::new(alloc);
    if epochs == 0 {
        return Ok(starts);
    }
    push_autostarts(&mut starts, autostart)?;
    push_ordered(&mut starts, orders)?;
    Ok(starts)
}
