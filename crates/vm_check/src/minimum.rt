// A minimum above what a command asks for.
ghost use Rattle.std.specs.Prelude.{◌≡◌, ◌||◌};
ghost use Rattle.vm_check.specs.Minimums.{comes_before, cut_at, cut_to, is_before, minimum_above, tuned_before, tunes};

use crate::order::{Ask, Asked, Order};
use crate::what::What;

/// When a command runs: before its epoch, and of those of one epoch by its number.
#[derive(Clone, Copy, Debug, PartialEq, Eq)]
pub(crate) struct Turn {
    pub(crate) at: u32,
    pub(crate) number: usize,
}

// Whether one command runs before another one.
fn comes_before(first: Turn, second: Turn) -> bool
    ensures { result ≡ comes_before first second }
{
    first.at < second.at || (first.at == second.at && first.number < second.number)
}

// Whether there is one, and it runs before another one.
fn is_before(first: Option<Turn>, second: Turn) -> bool
    ensures { result ≡ is_before first second }
{
    match first {
        Some(turn) => comes_before(turn, second),
        None => false,
    }
}

// The one that runs first.
fn earlier(first: Option<Turn>, second: Turn) -> Turn
    ensures { (turn : Turn) → comes_before result turn ≡ (is_before first turn || comes_before second turn) }
{
    match first {
        Some(turn) => {
            if comes_before(turn, second) {
                turn
            } else {
                second
            }
        }
        None => second,
    }
}

// Whether a command tells the guest of a number another minimum.
fn tunes(guest: usize, asked: Asked) -> bool
    ensures { result ≡ tunes guest asked }
{
    match asked {
        Asked::Of { guest: other, ask } => other == guest && ask == Ask::SetMinimum,
        Asked::Wrong(_) => false,
    }
}

// The first command that tells a guest another minimum.
fn first_tune(guest: usize, orders: &[Order]) -> Option<Turn>
    ensures { (turn : Turn) → is_before result turn ≡ tuned_before guest turn 0 orders.now }
{
    let mut first = None;
    for (number, order) in orders.iter().enumerate() {
        if tunes(guest, order.asked) {
            let turn = Turn {
                at: order.at,
                number,
            };
            first = Some(earlier(first, turn));
        }
    }
    first
}

// How many pages a command asks for, if it is a `setmem` of the guest of a number that asks for fewer.
fn cut_to(guest: usize, min: u32, asked: Asked) -> Option<u64>
    ensures { result ≡ cut_to guest min asked }
{
    match asked {
        Asked::Of {
            guest: other,
            ask: Ask::SetMemory { pages },
        } => {
            if other == guest && pages < u64::from(min) {
                Some(pages)
            } else {
                None
            }
        }
        _ => None,
    }
}

// The same of a command of a number that runs, and before the first one that tells another minimum.
fn cut_at(
    epochs: u32,
    guest: usize,
    min: u32,
    tune: Option<Turn>,
    number: usize,
    order: Order,
) -> Option<What>
    ensures { result ≡ cut_at epochs guest min (λ turn. is_before tune turn) number order }
{
    let turn = Turn {
        at: order.at,
        number,
    };
    if order.at >= epochs || is_before(tune, turn) {
        return None;
    }
    let pages = cut_to(guest, min, order.asked)?;
    Some(What::AboveCommand {
        min,
        pages,
        command: number,
    })
}

/// That a minimum is above what a command asks for: the first one that runs before the minimum is another one.
pub(crate) fn minimum_above(epochs: u32, guest: usize, min: u32, orders: &[Order]) -> Option<What>
    ensures { result ≡ minimum_above epochs guest min orders.now }
{
    let tune = first_tune(guest, orders);
    for (number, order) in orders.iter().enumerate() {
        let found = cut_at(epochs, guest, min, tune, number, *order);
        if found.is_some() {
            return found;
        }
    }
    None
}
