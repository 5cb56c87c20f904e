// Prices of guests, compared.
ghost use Rattle.std.specs.Prelude.{◌≡◌, IfSome};

use crate::policy::rows::next_number;
use crate::table::{Columns, Outcome};
use std::alloc::{AllocError, Global};
use std::cmp::Ordering;
use vm_tax::{Price, cmp_price};

// Two prices at one tax, and the order of the first beside the second.
#[derive(Clone, Copy)]
struct Case<'a> {
    tax: u32,
    first: &'a str,
    second: &'a str,
    wanted: &'a str,
}

impl<'a> Case<'a> {
    fn of(line: &'a str) -> Option<Self> {
        let mut columns = Columns::of(line);
        let case = Case {
            tax: u32::try_from(columns.number()?).ok()?,
            first: columns.text()?,
            second: columns.text()?,
            wanted: columns.text()?,
        };
        columns.end()?;
        Some(case)
    }
}

// The price of so many shares, pages and active parts of 65536, if they and the tax are within their limits.
fn within_limits(tax: u32, shares: u32, pages: u32, active: u32) -> Option<Price>
    ensures { IfSome result (λ price. price.tax ≡ tax) }
{
    if tax > 9999 || shares == 0 || shares > 1_000_000 {
        return None;
    }
    if pages == 0 || pages > 262_144 || active > 65_536 {
        return None;
    }
    Some(Price {
        shares,
        pages,
        active,
        tax,
    })
}

// The price of three numbers.
fn price_of(tax: u32, text: &str) -> Option<Price>
    ensures { IfSome result (λ price. price.tax ≡ tax) }
{
    let mut words = text.split_whitespace();
    let shares = next_number(&mut words)?;
    let pages = next_number(&mut words)?;
    let active = next_number(&mut words)?;
    if words.next().is_some() {
        return None;
    }
    within_limits(tax, shares, pages, active)
}

// The order of two prices.
fn order_of(tax: u32, first: &str, second: &str) -> Option<Ordering> {
    let first = price_of(tax, first)?;
    let second = price_of(tax, second)?;
    Some(cmp_price(&first, &second))
}

/// Tries a line.
pub(crate) fn outcome(alloc: Global, line: &str) -> Result<Outcome, AllocError> {
    let Some(case) = Case::of(line) else {
        return Ok(Outcome::Malformed);
    };
    match order_of(case.tax, case.first, case.second) {
        Some(Ordering::Less) => Outcome::of(alloc, case.wanted, &"less"),
        Some(Ordering::Equal) => Outcome::of(alloc, case.wanted, &"equal"),
        Some(Ordering::Greater) => Outcome::of(alloc, case.wanted, &"greater"),
        None => Ok(Outcome::Malformed),
    }
}
