// Worked examples of the winner trees.
ghost use Rattle.std.specs.Prelude.{◌≡◌, ◌<◌, ◌≤◌, IfSome, length};
ghost use Rattle.std.specs.List.{AllByRecursion};

use super::check_eq;
use std::alloc::Global;
use std::process::Abort;
use vm_tax::{Greatest, Price, Winners};

// Shares, pages and active fraction, at one tax.
fn price(shares: u32, pages: u32, active: u32) -> Price
    requires some_shares { 1 ≤ shares }
    requires few_shares { shares ≤ 1000000 }
    requires some_pages { 1 ≤ pages }
    requires few_pages { pages ≤ 262144 }
    requires active { active ≤ 65536 }
    ensures { result.tax ≡ 7500 }
{
    Price {
        shares,
        pages,
        active,
        tax: 7500,
    }
}

// Asserts where the least price stands.
fn check_least(rt: &impl Abort, winners: &Winners, want: Option<u32>) {
    check_eq(rt, winners.least(), want);
}

// Asserts where the greatest price stands.
fn check_greatest(rt: &impl Abort, greatest: &Greatest, want: Option<u32>) {
    check_eq(rt, greatest.greatest(), want);
}

// The winners of these prices.
fn winners(rt: &impl Abort, alloc: Global, prices: &[Option<Price>]) -> Winners
    requires few { length prices.now ≤ 256 }
    requires taxed { AllByRecursion (λ offer. IfSome offer (λ price. price.tax ≡ 7500)) prices.now }
    ensures length { length result ≡ length prices.now }
    ensures taxed { AllByRecursion (λ offer. IfSome offer (λ price. price.tax ≡ 7500)) result }
{
    Winners::new(alloc, prices).expect(rt, "memory")
}

// Changes a price.
fn set_winner(winners: &mut Winners, position: u32, price: Option<Price>)
    requires within { position < length winners.old }
    requires taxed { AllByRecursion (λ offer. IfSome offer (λ price. price.tax ≡ 7500)) winners.old }
    requires price { IfSome price (λ price. price.tax ≡ 7500) }
    ensures length { length winners.new ≡ length winners.old }
    ensures taxed { AllByRecursion (λ offer. IfSome offer (λ price. price.tax ≡ 7500)) winners.new }
{
    winners.set(position, price);
}

// Ends winners. It stands here once, since a function that owns some is proved to free all parts of them where it ends.
fn end_winners(_winners: Winners) {}

#[test]
fn winners_follow_changes(rt: HostRuntime) {
    let prices = [Some(price(100, 10, 65536)), Some(price(100, 5, 0))];
    let mut winners = winners(&rt, rt.alloc(), &prices);
    check_least(&rt, &winners, Some(1));
    set_winner(&mut winners, 1, None);
    check_least(&rt, &winners, Some(0));
    set_winner(&mut winners, 0, None);
    check_least(&rt, &winners, None);
    end_winners(winners);
}

#[test]
fn equal_prices_go_to_the_lower_position(rt: HostRuntime) {
    let prices = [Some(price(100, 5, 65536)), Some(price(100, 5, 65536))];
    let winners = winners(&rt, rt.alloc(), &prices);
    check_least(&rt, &winners, Some(0));
    end_winners(winners);
}

// The price of a guest with so many pages.
fn of_pages(pages: u32) -> Price
    requires some { 1 ≤ pages }
    requires few { pages ≤ 262144 }
    ensures { result.tax ≡ 7500 }
{
    price(100, pages, 65536)
}

#[test]
fn any_number_of_positions(rt: HostRuntime) {
    let nine = Some(of_pages(9));
    let prices = [Some(of_pages(3)), nine, None, nine, Some(of_pages(5))];
    let mut winners = winners(&rt, rt.alloc(), &prices);
    check_least(&rt, &winners, Some(1));
    set_winner(&mut winners, 1, Some(of_pages(8)));
    check_least(&rt, &winners, Some(3));
    set_winner(&mut winners, 2, Some(of_pages(20)));
    check_least(&rt, &winners, Some(2));
    set_winner(&mut winners, 2, None);
    set_winner(&mut winners, 3, None);
    check_least(&rt, &winners, Some(1));
    end_winners(winners);
}

#[test]
fn no_positions(rt: HostRuntime) {
    let winners = winners(&rt, rt.alloc(), &[]);
    check_least(&rt, &winners, None);
    end_winners(winners);
}

// The greatest of these prices.
fn greatest(rt: &impl Abort, alloc: Global, prices: &[Option<Price>]) -> Greatest
    requires few { length prices.now ≤ 256 }
    requires taxed { AllByRecursion (λ offer. IfSome offer (λ price. price.tax ≡ 7500)) prices.now }
    ensures length { length result ≡ length prices.now }
    ensures taxed { AllByRecursion (λ offer. IfSome offer (λ price. price.tax ≡ 7500)) result }
{
    Greatest::new(alloc, prices).expect(rt, "memory")
}

// Changes a price.
fn set_greatest(greatest: &mut Greatest, position: u32, price: Option<Price>)
    requires within { position < length greatest.old }
    requires taxed { AllByRecursion (λ offer. IfSome offer (λ price. price.tax ≡ 7500)) greatest.old }
    requires price { IfSome price (λ price. price.tax ≡ 7500) }
    ensures length { length greatest.new ≡ length greatest.old }
    ensures taxed { AllByRecursion (λ offer. IfSome offer (λ price. price.tax ≡ 7500)) greatest.new }
{
    greatest.set(position, price);
}

// The same of the greatest prices.
fn end_greatest(_greatest: Greatest) {}

#[test]
fn greatest_follows_changes(rt: HostRuntime) {
    let prices = [
        Some(price(100, 5, 0)),
        Some(price(100, 10, 65536)),
        None,
        Some(price(200, 20, 65536)),
    ];
    let mut greatest = greatest(&rt, rt.alloc(), &prices);
    // The lower of two equal ones.
    check_greatest(&rt, &greatest, Some(1));
    set_greatest(&mut greatest, 1, None);
    check_greatest(&rt, &greatest, Some(3));
    set_greatest(&mut greatest, 2, Some(price(100, 9, 65536)));
    check_greatest(&rt, &greatest, Some(2));
    set_greatest(&mut greatest, 2, None);
    set_greatest(&mut greatest, 3, None);
    check_greatest(&rt, &greatest, Some(0));
    set_greatest(&mut greatest, 0, None);
    check_greatest(&rt, &greatest, None);
    end_greatest(greatest);
}

#[test]
fn greatest_of_no_positions(rt: HostRuntime) {
    let greatest = greatest(&rt, rt.alloc(), &[]);
    check_greatest(&rt, &greatest, None);
    end_greatest(greatest);
}
