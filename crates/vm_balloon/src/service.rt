ghost use Rattle.std.specs.Prelude.{◌≡◌, ◌+◌, ◌<◌, ◌≤◌, [], ◌∷◌, ◌++◌, true, false, All, length, vec_len};
ghost use Rattle.std.specs.Bool.{OnTrue, OnFalse};
ghost use Rattle.std.specs.Vec.{vec_capacity};
ghost use Rattle.vm_balloon.specs.Room.{HasRoomFor, KeepsRoom};
ghost use Rattle.vm_pages.specs.Pages.{no_pages, insert, remove, insert_all, remove_all};
ghost use Rattle.vm_balloon.specs.Service.{numbers_in, refused, can_inflate, can_deflate, inflated_by, deflated_by};
ghost use Rattle.vm_balloon.specs.DeviceFields.{AreListed};

use crate::decode::append_within;
use crate::page_queue::PageQueue;
use vm_pages::PageSet;

/// Serves the inflate buffers, takes them out and counts what of them it ignores. Where none was posted it doesn't look at them.
#[tactic(auto, unfolding(crate::specs::Service::distinct))]
pub(crate) fn serve_inflates(
    posted: bool,
    inflates: &mut PageQueue,
    balloon: &mut PageSet,
    inflated: &mut Vec<u32>,
) -> u32
    requires none { posted ≡ false → inflates.old.buffers ≡ [] }
    requires size { length balloon.old ≡ inflates.old.size }
    requires few { length inflates.old.buffers ≤ 256 }
    requires room { HasRoomFor inflated.old inflates.old.buffers }
    ensures inflated { inflated.new.items ≡ inflated_by balloon.old (numbers_in inflates.old.buffers) }
    ensures pages { All (λ page. page < length balloon.old) inflated.new.items }
    ensures bad { result ≡ refused inflates.old.buffers inflated.new.items }
    ensures few_bad { result ≤ 65792 }
    ensures inflates { inflates.new ≡ record inflates.old { buffers = [] } }
    ensures balloon { balloon.new ≡ insert_all balloon.old inflated.new.items }
    ensures same_pages { length balloon.new ≡ length balloon.old }
    ensures room { KeepsRoom inflated.old inflated.new }
{
    if !posted {
        inflated.clear();
        return 0;
    }
    let size = inflates.size();
    let in_range = inflates.in_range();
    let numbers = inflates.numbers();
    inflate(numbers, size, in_range, balloon, inflated);
    let bad = inflates.ragged() + (numbers.len() - inflated.len()) as u32;
    inflates.clear();
    bad
}

/// Serves the deflate buffers, takes them out and counts what of them it ignores. Where none was posted it doesn't look at them.
#[tactic(auto, unfolding(crate::specs::Service::distinct))]
pub(crate) fn serve_deflates(
    posted: bool,
    deflates: &mut PageQueue,
    balloon: &mut PageSet,
    early: &mut PageSet,
    deflated: &mut Vec<u32>,
) -> u32
    requires none { posted ≡ false → deflates.old.buffers ≡ [] }
    requires size { length balloon.old ≡ deflates.old.size }
    requires same_pages { length early.old ≡ length balloon.old }
    requires few { length deflates.old.buffers ≤ 256 }
    requires room { HasRoomFor deflated.old deflates.old.buffers }
    ensures deflated { deflated.new.items ≡ deflated_by balloon.old early.old (numbers_in deflates.old.buffers) }
    ensures pages { All (λ page. page < length balloon.old) deflated.new.items }
    ensures bad { result ≡ refused deflates.old.buffers deflated.new.items }
    ensures few_bad { result ≤ 65792 }
    ensures deflates { deflates.new ≡ record deflates.old { buffers = [] } }
    ensures balloon { balloon.new ≡ remove_all balloon.old deflated.new.items }
    ensures early { early.new ≡ remove_all early.old deflated.new.items }
    ensures same_pages { (length balloon.new ≡ length balloon.old) × (length early.new ≡ length early.old) }
    ensures room { KeepsRoom deflated.old deflated.new }
{
    if !posted {
        deflated.clear();
        return 0;
    }
    let size = deflates.size();
    let numbers = deflates.numbers();
    deflate(numbers, size, balloon, early, deflated);
    let bad = deflates.ragged() + (numbers.len() - deflated.len()) as u32;
    deflates.clear();
    bad
}

// Puts pages into the balloon of a guest of `size` pages, and lists those that were not in it yet. They go in together, and one by one
// only where one of them can't come in, or comes twice.
fn inflate(
    numbers: &[u32],
    size: u32,
    in_range: bool,
    balloon: &mut PageSet,
    inflated: &mut Vec<u32>,
)
    requires size { length balloon.old ≡ size }
    requires in_range { in_range ≡ true → All (λ number. number < size) numbers.now }
    requires room { length numbers.now ≤ vec_capacity inflated.old }
    ensures inflated { inflated.new.items ≡ inflated_by balloon.old numbers.now }
    ensures pages { All (λ page. page < length balloon.old) inflated.new.items }
    ensures balloon { balloon.new ≡ insert_all balloon.old inflated.new.items }
    ensures same_pages { length balloon.new ≡ length balloon.old }
    ensures no_more { vec_len inflated.new ≤ length numbers.now }
    ensures room { KeepsRoom inflated.old inflated.new }
{
    if inflate_all(numbers, in_range, balloon) {
        inflated.clear();
        append_within(inflated, numbers);
        return;
    }
    inflate_each(numbers, size, balloon, inflated);
}

// Puts pages into the balloon if they are known to be the guest's, none of them is in it and no two are the same, and says whether it
// did.
fn inflate_all(numbers: &[u32], in_range: bool, balloon: &mut PageSet) -> bool
    requires { in_range ≡ true → All (λ number. number < length balloon.old) numbers.now }
    ensures inflated { OnTrue result (inflated_by balloon.old numbers.now ≡ numbers.now) }
    ensures pages { OnTrue result (All (λ page. page < length balloon.old) numbers.now) }
    ensures put { OnTrue result (balloon.new ≡ insert_all balloon.old numbers.now) }
    ensures same { OnFalse result (balloon.new ≡ balloon.old) }
    ensures same_pages { length balloon.new ≡ length balloon.old }
{
    in_range && balloon.insert_all_if_new(numbers)
}

// Puts pages into the balloon one by one, and lists those that were not in it yet.
fn inflate_each(numbers: &[u32], size: u32, balloon: &mut PageSet, inflated: &mut Vec<u32>)
    requires size { length balloon.old ≡ size }
    requires room { length numbers.now ≤ vec_capacity inflated.old }
    ensures inflated { inflated.new.items ≡ inflated_by balloon.old numbers.now }
    ensures pages { All (λ page. page < length balloon.old) inflated.new.items }
    ensures balloon { balloon.new ≡ insert_all balloon.old inflated.new.items }
    ensures same_pages { length balloon.new ≡ length balloon.old }
    ensures no_more { vec_len inflated.new ≤ length numbers.now }
    ensures room { KeepsRoom inflated.old inflated.new }
{
    inflated.clear();
    for number in numbers {
        let page = *number;
        if inflate_page(size, balloon, page) {
            push_within(inflated, page);
        }
    }
}

// Takes pages of a guest of `size` pages out of the balloon and from those used early, and lists those that were there.
fn deflate(
    numbers: &[u32],
    size: u32,
    balloon: &mut PageSet,
    early: &mut PageSet,
    deflated: &mut Vec<u32>,
)
    requires room { length numbers.now ≤ vec_capacity deflated.old }
    requires size { length balloon.old ≡ size }
    requires same_pages { length early.old ≡ length balloon.old }
    ensures deflated { deflated.new.items ≡ deflated_by balloon.old early.old numbers.now }
    ensures pages { All (λ page. page < length balloon.old) deflated.new.items }
    ensures balloon { balloon.new ≡ remove_all balloon.old deflated.new.items }
    ensures early { early.new ≡ remove_all early.old deflated.new.items }
    ensures same_pages { (length balloon.new ≡ length balloon.old) × (length early.new ≡ length early.old) }
    ensures no_more { vec_len deflated.new ≤ length numbers.now }
    ensures room { KeepsRoom deflated.old deflated.new }
{
    deflated.clear();
    for number in numbers {
        let page = *number;
        if deflate_page(size, balloon, early, page) {
            push_within(deflated, page);
        }
    }
}

// Puts a page into the balloon, and says whether it could.
fn inflate_page(size: u32, balloon: &mut PageSet, page: u32) -> bool
    requires { length balloon.old ≡ size }
    ensures value { result ≡ can_inflate balloon.old page }
    ensures within { OnTrue result (page < length balloon.old) }
    ensures put { OnTrue result (balloon.new ≡ insert balloon.old page) }
    ensures same { OnFalse result (balloon.new ≡ balloon.old) }
{
    page < size && balloon.insert(page)
}

// Takes a page out of the balloon and from those used early, and says whether it was in one of the two.
fn deflate_page(size: u32, balloon: &mut PageSet, early: &mut PageSet, page: u32) -> bool
    requires size { length balloon.old ≡ size }
    requires same_pages { length early.old ≡ length balloon.old }
    ensures value { result ≡ can_deflate balloon.old early.old page }
    ensures within { OnTrue result (page < length balloon.old) }
    ensures taken { OnTrue result (balloon.new ≡ remove balloon.old page) }
    ensures taken_early { OnTrue result (early.new ≡ remove early.old page) }
    ensures same { OnFalse result (balloon.new ≡ balloon.old) }
    ensures same_early { OnFalse result (early.new ≡ early.old) }
{
    if page >= size {
        return false;
    }
    let was_ballooned = balloon.remove(page);
    let was_early = early.remove(page);
    was_ballooned || was_early
}

/// Empties a set by the list of what may be in it, in time for the list.
pub(crate) fn clear_listed(list: &mut Vec<u32>, pages: &mut PageSet)
    requires { AreListed pages.old list.old.items (length pages.old) }
    ensures pages { pages.new ≡ no_pages (length pages.old) }
    ensures list { list.new.items ≡ [] }
    ensures room { KeepsRoom list.old list.new }
{
    pages.remove_all(list);
    list.clear();
}

/// A push for which there is room, so that it takes no memory.
pub(crate) fn push_within<T: Drop>(items: &mut Vec<T>, item: T)
    requires room { vec_len items.old < vec_capacity items.old }
    ensures items { items.new.items ≡ items.old.items ++ item ∷ [] }
    ensures len { vec_len items.new ≡ vec_len items.old + 1 }
    ensures room { KeepsRoom items.old items.new }
{
    items.push_reserved(item);
}
