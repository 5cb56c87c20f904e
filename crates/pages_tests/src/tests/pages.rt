// Sets of pages.
ghost use Rattle.std.specs.Prelude.{◌≡◌, ◌<◌, ℕ, All, true, false, length};
ghost use Rattle.vm_pages.specs.Pages.{contains, no_pages};

use super::{check, check_eq};
use std::alloc::Global;
use std::process::Abort;
use vm_pages::{PageMarks, PageSet};

// Asserts which pages a set has, least first.
fn check_pages(rt: &impl Abort, set: &PageSet, pages: &[u32]) {
    check_eq(rt, set.len() as usize, pages.len());
    for place in 0..set.len() {
        let wanted = pages.get(place as usize).copied();
        check_eq(rt, Some(set.nth(place)), wanted);
    }
}

// Asserts which the greatest pages of a set are. What a list had before has to go.
fn check_greatest(rt: &impl Abort, alloc: Global, set: &PageSet, most: u32, want: &[u32]) {
    let mut pages = Vec::with_capacity(alloc, most as usize).expect(rt, "memory");
    set.list_least(most, &mut pages);
    set.list_greatest(most, &mut pages);
    check_eq(rt, pages.as_slice(), want);
}

// Asserts which the least pages of a set are. What a list had before has to go.
fn check_least(rt: &impl Abort, alloc: Global, set: &PageSet, most: u32, want: &[u32]) {
    let mut pages = Vec::with_capacity(alloc, most as usize).expect(rt, "memory");
    set.list_greatest(most, &mut pages);
    set.list_least(most, &mut pages);
    check_eq(rt, pages.as_slice(), want);
}

// Adds pages, and asserts that each of them is new.
fn check_inserts(rt: &impl Abort, set: &mut PageSet, size: u32, pages: &[u32])
    requires { length set.old ≡ size }
    ensures { length set.new ≡ size }
{
    for &page in pages {
        check(rt, page < size);
        check_eq(rt, set.insert(page), true);
    }
}

// Takes pages out, and asserts that each of them was there.
fn check_removes(rt: &impl Abort, set: &mut PageSet, size: u32, pages: &[u32])
    requires { length set.old ≡ size }
    ensures { length set.new ≡ size }
{
    for &page in pages {
        check(rt, page < size);
        check_eq(rt, set.remove(page), true);
    }
}

// Asserts which page stands at a place.
fn check_nth(rt: &impl Abort, set: &PageSet, place: u32, page: u32) {
    check(rt, place < set.len());
    check_eq(rt, set.nth(place), page);
}

// A set of no pages, of so many that there may be.
fn no_pages(rt: &impl Abort, alloc: Global, size: u32) -> PageSet
    ensures size { length result ≡ size }
    ensures none { result ≡ no_pages size }
{
    PageSet::new(alloc, size).expect(rt, "memory")
}

// A set of all of so many pages.
fn all_pages(rt: &impl Abort, alloc: Global, size: u32) -> PageSet
    ensures { length result ≡ size }
{
    PageSet::all(alloc, size).expect(rt, "memory")
}

// Ends a set. It stands here once, since a function that owns one is proved to free its parts where it ends.
fn end(_set: PageSet) {}

#[test]
fn pages_are_listed_in_order(rt: HostRuntime) {
    let mut set = no_pages(&rt, rt.alloc(), 600);
    check_eq(&rt, set.is_empty(), true);
    check_inserts(&rt, &mut set, 600, &[599, 0, 256, 255]);
    check_pages(&rt, &set, &[0, 255, 256, 599]);
    check_eq(&rt, set.insert(0), false);
    check_removes(&rt, &mut set, 600, &[255]);
    check_eq(&rt, set.contains(256), true);
    check_pages(&rt, &set, &[0, 256, 599]);
    end(set);
}

#[test]
fn extremes_are_listed_over_blocks(rt: HostRuntime) {
    let alloc = rt.alloc();
    let mut set = no_pages(&rt, alloc, 600);
    check_inserts(&rt, &mut set, 600, &[256, 0, 599, 255]);
    check_greatest(&rt, alloc, &set, 3, &[599, 256, 255]);
    check_least(&rt, alloc, &set, 2, &[0, 255]);
    check_greatest(&rt, alloc, &set, 8, &[599, 256, 255, 0]);
    check_least(&rt, alloc, &set, 8, &[0, 255, 256, 599]);
    check_greatest(&rt, alloc, &set, 0, &[]);
    end(set);
}

#[test]
fn all_pages_are_there(rt: HostRuntime) {
    let alloc = rt.alloc();
    let mut set = all_pages(&rt, alloc, 600);
    check_eq(&rt, set.len(), 600);
    check_eq(&rt, set.insert(599), false);
    check_removes(&rt, &mut set, 600, &[598, 256]);
    check_eq(&rt, set.len(), 598);
    check_greatest(&rt, alloc, &set, 3, &[599, 597, 596]);
    check_least(&rt, alloc, &set, 3, &[0, 1, 2]);
    end(set);
}

#[test]
fn pages_are_found_over_words_and_blocks(rt: HostRuntime) {
    let alloc = rt.alloc();
    let mut set = no_pages(&rt, alloc, 2200);
    check_inserts(&rt, &mut set, 2200, &[2048, 2199, 63, 2047, 64]);
    check_pages(&rt, &set, &[63, 64, 2047, 2048, 2199]);
    check_greatest(&rt, alloc, &set, 4, &[2199, 2048, 2047, 64]);
    check_least(&rt, alloc, &set, 4, &[63, 64, 2047, 2048]);
    check_greatest(&rt, alloc, &set, 8, &[2199, 2048, 2047, 64, 63]);
    check_least(&rt, alloc, &set, 8, &[63, 64, 2047, 2048, 2199]);
    check_removes(&rt, &mut set, 2200, &[2047]);
    check_pages(&rt, &set, &[63, 64, 2048, 2199]);
    check_removes(&rt, &mut set, 2200, &[64, 2199]);
    check_greatest(&rt, alloc, &set, 8, &[2048, 63]);
    check_least(&rt, alloc, &set, 1, &[63]);
    end(set);
}

#[test]
fn pages_are_found_within_words(rt: HostRuntime) {
    let alloc = rt.alloc();
    let mut set = all_pages(&rt, alloc, 130);
    for place in 0..130 {
        check_nth(&rt, &set, place, place);
    }
    check_greatest(&rt, alloc, &set, 4, &[129, 128, 127, 126]);
    check_removes(&rt, &mut set, 130, &[0, 64, 127]);
    for (place, page) in [(0, 1), (62, 63), (63, 65), (124, 126), (125, 128)] {
        check_nth(&rt, &set, place, page);
    }
    check_greatest(&rt, alloc, &set, 4, &[129, 128, 126, 125]);
    check_least(&rt, alloc, &set, 2, &[1, 2]);
    end(set);
}

// Asserts which the greatest pages of a set of all of so many pages are.
fn check_last(rt: &impl Abort, alloc: Global, size: u32, most: u32, greatest: &[u32]) {
    let set = all_pages(rt, alloc, size);
    check_eq(rt, set.len(), size);
    check_greatest(rt, alloc, &set, most, greatest);
    for &page in greatest {
        check_nth(rt, &set, page, page);
    }
    end(set);
}

#[test]
fn sets_end_at_words_and_blocks(rt: HostRuntime) {
    let alloc = rt.alloc();
    check_last(&rt, alloc, 64, 2, &[63, 62]);
    check_last(&rt, alloc, 65, 3, &[64, 63, 62]);
    check_last(&rt, alloc, 2048, 2, &[2047, 2046]);
    check_last(&rt, alloc, 2049, 2, &[2048, 2047]);
}

// The same pages, each of which is one of so many.
fn pages_below(rt: &impl Abort, alloc: Global, size: u32, pages: &[u32]) -> Vec<u32>
    ensures { All (λ page. page < size) result.items }
{
    let mut below = Vec::new(alloc);
    for &page in pages {
        check(rt, page < size);
        below.push(page).expect(rt, "memory");
    }
    below
}

// Takes pages out of a set at once.
fn remove_all(rt: &impl Abort, alloc: Global, set: &mut PageSet, size: u32, pages: &[u32])
    requires { length set.old ≡ size }
    ensures { length set.new ≡ size }
{
    let below = pages_below(rt, alloc, size, pages);
    set.remove_all(&below);
}

// Adds pages to a set if all are new, and tells whether they were.
fn insert_if_new(
    rt: &impl Abort,
    alloc: Global,
    set: &mut PageSet,
    size: u32,
    pages: &[u32],
) -> bool
    requires { length set.old ≡ size }
    ensures { length set.new ≡ size }
{
    let below = pages_below(rt, alloc, size, pages);
    set.insert_all_if_new(&below)
}

// Pages of one word and of others come together; where one is there already, or comes twice, none does.
#[test]
fn new_pages_come_together(rt: HostRuntime) {
    let alloc = rt.alloc();
    let mut set = no_pages(&rt, alloc, 5000);
    check_eq(&rt, insert_if_new(&rt, alloc, &mut set, 5000, &[]), true);
    let pages = [4999, 64, 65, 127, 63];
    check_eq(&rt, insert_if_new(&rt, alloc, &mut set, 5000, &pages), true);
    check_pages(&rt, &set, &[63, 64, 65, 127, 4999]);
    let there = [0, 1, 2048, 65];
    check_eq(
        &rt,
        insert_if_new(&rt, alloc, &mut set, 5000, &there),
        false,
    );
    check_pages(&rt, &set, &[63, 64, 65, 127, 4999]);
    let twice = [2048, 3, 2048, 4];
    check_eq(
        &rt,
        insert_if_new(&rt, alloc, &mut set, 5000, &twice),
        false,
    );
    check_pages(&rt, &set, &[63, 64, 65, 127, 4999]);
    end(set);
}

#[test]
fn listed_pages_leave_a_set(rt: HostRuntime) {
    let alloc = rt.alloc();
    let mut set = no_pages(&rt, alloc, 5000);
    check_inserts(&rt, &mut set, 5000, &[0, 63, 64, 65, 127, 2047, 2048, 4999]);
    remove_all(&rt, alloc, &mut set, 5000, &[]);
    check_eq(&rt, set.len(), 8);
    // In one word and beyond it, over blocks, one twice and one that isn't there.
    let listed = [64, 65, 64, 66, 63, 2047, 2048];
    remove_all(&rt, alloc, &mut set, 5000, &listed);
    check_pages(&rt, &set, &[0, 127, 4999]);
    remove_all(&rt, alloc, &mut set, 5000, &[4999, 0, 127]);
    check_pages(&rt, &set, &[]);
    end(set);
}

#[test]
fn cleared_sets_are_empty(rt: HostRuntime) {
    let alloc = rt.alloc();
    let mut set = no_pages(&rt, alloc, 5000);
    check_inserts(&rt, &mut set, 5000, &[0, 63, 2048, 4999]);
    set.clear();
    check_pages(&rt, &set, &[]);
    check_greatest(&rt, alloc, &set, 3, &[]);
    check_eq(&rt, set.contains(63), false);
    check_eq(&rt, set.remove(4999), false);
    check_inserts(&rt, &mut set, 5000, &[2049, 64]);
    check_pages(&rt, &set, &[64, 2049]);
    end(set);
}

// Asserts which of these pages, of 130, are marked.
fn check_marks(rt: &impl Abort, marks: &PageMarks, pages: &[(u32, bool)])
    requires { length marks.now ≡ 130 }
{
    for &(page, marked) in pages {
        check(rt, page < 130);
        check_eq(rt, (page, marks.contains(page)), (page, marked));
    }
}

#[test]
fn pages_are_marked(rt: HostRuntime) {
    let mut marks = PageMarks::new(rt.alloc(), 130).expect(&rt, "memory");
    marks.insert(63);
    marks.insert(64);
    marks.insert(129);
    marks.insert(64);
    let inserted = [(63, true), (64, true), (62, false), (129, true)];
    check_marks(&rt, &marks, &inserted);
    marks.remove(64);
    marks.remove(0);
    check_marks(&rt, &marks, &[(63, true), (64, false), (129, true)]);
}

#[test]
fn cleared_marks_are_none(rt: HostRuntime) {
    let mut marks = PageMarks::new(rt.alloc(), 130).expect(&rt, "memory");
    marks.insert(129);
    marks.insert(3);
    marks.clear();
    check_marks(&rt, &marks, &[(129, false), (3, false)]);
    marks.remove(129);
    marks.insert(64);
    check_marks(&rt, &marks, &[(129, false), (64, true)]);
}

// The next number of a linear congruential generator. Its upper bits are the better ones.
fn next_number(number: u32) -> u32 {
    number.wrapping_mul(69069).wrapping_add(1)
}

// Adds about one of `gap` pages to a set, and to a list of its pages.
fn add_pages(rt: &impl Abort, set: &mut PageSet, size: u32, gap: u32, pages: &mut Vec<u32>)
    requires size { length set.old ≡ size }
    requires gap { 0 < gap }
    ensures { length set.new ≡ size }
{
    let mut number = gap;
    for page in 0..size {
        number = next_number(number);
        if (number >> 16) % gap == 0 {
            set.insert(page);
            pages.push(page).expect(rt, "memory");
        }
    }
}

// Draws pages, and with each of them one before it in its word.
fn draw_pages(rt: &impl Abort, alloc: Global, size: u32, count: u32) -> Vec<u32>
    requires { 0 < size }
{
    let mut pages = Vec::new(alloc);
    let mut number = count;
    for _ in 0..count {
        number = next_number(number);
        let page = (number >> 16) % size;
        pages.push(page).expect(rt, "memory");
        pages.push(page - page % 8).expect(rt, "memory");
    }
    pages
}

// Asserts which the greatest and the least pages of a set are, of which these are all, least first.
fn check_ends(rt: &impl Abort, alloc: Global, set: &PageSet, pages: &[u32], most: u32) {
    let mut listed = Vec::with_capacity(alloc, most as usize).expect(rt, "memory");
    let count = pages.len().min(most as usize);
    set.list_least(most, &mut listed);
    check_eq(rt, listed.as_slice(), &pages[..count]);
    set.list_greatest(most, &mut listed);
    listed.reverse();
    check_eq(rt, listed.as_slice(), &pages[pages.len() - count..]);
}

// Asserts that these are all pages of a set, least first, by each call that finds or lists some.
fn check_listings(rt: &impl Abort, alloc: Global, set: &PageSet, pages: &[u32]) {
    check_pages(rt, set, pages);
    check_ends(rt, alloc, set, pages, 0);
    check_ends(rt, alloc, set, pages, 1);
    check_ends(rt, alloc, set, pages, 65);
    check_ends(rt, alloc, set, pages, 2048);
    check_ends(rt, alloc, set, pages, 5000);
}

// Takes drawn pages out of a set at once, and out of a list of its pages one by one.
fn check_removal(rt: &impl Abort, alloc: Global, set: &mut PageSet, size: u32, pages: &mut Vec<u32>)
    requires some { 0 < size }
    requires size { length set.old ≡ size }
{
    let drawn = draw_pages(rt, alloc, size, size / 4);
    remove_all(rt, alloc, set, size, &drawn);
    pages.retain(|page| !drawn.contains(page));
    check_listings(rt, alloc, set, pages);
}

// Asserts what a set of about one of `gap` pages tells, before and after pages leave it.
fn check_made_set(rt: &impl Abort, alloc: Global, size: u32, gap: u32)
    requires some { 0 < size }
    requires gap { 0 < gap }
{
    let mut set = no_pages(rt, alloc, size);
    let mut pages = Vec::new(alloc);
    add_pages(rt, &mut set, size, gap, &mut pages);
    check_listings(rt, alloc, &set, &pages);
    check_removal(rt, alloc, &mut set, size, &mut pages);
}

// The same of sets of all, of many and of few pages.
fn check_made_sets(rt: &impl Abort, alloc: Global, size: u32)
    requires { 0 < size }
{
    check_made_set(rt, alloc, size, 1);
    check_made_set(rt, alloc, size, 3);
    check_made_set(rt, alloc, size, 50);
}

#[test]
fn made_sets_are_found_and_listed_like_lists(rt: HostRuntime) {
    check_made_sets(&rt, rt.alloc(), 63);
    check_made_sets(&rt, rt.alloc(), 64);
    check_made_sets(&rt, rt.alloc(), 65);
    check_made_sets(&rt, rt.alloc(), 2047);
    check_made_sets(&rt, rt.alloc(), 2048);
    check_made_sets(&rt, rt.alloc(), 2049);
    check_made_sets(&rt, rt.alloc(), 4096);
}

// Asserts that marks, a set that changed by lists, and one that changed page by page are the same.
fn check_alike(rt: &impl Abort, marks: &PageMarks, set: &PageSet, other: &PageSet, size: u32)
    requires marks { length marks.now ≡ size }
    requires set { length set.now ≡ size }
    requires other { length other.now ≡ size }
{
    check_eq(rt, set.len(), other.len());
    for page in 0..size {
        let wanted = other.contains(page);
        check_eq(
            rt,
            (page, marks.contains(page), set.contains(page)),
            (page, wanted, wanted),
        );
    }
}

// Adds pages to a set one by one.
fn insert_each(set: &mut PageSet, size: u32, pages: &[u32])
    requires in_range { All (λ page. page < size) pages.now }
    requires size { length set.old ≡ size }
    ensures { length set.new ≡ size }
{
    for &page in pages {
        set.insert(page);
    }
}

// Takes pages out of a set one by one.
fn remove_each(set: &mut PageSet, size: u32, pages: &[u32])
    requires in_range { All (λ page. page < size) pages.now }
    requires size { length set.old ≡ size }
    ensures { length set.new ≡ size }
{
    for &page in pages {
        set.remove(page);
    }
}

// Marks on no pages, of so many that there may be.
fn no_marks(rt: &impl Abort, alloc: Global, size: u32) -> PageMarks
    ensures { length result ≡ size }
{
    PageMarks::new(alloc, size).expect(rt, "memory")
}

// Lets drawn pages come into marks and sets and leave them, by lists and one by one.
fn check_runs(rt: &impl Abort, alloc: Global, size: u32)
    requires { 0 < size }
{
    let mut marks = no_marks(rt, alloc, size);
    let mut set = no_pages(rt, alloc, size);
    let mut other = no_pages(rt, alloc, size);
    let come = pages_below(rt, alloc, size, &draw_pages(rt, alloc, size, size / 4));
    marks.insert_all(&come);
    set.insert_all(&come);
    insert_each(&mut other, size, &come);
    check_alike(rt, &marks, &set, &other, size);
    let go = pages_below(rt, alloc, size, &draw_pages(rt, alloc, size, size / 8));
    marks.remove_all(&go);
    set.remove_all(&go);
    remove_each(&mut other, size, &go);
    check_alike(rt, &marks, &set, &other, size);
}

#[test]
fn lists_of_pages_come_and_go(rt: HostRuntime) {
    check_runs(&rt, rt.alloc(), 64);
    check_runs(&rt, rt.alloc(), 130);
    check_runs(&rt, rt.alloc(), 4100);
}

// A set of no pages, and so of none that another set has.
fn apart_from(rt: &impl Abort, alloc: Global, set: &PageSet, size: u32) -> PageSet
    ensures size { length result ≡ size }
    ensures apart { (page : ℕ) → contains result page ≡ true → contains set.now page ≡ false }
{
    no_pages(rt, alloc, size)
}

// Adds a page to a set, if another one doesn't have it.
fn add_other(others: &mut PageSet, set: &PageSet, size: u32, page: u32)
    requires in_range { page < size }
    requires size { length set.now ≡ size }
    requires others_size { length others.old ≡ size }
    requires apart { (page : ℕ) → contains others.old page ≡ true → contains set.now page ≡ false }
    ensures size { length others.new ≡ size }
    ensures apart { (page : ℕ) → contains others.new page ≡ true → contains set.now page ≡ false }
{
    if !set.contains(page) {
        others.insert(page);
    }
}

// A set of about one of `gap` pages, of those that another set doesn't have.
fn others_of(rt: &impl Abort, alloc: Global, set: &PageSet, size: u32, gap: u32) -> PageSet
    requires size { length set.now ≡ size }
    requires gap { 0 < gap }
    ensures size { length result ≡ size }
    ensures apart { (page : ℕ) → contains result page ≡ true → contains set.now page ≡ false }
{
    let mut others = apart_from(rt, alloc, set, size);
    let mut number = gap;
    for page in 0..size {
        number = next_number(number);
        if (number >> 20) % gap == 0 {
            add_other(&mut others, set, size, page);
        }
    }
    others
}

// The greatest pages that are in neither of two sets but one, by a look at each page.
fn outside_of(
    rt: &impl Abort,
    alloc: Global,
    set: &PageSet,
    others: &PageSet,
    size: u32,
    except: Option<u32>,
) -> Vec<u32>
    requires set { length set.now ≡ size }
    requires others { length others.now ≡ size }
{
    let mut pages = Vec::new(alloc);
    for page in (0..size).rev() {
        if !set.contains(page) && !others.contains(page) && except != Some(page) {
            pages.push(page).expect(rt, "memory");
        }
    }
    pages
}

// Asserts which pages are listed that are in neither of two sets, but one.
fn check_outside(
    rt: &impl Abort,
    alloc: Global,
    set: &PageSet,
    others: &PageSet,
    size: u32,
    except: Option<u32>,
    most: u32,
)
    requires set { length set.now ≡ size }
    requires others { length others.now ≡ size }
    requires apart { (page : ℕ) → contains others.now page ≡ true → contains set.now page ≡ false }
{
    let wanted = outside_of(rt, alloc, set, others, size, except);
    let mut listed = Vec::with_capacity(alloc, most as usize).expect(rt, "memory");
    set.list_greatest_outside(others, except, most, &mut listed);
    check_eq(
        rt,
        listed.as_slice(),
        &wanted[..wanted.len().min(most as usize)],
    );
}

// The same of a set of about one of `gap` pages, and another one of those that it doesn't have.
fn check_outside_made(rt: &impl Abort, alloc: Global, size: u32, gap: u32, other_gap: u32)
    requires gap { 0 < gap }
    requires other_gap { 0 < other_gap }
{
    let mut set = no_pages(rt, alloc, size);
    let mut pages = Vec::new(alloc);
    add_pages(rt, &mut set, size, gap, &mut pages);
    let others = others_of(rt, alloc, &set, size, other_gap);
    check_outside(rt, alloc, &set, &others, size, None, 5000);
    check_outside(rt, alloc, &set, &others, size, Some(size / 2), 5000);
    check_outside(rt, alloc, &set, &others, size, Some(size), 70);
    check_outside(rt, alloc, &set, &others, size, Some(0), 1);
}

#[test]
fn pages_outside_two_sets_are_listed(rt: HostRuntime) {
    check_outside_made(&rt, rt.alloc(), 63, 3, 2);
    check_outside_made(&rt, rt.alloc(), 2048, 50, 1);
    check_outside_made(&rt, rt.alloc(), 2049, 1, 1);
    check_outside_made(&rt, rt.alloc(), 4200, 3, 3);
    check_outside_made(&rt, rt.alloc(), 4200, 50, 50);
}
