ghost use Rattle.std.specs.Prelude.{◌≡◌, ℕ, ◌+◌, ◌-◌, ◌*◌, ◌%◌, ◌^◌, ◌<◌, ◌≤◌, ◌↔◌, All, List, [], true, false, not, length, min, reverse, take, sum, slice_index, replicate, vec_capacity, count_ones, IfOk, IsTrue, OnErr};
ghost use Rattle.std.specs.Bool.{OnFalse, OnTrue};
ghost use Rattle.vm_pages.specs.Pages.{no_pages, all_pages, contains, insert, insert_all, remove, remove_all, count, count_below, members, neither, without};
ghost use Rattle.vm_pages.specs.Blocks.{AreCounted};
ghost use Rattle.vm_pages.specs.Extremes.{greatest_from, least_below};
ghost use Rattle.vm_pages.specs.Words.{marked};

use crate::words::{
    WORD_PAGES, is_marked, mark, mark_new_run, mark_run, marks_in, marks_outside, nth_bit, unmark,
    unmark_run, word_at, word_of,
};
use std::alloc::{AllocError, Global};
use std::marker::Model;

// The pages of a block, which has a count of its own.
const BLOCK_PAGES: usize = 2048;

// The words of a block.
const BLOCK_WORDS: usize = BLOCK_PAGES / WORD_PAGES;

/// A set of the pages of a guest, which finds its k-th page in rising order.
///
/// A contract sees it as a list of one flag for each page, and the words for such a list (`contains`, `insert`, `members`..)
/// stand in `specs/Pages.antt`. No call but [`PageSet::new`] and [`PageSet::all`] takes memory.
///
/// It keeps one bit for each page, 64 to a word, and one count for each block of 2048 pages. [`PageSet::new`] only reserves the
/// words: one of them is written when a page of it or of a greater word comes in. So an empty set costs nothing by its size but the
/// counts, and [`PageSet::clear`] takes time for these alone. [`PageSet::nth`] passes over the counts and then over the 32 words of
/// one block, [`PageSet::list_greatest`], [`PageSet::list_greatest_outside`] and [`PageSet::list_least`] pass over the counts and
/// over the words of those blocks whose pages they list, [`PageSet::insert_all`], [`PageSet::insert_all_if_new`] and
/// [`PageSet::remove_all`] take time for their list, and all other calls take constant time, but for the words that a page is the
/// first to reach.
#[derive(Drop)]
pub struct PageSet {
    // How many pages are in the set, in front, since mostly no more is looked at.
    len: u32,
    size: u32,
    // Up to the last one that was ever changed, in room for all.
    words: Vec<u64>,
    counts: Vec<u32>,
}

impl Model for PageSet {
    ghost use Rattle.std.specs.Prelude.{List, Bool, vec_capacity};
    ghost use Rattle.vm_pages.specs.Words.{marked, AreKept};

    ghost Value = { List Bool };

    ghost view = { λ s. marked s.words.items s.size };

    ghost invariant = { λ s. AreKept s.words.items (vec_capacity s.words) s.size s.counts.items s.len };
}

// So many times the same item. Memory is wanted only for some.
fn filled<T: Copy>(alloc: Global, count: usize, item: T) -> Result<Vec<T>, AllocError>
    ensures items { IfOk result (λ v. v.items ≡ replicate count item) }
    ensures room { IfOk result (λ v. count ≤ vec_capacity v) }
    ensures memory { OnErr result (0 < count) }
{
    let mut items = Vec::with_capacity(alloc, count)?;
    items.resize(count, item)?;
    Ok(items)
}

impl PageSet {
    /// The empty set of a guest of `size` pages.
    ///
    /// An error says that memory was refused, which is only where there are pages.
    pub fn new(alloc: Global, size: u32) -> Result<PageSet, AllocError>
        ensures set { IfOk result (λ s. s ≡ no_pages size) }
        ensures memory { OnErr result (0 < size) }
    {
        let pages = size as usize;
        let words = Vec::with_capacity(alloc, pages.div_ceil(WORD_PAGES))?;
        let counts = filled(alloc, pages.div_ceil(BLOCK_PAGES), 0)?;
        Ok(PageSet {
            len: 0,
            size,
            words,
            counts,
        })
    }

    /// The set of all pages of a guest of `size` pages.
    ///
    /// An error says that memory was refused, which is only where there are pages.
    pub fn all(alloc: Global, size: u32) -> Result<PageSet, AllocError>
        ensures set { IfOk result (λ s. s ≡ all_pages size) }
        ensures memory { OnErr result (0 < size) }
    {
        let pages = size as usize;
        let words = filled(alloc, pages.div_ceil(WORD_PAGES), u64::MAX)?;
        let mut counts = filled(alloc, pages.div_ceil(BLOCK_PAGES), BLOCK_PAGES as u32)?;
        if pages % BLOCK_PAGES != 0 {
            counts[pages / BLOCK_PAGES] = (pages % BLOCK_PAGES) as u32;
        }
        Ok(PageSet {
            len: size,
            size,
            words,
            counts,
        })
    }

    /// Takes all pages out, in time for the counts of the blocks.
    pub fn clear(&mut self)
        ensures { self.new ≡ no_pages (length self.old) }
    {
        self.words.clear();
        self.counts.fill(0);
        self.len = 0;
    }

    /// Adds a page, and says whether it wasn't there.
    pub fn insert(&mut self, page: u32) -> bool
        requires { page < length self.old }
        ensures added { result ≡ not (contains self.old page) }
        ensures after { self.new ≡ insert self.old page }
        ensures size { length self.new ≡ length self.old }
    {
        let page = page as usize;
        if is_marked(&self.words, page) {
            return false;
        }
        mark(&mut self.words, page);
        self.counts[page / BLOCK_PAGES] += 1;
        self.len += 1;
        true
    }

    /// Takes a page out, and says whether it was there.
    pub fn remove(&mut self, page: u32) -> bool
        requires { page < length self.old }
        ensures removed { result ≡ contains self.old page }
        ensures after { self.new ≡ remove self.old page }
        ensures size { length self.new ≡ length self.old }
    {
        let page = page as usize;
        if !is_marked(&self.words, page) {
            return false;
        }
        unmark(&mut self.words, page);
        self.counts[page / BLOCK_PAGES] -= 1;
        self.len -= 1;
        true
    }

    /// Adds pages, in time for their list. It is faster where the pages of a word stand behind one another.
    pub fn insert_all(&mut self, pages: &[u32])
        requires { All (λ page. page < length self.old) pages.now }
        ensures after { self.new ≡ insert_all self.old pages.now }
        ensures size { length self.new ≡ length self.old }
    {
        let mut done = 0;
        while done < pages.len() {
            done += self.insert_run(&pages[done..]);
        }
    }

    // Adds those pages that a list begins with and that are of one word, and says how many they are.
    fn insert_run(&mut self, pages: &[u32]) -> usize
        requires some { 0 < length pages.now }
        requires in_range { All (λ page. page < length self.old) pages.now }
        ensures further { 0 < result }
        ensures within { result ≤ length pages.now }
        ensures after { self.new ≡ insert_all self.old (take result pages.now) }
        ensures size { length self.new ≡ length self.old }
    {
        let block = pages[0] as usize / BLOCK_PAGES;
        let (run, gained) = mark_run(&mut self.words, pages);
        self.counts[block] += gained as u32;
        self.len += gained as u32;
        run
    }

    /// Adds pages, if none of them is in the set and no two of them are the same, and says whether it did. Else the set stays as it
    /// was.
    ///
    /// It passes once over the list. At a page that isn't new it stops, and passes once more over the pages before. It is faster
    /// where the pages of a word stand behind one another, and takes no memory.
    pub fn insert_all_if_new(&mut self, pages: &[u32]) -> bool
        requires { All (λ page. page < length self.old) pages.now }
        ensures all_new { IsTrue result ↔ (count (insert_all self.old pages.now) ≡ count self.old + length pages.now) }
        ensures added { OnTrue result (self.new ≡ insert_all self.old pages.now) }
        ensures same { OnFalse result (self.new ≡ self.old) }
        ensures size { length self.new ≡ length self.old }
    {
        let mut done = 0;
        while done < pages.len() {
            let run = self.insert_new_run(&pages[done..]);
            if run == 0 {
                self.remove_all(&pages[..done]);
                return false;
            }
            done += run;
        }
        true
    }

    // Adds those pages that a list begins with and that are of one word, if each of them is new, and says how many they are. Else it
    // adds none, and answers 0.
    fn insert_new_run(&mut self, pages: &[u32]) -> usize
        requires some { 0 < length pages.now }
        requires in_range { All (λ page. page < length self.old) pages.now }
        ensures within { result ≤ length pages.now }
        ensures after { self.new ≡ insert_all self.old (take result pages.now) }
        ensures gained { count self.new ≡ count self.old + result }
        ensures not_new { result ≡ 0 → count (insert_all self.old pages.now) < count self.old + length pages.now }
        ensures size { length self.new ≡ length self.old }
    {
        let block = pages[0] as usize / BLOCK_PAGES;
        let run = mark_new_run(&mut self.words, pages);
        self.counts[block] += run as u32;
        self.len += run as u32;
        run
    }

    /// Takes pages out, in time for their list. It is faster where the pages of a word stand behind one another.
    pub fn remove_all(&mut self, pages: &[u32])
        requires { All (λ page. page < length self.old) pages.now }
        ensures after { self.new ≡ remove_all self.old pages.now }
        ensures size { length self.new ≡ length self.old }
    {
        let mut done = 0;
        while done < pages.len() {
            done += self.remove_run(&pages[done..]);
        }
    }

    // Takes those pages out that a list begins with and that are of one word, and says how many they are.
    fn remove_run(&mut self, pages: &[u32]) -> usize
        requires some { 0 < length pages.now }
        requires in_range { All (λ page. page < length self.old) pages.now }
        ensures further { 0 < result }
        ensures within { result ≤ length pages.now }
        ensures after { self.new ≡ remove_all self.old (take result pages.now) }
        ensures size { length self.new ≡ length self.old }
    {
        let block = pages[0] as usize / BLOCK_PAGES;
        let (run, lost) = unmark_run(&mut self.words, pages);
        self.counts[block] -= lost as u32;
        self.len -= lost as u32;
        run
    }

    /// Whether a page is in the set.
    pub fn contains(&self, page: u32) -> bool
        requires { page < length self.now }
        ensures { result ≡ contains self.now page }
    {
        is_marked(&self.words, page as usize)
    }

    /// How many pages are in the set.
    pub fn len(&self) -> u32
        ensures { result ≡ count self.now }
    {
        self.len
    }

    /// Whether no page is in the set.
    pub fn is_empty(&self) -> bool
        ensures { IsTrue result ↔ (count self.now ≡ 0) }
    {
        self.len == 0
    }

    /// The k-th page of the set in rising order, counted from 0: the one below which `k` others of the set stand.
    pub fn nth(&self, k: u32) -> u32
        requires { k < count self.now }
        ensures listed { result ≡ slice_index (members self.now) k }
        ensures in_range { result < length self.now }
        ensures there { IsTrue (contains self.now result) }
    {
        let pages = self.size as usize;
        let (block, left) = block_of(&self.counts, k);
        let (word, left) = word_of(&self.words, pages, block * BLOCK_WORDS, left);
        page_in(&self.words, pages, word, left) as u32
    }

    /// Makes `pages` the list of the greatest pages of the set, at most `most` of them, greatest first, in the room that
    /// `pages` has. The pages of the set stay in it.
    ///
    /// It passes once over the counts of the blocks, from the last one down, and over the words of those blocks that have
    /// pages of the set, and stops at `most` pages.
    pub fn list_greatest(&self, most: u32, pages: &mut Vec<u32>)
        requires room { most ≤ vec_capacity pages.old }
        ensures listed { pages.new.items ≡ take most (reverse (members self.now)) }
        ensures in_range { All (λ page. page < length self.now) pages.new.items }
        ensures room { vec_capacity pages.new ≡ vec_capacity pages.old }
    {
        pages.clear();
        list_greatest_of(
            &self.counts,
            &self.words,
            self.size as usize,
            most as usize,
            pages,
        );
    }

    /// Makes `pages` the list of the greatest pages that are in neither of two sets, but for one that is left out if it is given;
    /// at most `most` of them, greatest first, in the room that `pages` has.
    ///
    /// It passes once over the counts of both sets' blocks, from the last one down, and over the words of those blocks that have
    /// such pages, and stops at `most` pages.
    pub fn list_greatest_outside(
        &self,
        other: &PageSet,
        except: Option<u32>,
        most: u32,
        pages: &mut Vec<u32>,
    )
        requires same { length other.now ≡ length self.now }
        requires apart { (page : ℕ) → contains other.now page ≡ true → contains self.now page ≡ false }
        requires room { most ≤ vec_capacity pages.old }
        ensures listed { pages.new.items ≡ take most (reverse (members (without (neither self.now other.now) except))) }
        ensures in_range { All (λ page. page < length self.now) pages.new.items }
        ensures room { vec_capacity pages.new ≡ vec_capacity pages.old }
    {
        pages.clear();
        list_outside_of(
            &self.counts,
            &self.words,
            &other.counts,
            &other.words,
            except,
            self.size as usize,
            most as usize,
            pages,
        );
    }

    /// Makes `pages` the list of the least pages of the set, at most `most` of them, least first, in the room that `pages` has.
    /// The pages of the set stay in it.
    ///
    /// It passes once over the counts of the blocks, from the first one up, and over the words of those blocks that have pages
    /// of the set, and stops at `most` pages.
    pub fn list_least(&self, most: u32, pages: &mut Vec<u32>)
        requires room { most ≤ vec_capacity pages.old }
        ensures listed { pages.new.items ≡ take most (members self.now) }
        ensures in_range { All (λ page. page < length self.now) pages.new.items }
        ensures room { vec_capacity pages.new ≡ vec_capacity pages.old }
    {
        pages.clear();
        list_least_of(
            &self.counts,
            &self.words,
            self.size as usize,
            most as usize,
            pages,
        );
    }
}

// The block that has the k-th page, and how many pages of the set stand before that page in the block.
fn block_of(counts: &[u32], k: u32) -> (usize, u32)
    requires { k < sum counts.now }
    ensures in_range { result.0 < length counts.now }
    ensures before { sum (take result.0 counts.now) + result.1 ≡ k }
    ensures within { result.1 < slice_index counts.now result.0 }
{
    let mut left = k;
    for (block, &count) in counts.iter().enumerate() {
        if left < count {
            return (block, left);
        }
        left -= count;
    }
    unreachable!()
}

// The page that a word marks after `k` others.
fn page_in(words: &[u64], pages: usize, word: usize, k: u32) -> usize
    requires begins { word * 64 < pages }
    requires there { count_below (marked words.now pages) (word * 64) + k < count (marked words.now pages) }
    requires within { k < count_ones (slice_index words.now word) }
    ensures in_range { result < pages }
    ensures there { IsTrue (contains (marked words.now pages) result) }
    ensures listed { result ≡ slice_index (members (marked words.now pages)) (count_below (marked words.now pages) (word * 64) + k) }
{
    word * WORD_PAGES + nth_bit(word_at(words, word), k) as usize
}

// Lists the greatest pages, block by block from the last one down.
fn list_greatest_of(counts: &[u32], words: &[u64], pages: usize, most: usize, list: &mut Vec<u32>)
    requires counted { AreCounted (marked words.now pages) counts.now (count (marked words.now pages)) }
    requires empty { list.old.items ≡ [] }
    requires room { most ≤ vec_capacity list.old }
    ensures listed { list.new.items ≡ take most (reverse (members (marked words.now pages))) }
    ensures room { vec_capacity list.new ≡ vec_capacity list.old }
{
    for block in (0..counts.len()).rev() {
        if list.len() >= most {
            return;
        }
        if counts[block] > 0 {
            list_block_down(words, pages, block, most, list);
        }
    }
}

// Adds the pages of a block to a list of the greatest ones, until it has `most`.
fn list_block_down(words: &[u64], pages: usize, block: usize, most: usize, list: &mut Vec<u32>)
    requires fits { pages < 2 ^ 32 }
    requires within { block * 2048 < pages }
    requires before { list.old.items ≡ greatest_from (marked words.now pages) ((block + 1) * 2048) most }
    requires room { most ≤ vec_capacity list.old }
    ensures after { list.new.items ≡ greatest_from (marked words.now pages) (block * 2048) most }
    ensures room { vec_capacity list.new ≡ vec_capacity list.old }
{
    let start = block * BLOCK_WORDS;
    let end = pages.div_ceil(WORD_PAGES).min(start + BLOCK_WORDS);
    for word in (start..end).rev() {
        if list.len() >= most {
            return;
        }
        list_marks_down(marks_in(words, pages, word), word, most, list);
    }
}

// Adds the pages that a word marks to a list of the greatest ones, until it has `most`.
fn list_marks_down(marks: u64, word: usize, most: usize, list: &mut Vec<u32>)
    requires fits { word * 64 + 64 ≤ 2 ^ 32 }
    requires room { most ≤ vec_capacity list.old }
    ensures after { (words : List ℕ) (pages : ℕ) → word * 64 < pages
        → marks ≡ slice_index words word % 2 ^ min 64 (pages - word * 64)
        → list.old.items ≡ greatest_from (marked words pages) ((word + 1) * 64) most
        → list.new.items ≡ greatest_from (marked words pages) (word * 64) most }
    ensures room { vec_capacity list.new ≡ vec_capacity list.old }
{
    let start = word * WORD_PAGES;
    let mut lower = marks;
    while lower > 0 {
        if list.len() >= most {
            return;
        }
        let bit = 63 - lower.leading_zeros();
        list.push_reserved(start as u32 + bit);
        lower -= 1 << bit;
    }
}

// Lists the greatest pages that are in neither of two sets, block by block from the last one down.
fn list_outside_of(
    counts: &[u32],
    words: &[u64],
    other_counts: &[u32],
    others: &[u64],
    except: Option<u32>,
    pages: usize,
    most: usize,
    list: &mut Vec<u32>,
)
    requires counted { AreCounted (marked words.now pages) counts.now (count (marked words.now pages)) }
    requires others_counted { AreCounted (marked others.now pages) other_counts.now (count (marked others.now pages)) }
    requires apart { (page : ℕ) → contains (marked others.now pages) page ≡ true → contains (marked words.now pages) page ≡ false }
    requires empty { list.old.items ≡ [] }
    requires room { most ≤ vec_capacity list.old }
    ensures listed { list.new.items ≡ take most (reverse (members (without (neither (marked words.now pages) (marked others.now pages)) except))) }
    ensures room { vec_capacity list.new ≡ vec_capacity list.old }
{
    for block in (0..pages.div_ceil(BLOCK_PAGES)).rev() {
        if list.len() >= most {
            return;
        }
        let all = (pages - block * BLOCK_PAGES).min(BLOCK_PAGES) as u32;
        if counts[block] + other_counts[block] < all {
            list_block_outside(words, others, except, pages, block, most, list);
        }
    }
}

// Adds the pages of a block that are in neither of two sets to a list of the greatest ones, until it has `most`.
fn list_block_outside(
    words: &[u64],
    others: &[u64],
    except: Option<u32>,
    pages: usize,
    block: usize,
    most: usize,
    list: &mut Vec<u32>,
)
    requires fits { pages < 2 ^ 32 }
    requires within { block * 2048 < pages }
    requires before { list.old.items ≡ greatest_from (without (neither (marked words.now pages) (marked others.now pages)) except) ((block + 1) * 2048) most }
    requires room { most ≤ vec_capacity list.old }
    ensures after { list.new.items ≡ greatest_from (without (neither (marked words.now pages) (marked others.now pages)) except) (block * 2048) most }
    ensures room { vec_capacity list.new ≡ vec_capacity list.old }
{
    let start = block * BLOCK_WORDS;
    let end = pages.div_ceil(WORD_PAGES).min(start + BLOCK_WORDS);
    for word in (start..end).rev() {
        if list.len() >= most {
            return;
        }
        let marks = marks_outside(words, others, except, pages, word);
        list_marks_down(marks, word, most, list);
    }
}

// Lists the least pages, block by block from the first one up.
fn list_least_of(counts: &[u32], words: &[u64], pages: usize, most: usize, list: &mut Vec<u32>)
    requires counted { AreCounted (marked words.now pages) counts.now (count (marked words.now pages)) }
    requires empty { list.old.items ≡ [] }
    requires room { most ≤ vec_capacity list.old }
    ensures listed { list.new.items ≡ take most (members (marked words.now pages)) }
    ensures room { vec_capacity list.new ≡ vec_capacity list.old }
{
    for (block, &count) in counts.iter().enumerate() {
        if list.len() >= most {
            return;
        }
        if count > 0 {
            list_block_up(words, pages, block, most, list);
        }
    }
}

// Adds the pages of a block to a list of the least ones, until it has `most`.
fn list_block_up(words: &[u64], pages: usize, block: usize, most: usize, list: &mut Vec<u32>)
    requires fits { pages < 2 ^ 32 }
    requires within { block * 2048 < pages }
    requires before { list.old.items ≡ least_below (marked words.now pages) (block * 2048) most }
    requires room { most ≤ vec_capacity list.old }
    ensures after { list.new.items ≡ least_below (marked words.now pages) ((block + 1) * 2048) most }
    ensures room { vec_capacity list.new ≡ vec_capacity list.old }
{
    let start = block * BLOCK_WORDS;
    let end = pages.div_ceil(WORD_PAGES).min(start + BLOCK_WORDS);
    for word in start..end {
        if list.len() >= most {
            return;
        }
        list_word_up(words, pages, word, most, list);
    }
}

// Adds the pages of a word to a list of the least ones, until it has `most`.
fn list_word_up(words: &[u64], pages: usize, word: usize, most: usize, list: &mut Vec<u32>)
    requires fits { pages < 2 ^ 32 }
    requires begins { word * 64 < pages }
    requires before { list.old.items ≡ least_below (marked words.now pages) (word * 64) most }
    requires room { most ≤ vec_capacity list.old }
    ensures after { list.new.items ≡ least_below (marked words.now pages) ((word + 1) * 64) most }
    ensures room { vec_capacity list.new ≡ vec_capacity list.old }
{
    let start = word * WORD_PAGES;
    let mut upper = marks_in(words, pages, word);
    while upper > 0 {
        if list.len() >= most {
            return;
        }
        let bit = upper.trailing_zeros();
        list.push_reserved(start as u32 + bit);
        upper -= 1 << bit;
    }
}
