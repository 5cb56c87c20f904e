// Pages that are marked by a bit each, 64 to a word. The words end with the greatest one that was ever changed, and no page past them
// is marked.
ghost use Rattle.std.specs.Prelude.{◌≡◌, ℕ, ◌+◌, ◌-◌, ◌*◌, ◌/◌, ◌%◌, ◌^◌, ◌<◌, ◌≤◌, ◌++◌, All, length, min, take, replicate, slice_index, vec_capacity, vec_len, count_ones};
ghost use Rattle.std.specs.Int.{bit_at};
ghost use Rattle.vm_pages.specs.Pages.{insert, insert_all, remove, remove_all, count, count_below};
ghost use Rattle.vm_pages.specs.Words.{but_page, is_marked, marked, outside_word};
ghost use Rattle.vm_pages.specs.Runs.{bits_gained, bits_lost, with_bits, without_bits};

pub(crate) const WORD_PAGES: usize = 64;

// A word of marks, which has none past the end.
pub(crate) fn word_at(words: &[u64], word: usize) -> u64
    ensures { result ≡ slice_index words.now word }
{
    match words.get(word) {
        Some(&marks) => marks,
        None => 0,
    }
}

// Whether a page is marked.
pub(crate) fn is_marked(words: &[u64], page: usize) -> bool
    ensures { result ≡ is_marked words.now page }
{
    word_at(words, page / WORD_PAGES) >> (page % WORD_PAGES) & 1 == 1
}

// Lets the words reach one of them, in the room that was reserved.
fn reach(words: &mut Vec<u64>, word: usize)
    requires { word < vec_capacity words.old }
    ensures words { words.new.items ≡ words.old.items ++ replicate (word + 1 - vec_len words.old) 0 }
    ensures room { vec_capacity words.old ≤ vec_capacity words.new }
{
    if words.len() <= word {
        grow(words, word);
    }
}

// The same where they don't, which is seldom. It stands apart from the calls that come often.
#[cold]
#[inline(never)]
fn grow(words: &mut Vec<u64>, word: usize)
    requires room { word < vec_capacity words.old }
    requires past { vec_len words.old ≤ word }
    ensures words { words.new.items ≡ words.old.items ++ replicate (word + 1 - vec_len words.old) 0 }
    ensures room { vec_capacity words.old ≤ vec_capacity words.new }
{
    words.resize(word + 1, 0).unwrap();
}

// Marks a page.
pub(crate) fn mark(words: &mut Vec<u64>, page: usize)
    requires { page / 64 < vec_capacity words.old }
    ensures after { (size : ℕ) → marked words.new.items size ≡ insert (marked words.old.items size) page }
    ensures room { vec_capacity words.old ≤ vec_capacity words.new }
{
    let word = page / WORD_PAGES;
    reach(words, word);
    words[word] |= 1 << (page % WORD_PAGES);
}

// Takes a page's mark away.
pub(crate) fn unmark(words: &mut Vec<u64>, page: usize)
    ensures after { (size : ℕ) → marked words.new.items size ≡ remove (marked words.old.items size) page }
    ensures room { vec_capacity words.new ≡ vec_capacity words.old }
{
    let word = page / WORD_PAGES;
    if word < words.len() {
        words[word] &= !(1 << (page % WORD_PAGES));
    }
}

// Marks those pages that a list begins with and that are of one word. Answers how many pages they are, and how many were not marked.
pub(crate) fn mark_run(words: &mut Vec<u64>, pages: &[u32]) -> (usize, usize)
    requires some { 0 < length pages.now }
    requires room { slice_index pages.now 0 / 64 < vec_capacity words.old }
    ensures further { 0 < result.0 }
    ensures within { result.0 ≤ length pages.now }
    ensures same_word { All (λ page. page / 64 ≡ slice_index pages.now 0 / 64) (take result.0 pages.now) }
    ensures after { (size : ℕ) → marked words.new.items size ≡ insert_all (marked words.old.items size) (take result.0 pages.now) }
    ensures gained { (size : ℕ) → All (λ page. page < size) (take result.0 pages.now)
        → count (marked words.new.items size) ≡ count (marked words.old.items size) + result.1 }
    ensures room { vec_capacity words.old ≤ vec_capacity words.new }
{
    let word = pages[0] / WORD_PAGES as u32;
    let at = word as usize;
    reach(words, at);
    let (run, marks, gained) = with_run(words[at], word, pages);
    words[at] = marks;
    (run, gained)
}

// Marks those pages that a list begins with and that are of one word, if none of them is marked and no two are the same, and answers how
// many they are. Else it marks none, and answers 0.
pub(crate) fn mark_new_run(words: &mut Vec<u64>, pages: &[u32]) -> usize
    requires some { 0 < length pages.now }
    requires room { slice_index pages.now 0 / 64 < vec_capacity words.old }
    ensures within { result ≤ length pages.now }
    ensures same_word { All (λ page. page / 64 ≡ slice_index pages.now 0 / 64) (take result pages.now) }
    ensures after { (size : ℕ) → marked words.new.items size ≡ insert_all (marked words.old.items size) (take result pages.now) }
    ensures gained { (size : ℕ) → All (λ page. page < size) (take result pages.now)
        → count (marked words.new.items size) ≡ count (marked words.old.items size) + result }
    ensures not_new { (size : ℕ) → All (λ page. page < size) pages.now → result ≡ 0
        → count (insert_all (marked words.old.items size) pages.now) < count (marked words.old.items size) + length pages.now }
    ensures room { vec_capacity words.old ≤ vec_capacity words.new }
{
    let word = pages[0] / WORD_PAGES as u32;
    let at = word as usize;
    reach(words, at);
    let (run, marks, gained) = with_run(words[at], word, pages);
    if gained < run {
        return 0;
    }
    words[at] = marks;
    run
}

// Takes the marks of those pages away that a list begins with and that are of one word, or of one page past the words, which has none.
// Answers how many pages they are, and how many were marked.
pub(crate) fn unmark_run(words: &mut Vec<u64>, pages: &[u32]) -> (usize, usize)
    requires { 0 < length pages.now }
    ensures further { 0 < result.0 }
    ensures within { result.0 ≤ length pages.now }
    ensures same_word { All (λ page. page / 64 ≡ slice_index pages.now 0 / 64) (take result.0 pages.now) }
    ensures after { (size : ℕ) → marked words.new.items size ≡ remove_all (marked words.old.items size) (take result.0 pages.now) }
    ensures lost { (size : ℕ) → All (λ page. page < size) (take result.0 pages.now)
        → count (marked words.new.items size) + result.1 ≡ count (marked words.old.items size) }
    ensures room { vec_capacity words.new ≡ vec_capacity words.old }
{
    let word = pages[0] / WORD_PAGES as u32;
    let at = word as usize;
    if at >= words.len() {
        return (1, 0);
    }
    let (run, marks, lost) = without_run(words[at], word, pages);
    words[at] = marks;
    (run, lost)
}

// The marks of a word with those of its pages that a list begins with, all of them before the word is written. Answers how many pages
// they are, the marks, and how many came.
pub(crate) fn with_run(marks: u64, word: u32, pages: &[u32]) -> (usize, u64, usize)
    ensures within { result.0 ≤ length pages.now }
    ensures further { 0 < length pages.now → slice_index pages.now 0 / 64 ≡ word → 0 < result.0 }
    ensures same_word { All (λ page. page / 64 ≡ word) (take result.0 pages.now) }
    ensures marks { result.1 ≡ with_bits marks (take result.0 pages.now) }
    ensures gained { result.2 ≡ bits_gained marks (take result.0 pages.now) }
{
    let mut all = marks;
    let mut gained = 0;
    for (run, &page) in pages.iter().enumerate() {
        if page / WORD_PAGES as u32 != word {
            return (run, all, gained);
        }
        let place = page % WORD_PAGES as u32;
        gained += 1 - (all >> place & 1) as usize;
        all |= 1 << place;
    }
    (pages.len(), all, gained)
}

// The marks of a word without those of its pages that a list begins with, all of them before the word is written. Answers how many
// pages they are, the marks that are left, and how many went.
pub(crate) fn without_run(marks: u64, word: u32, pages: &[u32]) -> (usize, u64, usize)
    ensures within { result.0 ≤ length pages.now }
    ensures further { 0 < length pages.now → slice_index pages.now 0 / 64 ≡ word → 0 < result.0 }
    ensures same_word { All (λ page. page / 64 ≡ word) (take result.0 pages.now) }
    ensures marks { result.1 ≡ without_bits marks (take result.0 pages.now) }
    ensures lost { result.2 ≡ bits_lost marks (take result.0 pages.now) }
{
    let mut left = marks;
    let mut lost = 0;
    for (run, &page) in pages.iter().enumerate() {
        if page / WORD_PAGES as u32 != word {
            return (run, left, lost);
        }
        let place = page % WORD_PAGES as u32;
        lost += (left >> place & 1) as usize;
        left &= !(1 << place);
    }
    (pages.len(), left, lost)
}

// Passes over words from `first` on, up to that of the marked page before which `k` marked ones stand there. Answers that word, and how
// many of the `k` are in it.
pub(crate) fn word_of(words: &[u64], pages: usize, first: usize, k: u32) -> (usize, u32)
    requires there { count_below (marked words.now pages) (first * 64) + k < count (marked words.now pages) }
    ensures begins { result.0 * 64 < pages }
    ensures before { count_below (marked words.now pages) (result.0 * 64) + result.1
        ≡ count_below (marked words.now pages) (first * 64) + k }
    ensures within { result.1 < count_ones (slice_index words.now result.0) }
{
    let mut left = k;
    for word in first..pages.div_ceil(WORD_PAGES) {
        let count = word_at(words, word).count_ones();
        if left < count {
            return (word, left);
        }
        left -= count;
    }
    unreachable!()
}

// The place of the set bit of a word before which `k` set ones stand. Six times it halves the bits among which that one is,
// rather than pass over them.
pub(crate) fn nth_bit(word: u64, k: u32) -> u32
    requires { k < count_ones word }
    ensures in_range { result < 64 }
    ensures set { bit_at word result ≡ 1 }
    ensures before { count_ones (word % 2 ^ result) ≡ k }
{
    let mut place = 0;
    let mut rest = word;
    let mut left = k;
    for level in (0..6_u32).rev() {
        let half = 1 << level;
        let low = rest & ((1 << half) - 1);
        let lower = low.count_ones();
        if left < lower {
            rest = low;
        } else {
            left -= lower;
            rest >>= half;
            place += half;
        }
    }
    place
}

// The marks in a word, without those bits that are past the last page.
pub(crate) fn marks_in(words: &[u64], pages: usize, word: usize) -> u64
    requires begins { word * 64 < pages }
    ensures { result ≡ slice_index words.now word % 2 ^ min 64 (pages - word * 64) }
{
    cut(word_at(words, word), pages, word)
}

// The pages of a word that neither of two sets of words marks, as marks, but for one page that may be left out, and without those bits
// that are past the last page.
pub(crate) fn marks_outside(
    words: &[u64],
    others: &[u64],
    except: Option<u32>,
    pages: usize,
    word: usize,
) -> u64
    requires begins { word * 64 < pages }
    ensures { result ≡ outside_word words.now others.now except word % 2 ^ min 64 (pages - word * 64) }
{
    let free = !word_at(words, word) & !word_at(others, word);
    cut(but(free, except, word), pages, word)
}

// The marks of a word without that of a page, if one is given and is of the word.
fn but(marks: u64, except: Option<u32>, word: usize) -> u64
    ensures { result ≡ but_page marks except word }
{
    match except {
        Some(page) if page as usize / WORD_PAGES == word => marks
            & !(1 << (page as usize % WORD_PAGES)),
        _ => marks,
    }
}

// The marks of a word without those bits that are past the last page.
fn cut(marks: u64, pages: usize, word: usize) -> u64
    requires begins { word * 64 < pages }
    ensures { result ≡ marks % 2 ^ min 64 (pages - word * 64) }
{
    let left = pages - word * WORD_PAGES;
    if left < WORD_PAGES {
        marks & ((1 << left) - 1)
    } else {
        marks
    }
}
