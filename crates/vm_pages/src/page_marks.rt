ghost use Rattle.std.specs.Prelude.{◌≡◌, ◌<◌, ◌≤◌, All, IfOk, OnErr, length, take};
ghost use Rattle.vm_pages.specs.Pages.{no_pages, contains, insert, insert_all, remove, remove_all};

use crate::page_table::PageTable;
use crate::words::{WORD_PAGES, with_run, without_run};
use std::alloc::{AllocError, Global};
use std::marker::Model;

// The pages of a word.
const MARKS: u32 = WORD_PAGES as u32;

/// Marks on the pages of a guest.
///
/// A contract sees them as a [`PageSet`](crate::PageSet): a list of one flag for each page. They are one bit for each page and
/// nothing more: they can't be counted or listed, and so a mark is the change of one word alone. No call but
/// [`PageMarks::new`] takes memory, which it only reserves: it is written in blocks of 16384 pages, when a page of one is marked
/// first. [`PageMarks::insert_all`] and [`PageMarks::remove_all`] take time for their list, and each other call takes constant
/// time, but for a block of which no page was marked before.
#[derive(Drop)]
pub struct PageMarks {
    size: u32,
    // For each 64 pages a word, with a bit for each.
    words: PageTable<u64>,
}

impl Model for PageMarks {
    ghost use Rattle.std.specs.Prelude.{List, Bool};
    ghost use Rattle.vm_pages.specs.Words.{marked};
    ghost use Rattle.vm_pages.specs.PageTable.{AreWords};

    ghost Value = { List Bool };

    ghost view = { λ m. marked m.words.list m.size };

    ghost invariant = { λ m. AreWords m.size m.words };
}

impl PageMarks {
    /// No marks on the pages of a guest of `size` pages.
    ///
    /// An error says that memory was refused, which is only where there are pages.
    pub fn new(alloc: Global, size: u32) -> Result<PageMarks, AllocError>
        ensures marks { IfOk result (λ m. m ≡ no_pages size) }
        ensures memory { OnErr result (0 < size) }
    {
        let words = PageTable::new(alloc, size.div_ceil(MARKS), 0)?;
        Ok(PageMarks { size, words })
    }

    /// Takes all marks away, in constant time.
    pub fn clear(&mut self)
        ensures { self.new ≡ no_pages (length self.old) }
    {
        self.words.clear();
    }

    /// Marks a page.
    pub fn insert(&mut self, page: u32)
        requires { page < length self.old }
        ensures after { self.new ≡ insert self.old page }
        ensures size { length self.new ≡ length self.old }
    {
        let word = page / MARKS;
        let marks = self.words.get(word) | 1 << (page % MARKS);
        self.words.set(word, marks);
    }

    /// Takes a page's mark away.
    pub fn remove(&mut self, page: u32)
        requires { page < length self.old }
        ensures after { self.new ≡ remove self.old page }
        ensures size { length self.new ≡ length self.old }
    {
        let word = page / MARKS;
        let marks = self.words.get(word) & !(1 << (page % MARKS));
        self.words.set(word, marks);
    }

    /// Marks pages, in time for their list. It is faster where the pages of a word stand behind one another.
    pub fn insert_all(&mut self, pages: &[u32])
        requires { All (λ page. page < length self.old) pages.now }
        ensures after { self.new ≡ insert_all self.old pages.now }
        ensures size { length self.new ≡ length self.old }
    {
        let mut done = 0;
        while done < pages.len() {
            done += self.insert_run(&pages[done..]);
        }
    }

    // Marks those pages that a list begins with and that are of one word, and says how many they are.
    fn insert_run(&mut self, pages: &[u32]) -> usize
        requires some { 0 < length pages.now }
        requires in_range { All (λ page. page < length self.old) pages.now }
        ensures further { 0 < result }
        ensures within { result ≤ length pages.now }
        ensures after { self.new ≡ insert_all self.old (take result pages.now) }
        ensures size { length self.new ≡ length self.old }
    {
        let word = pages[0] / MARKS;
        let (run, marks, _) = with_run(self.words.get(word), word, pages);
        self.words.set(word, marks);
        run
    }

    /// Takes the marks of pages away, in time for their list. It is faster where the pages of a word stand behind one another.
    pub fn remove_all(&mut self, pages: &[u32])
        requires { All (λ page. page < length self.old) pages.now }
        ensures after { self.new ≡ remove_all self.old pages.now }
        ensures size { length self.new ≡ length self.old }
    {
        let mut done = 0;
        while done < pages.len() {
            done += self.remove_run(&pages[done..]);
        }
    }

    // Takes the marks of those pages away that a list begins with and that are of one word, and says how many they are.
    fn remove_run(&mut self, pages: &[u32]) -> usize
        requires some { 0 < length pages.now }
        requires in_range { All (λ page. page < length self.old) pages.now }
        ensures further { 0 < result }
        ensures within { result ≤ length pages.now }
        ensures after { self.new ≡ remove_all self.old (take result pages.now) }
        ensures size { length self.new ≡ length self.old }
    {
        let word = pages[0] / MARKS;
        let (run, marks, _) = without_run(self.words.get(word), word, pages);
        self.words.set(word, marks);
        run
    }

    /// Whether a page is marked.
    pub fn contains(&self, page: u32) -> bool
        requires { page < length self.now }
        ensures { result ≡ contains self.now page }
    {
        self.words.get(page / MARKS) >> (page % MARKS) & 1 == 1
    }
}
