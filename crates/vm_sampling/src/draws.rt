ghost use Rattle.std.specs.Prelude.{◌≡◌, ◌<◌, ◌≤◌, [], All, IfOk, OnErr, length, min};
ghost use Rattle.vm_sampling.specs.Counts.{AreCounts, classes_of, draws_of};
ghost use Rattle.vm_sampling.specs.Drawn.{pages_drawn};
ghost use Rattle.vm_sampling.specs.Words.{draws, words_after};

use crate::Words;
use std::alloc::{AllocError, Global};
use std::marker::Model;

// The pages whose numbers differ by a multiple of this are one class.
const CLASSES: u32 = 4096;

// The pages that are drawn for a period, with replacement.
//
// A new period only sets the words of its draws aside. The draws are made when a page is first asked for, so a period in which no
// page is touched costs none. Draws are counted by classes of pages, so that the counts of a large guest stay in the processor's
// cache: most pages of it are in a class that no draw gave, and for the others the draws are looked through.
#[derive(Debug, Drop)]
pub(crate) struct Draws {
    size: u32,
    drawn: Vec<u32>,
    // How many of the draws that were made gave a page of each class. Before any were, they count as draws of page 0.
    counts: Vec<u16>,
    // The words of the draws that are still to be made, in place of those that were.
    due: Option<Words>,
}

impl Model for Draws {
    ghost use Rattle.vm_sampling.specs.Drawn.{Drawn};

    ghost Value = { Drawn };

    ghost use Rattle.vm_sampling.specs.DrawsFields.{drawn_of, IsDraws};

    ghost view = { drawn_of };

    ghost invariant = { IsDraws };
}

impl Draws {
    // Draws `n` of the pages of a guest of `size` pages. An `Err` means that memory was refused; no word is used then.
    pub(crate) fn new(
        alloc: Global,
        n: u32,
        size: u32,
        words: &mut Words,
    ) -> Result<Self, AllocError>
        requires n_in_range { n ≤ 1000 }
        requires size_in_range { (1 ≤ size) × (size ≤ 262144) }
        ensures ok { IfOk result (λ d. d ≡ record { pages = draws n size words.old; size = size }) }
        ensures words { IfOk result (λ _. words.new ≡ words_after n words.old) }
        ensures err { OnErr result (words.new ≡ words.old) }
    {
        let drawn = vec![in alloc; 0u32; n as usize]?;
        let mut counts = vec![in alloc; 0u16; size.min(CLASSES) as usize]?;
        counts[0] = n as u16;
        let due = Some(words.set_aside(u64::from(n)));
        Ok(Draws {
            size,
            drawn,
            counts,
            due,
        })
    }

    // How many pages are drawn.
    pub(crate) fn len(&self) -> usize
        ensures { result ≡ length self.now.pages }
    {
        self.drawn.len()
    }

    // How many pages the guest has.
    pub(crate) fn size(&self) -> u32
        ensures { result ≡ self.now.size }
    {
        self.size
    }

    // Draws as many pages for the next period.
    pub(crate) fn renew(&mut self, words: &mut Words)
        ensures pages { self.new ≡ record { pages = draws (length self.old.pages) self.old.size words.old; size = self.old.size } }
        ensures words { words.new ≡ words_after (length self.old.pages) words.old }
    {
        self.due = Some(words.set_aside(self.drawn.len() as u64));
    }

    // How many of the draws gave the page.
    #[inline(always)]
    pub(crate) fn count_of(&mut self, page: u32) -> u32
        requires { page < self.old.size }
        ensures value { result ≡ draws_of self.old.pages page }
        ensures same { self.new ≡ self.old }
    {
        let due = self.due.take();
        make_draws(due, self.size, &mut self.drawn, &mut self.counts);
        count_in(&self.drawn, &self.counts, self.size, page)
    }
}

// How many of the draws gave the page, by the count of its class where that is enough.
#[inline(always)]
fn count_in(drawn: &[u32], counts: &[u16], size: u32, page: u32) -> u32
    requires few_draws { length drawn.now ≤ 1000 }
    requires pages { All (λ page. page < size) drawn.now }
    requires in_range { page < size }
    requires all { length counts.now ≡ classes_of size }
    requires counted { AreCounts drawn.now counts.now }
    ensures { result ≡ draws_of drawn.now page }
{
    let count = u32::from(counts[(page % CLASSES) as usize]);
    if CLASSES < size && 0 < count {
        times_drawn(drawn, page)
    } else {
        count
    }
}

// How many of the draws gave the page. Not inlined, since it is seldom asked.
#[inline(never)]
fn times_drawn(drawn: &[u32], page: u32) -> u32
    requires { length drawn.now ≤ 1000 }
    ensures { result ≡ draws_of drawn.now page }
{
    drawn.iter().filter(|&&other| other == page).count() as u32
}

// Makes the draws that are due, if there are any.
#[inline(always)]
fn make_draws(due: Option<Words>, size: u32, drawn: &mut [u32], counts: &mut [u16])
    requires few_draws { length drawn.old ≤ 1000 }
    requires pages_in_range { (1 ≤ size) × (size ≤ 262144) }
    requires pages { All (λ page. page < size) drawn.old }
    requires all { length counts.old ≡ classes_of size }
    requires counted { AreCounts drawn.old counts.old }
    ensures drawn { drawn.new ≡ pages_drawn due drawn.old size }
    ensures pages { All (λ page. page < size) drawn.new }
    ensures all { length counts.new ≡ length counts.old }
    ensures counted { AreCounts drawn.new counts.new }
{
    if let Some(words) = due {
        draw_anew(words, size, drawn, counts);
    }
}

// Makes draws in the place of those that were made. Not inlined, since a touch asks for it once a period.
#[inline(never)]
fn draw_anew(words: Words, size: u32, drawn: &mut [u32], counts: &mut [u16])
    requires few_draws { length drawn.old ≤ 1000 }
    requires pages_in_range { (1 ≤ size) × (size ≤ 262144) }
    requires pages { All (λ page. page < size) drawn.old }
    requires all { length counts.old ≡ classes_of size }
    requires counted { AreCounts drawn.old counts.old }
    ensures drawn { drawn.new ≡ draws (length drawn.old) size words }
    ensures pages { All (λ page. page < size) drawn.new }
    ensures all { length counts.new ≡ length counts.old }
    ensures counted { AreCounts drawn.new counts.new }
{
    let mut words = words;
    clear_counts(drawn, counts, size);
    redraw(drawn, counts, size, &mut words);
}

// Takes the draws out of the counts, one by one.
fn clear_counts(drawn: &[u32], counts: &mut [u16], size: u32)
    requires pages { All (λ page. page < size) drawn.now }
    requires all { length counts.old ≡ classes_of size }
    requires counted { AreCounts drawn.now counts.old }
    ensures counted { AreCounts [] counts.new }
    ensures all { length counts.new ≡ length counts.old }
{
    for &page in drawn {
        counts[(page % CLASSES) as usize] -= 1;
    }
}

// Draws each of the pages anew, and counts how many of the draws give a page of each class.
fn redraw(drawn: &mut [u32], counts: &mut [u16], size: u32, words: &mut Words)
    requires few_draws { length drawn.old ≤ 1000 }
    requires pages_in_range { (1 ≤ size) × (size ≤ 262144) }
    requires all { length counts.old ≡ classes_of size }
    requires cleared { AreCounts [] counts.old }
    ensures drawn { drawn.new ≡ draws (length drawn.old) size words.old }
    ensures pages { All (λ page. page < size) drawn.new }
    ensures counted { AreCounts drawn.new counts.new }
    ensures all { length counts.new ≡ length counts.old }
    ensures words { words.new ≡ words_after (length drawn.old) words.old }
{
    for place in drawn.iter_mut() {
        let page = words.pick(size);
        *place = page;
        counts[(page % CLASSES) as usize] += 1;
    }
}
