ghost use Rattle.std.specs.Prelude.{◌≡◌, ◌*◌, ◌/◌, ◌<◌, ◌≤◌, IfOk, OnErr, length};
ghost use Rattle.vm_pages.specs.Pages.{no_pages};
ghost use Rattle.vm_sampling.specs.Words.{words_after};
ghost use Rattle.vm_sampling.specs.Marks.{marked, AreMarksUpTo};
ghost use Rattle.vm_sampling.specs.Sampling.{sampler_of, with_touch, stepped, words_after_step, active, whole};
ghost use Rattle.vm_sampling.specs.Idle.{fast_after, periods_ended, sampler_after, slow_after, words_after_steps};

use crate::Words;
use crate::draws::Draws;
use std::alloc::{AllocError, Global};
use std::marker::Model;
use vm_pages::PageTable;

/// The whole of something, in fixed point.
const WHOLE: u32 = 65536;

/// The samples of one guest's pages, and two moving averages of the fraction of them that the guest touched.
///
/// Clauses read it as `Sampling` of `specs/Sampling.antt`. No call but [`Sampler::new`] takes memory.
///
/// A step, a touch and [`Sampler::active`] take constant time, and so do idle steps at once, but for a logarithm of their number.
/// The first touch of a period alone takes time for the period's draws, which are left until then, and so does one of a page of a large
/// guest that shares its class with a drawn one. The touched pages are marked
/// with the number of the period, so none has to be cleared but once in 65535 periods, when the numbers begin anew.
///
/// A page takes two bytes, which are asked for at the start and written in blocks of 256 pages: those of a block in which a page is
/// touched. So a system that gives out memory on first use gives it for those blocks alone, and a first touch in a block takes time for
/// the block. Beside them there are two bytes for each class of pages, at most 4096 classes, and four for each draw.
#[derive(Debug, Drop)]
pub struct Sampler {
    draws: Draws,
    // The number of the period in which each page was touched last, 0 for none.
    touched_in: PageTable<u16>,
    // The number of this period. Idle periods that end at once have none.
    number: u16,
    // How many of the draws gave a page that was touched in this period.
    hits: u32,
    period: u32,
    steps: u32,
    slow: u32,
    fast: u32,
}

impl Model for Sampler {
    ghost use Rattle.vm_sampling.specs.Sampling.{Sampling};

    ghost Value = { Sampling };

    ghost use Rattle.vm_sampling.specs.SamplerFields.{sampling, IsSampler};

    ghost view = { sampling };

    ghost invariant = { IsSampler };
}

impl Sampler {
    /// A sampler of a guest of `size` pages that draws `n` of them, with replacement, for each period of `period` executed steps.
    /// It draws those of the first period, one word each. Both averages begin at the whole.
    ///
    /// An `Err` means that memory was refused; no word is used then.
    pub fn new(
        alloc: Global,
        n: u32,
        period: u32,
        size: u32,
        words: &mut Words,
    ) -> Result<Self, AllocError>
        requires n_in_range { (1 ≤ n) × (n ≤ 1000) }
        requires period_in_range { (1 ≤ period) × (period ≤ 1000000) }
        requires size_in_range { (1 ≤ size) × (size ≤ 262144) }
        ensures ok { IfOk result (λ s. s ≡ sampler_of n period size words.old) }
        ensures words { IfOk result (λ _. words.new ≡ words_after n words.old) }
        ensures err { OnErr result (words.new ≡ words.old) }
    {
        let touched_in = PageTable::new(alloc, size, 0)?;
        Ok(Sampler {
            draws: Draws::new(alloc, n, size, words)?,
            touched_in,
            number: 1,
            hits: 0,
            period,
            steps: 0,
            slow: WHOLE,
            fast: WHOLE,
        })
    }

    /// The sampler begins anew for another guest of as many pages, which has as many of them drawn: it becomes what [`Sampler::new`]
    /// makes, and as many words are used. It takes no memory, and constant time.
    pub fn restart(&mut self, period: u32, words: &mut Words)
        requires { (1 ≤ period) × (period ≤ 1000000) }
        ensures sampler { self.new ≡ sampler_of self.old.n period self.old.size words.old }
        ensures words { words.new ≡ words_after self.old.n words.old }
    {
        self.touched_in.clear();
        self.number = 1;
        self.hits = 0;
        self.period = period;
        self.steps = 0;
        self.slow = WHOLE;
        self.fast = WHOLE;
        self.draws.renew(words);
    }

    /// How many pages are drawn for each period.
    pub fn draws(&self) -> u32
        ensures { result ≡ self.now.n }
    {
        self.draws.len() as u32
    }

    /// How many pages the guest has.
    pub fn size(&self) -> u32
        ensures { result ≡ self.now.size }
    {
        self.draws.size()
    }

    /// Takes note that the guest touched a page.
    // Inlined, so that a step on a page calls nothing.
    #[inline(always)]
    pub fn touch(&mut self, page: u32)
        requires { page < self.old.size }
        ensures { self.new ≡ with_touch self.old page }
    {
        if self.touched_in.replace(page, self.number) != self.number {
            self.hits += self.draws.count_of(page);
        }
    }

    /// Takes note that the guest executed a step. At the end of a period the averages take in its samples, no page is touched any
    /// more, and the pages of the next period are drawn, one word each.
    pub fn stepped(&mut self, words: &mut Words)
        ensures sampler { self.new ≡ stepped self.old words.old }
        ensures words { words.new ≡ words_after_step self.old words.old }
    {
        if self.steps + 1 == self.period {
            self.end_periods(0, words);
        } else {
            self.steps += 1;
        }
    }

    /// Takes note that the guest executed so many steps that touched no page, in time that grows as the logarithm of their number.
    /// The sampler and the words become what [`Sampler::stepped`] makes of them step by step.
    pub fn idle(&mut self, steps: u32, words: &mut Words)
        ensures sampler { self.new ≡ sampler_after steps self.old words.old }
        ensures words { words.new ≡ words_after_steps steps self.old words.old }
    {
        let left = self.period - self.steps;
        if steps < left {
            self.steps += steps;
        } else {
            let further = steps - left;
            self.end_periods(further / self.period, words);
            self.steps = further % self.period;
        }
    }

    // This period ends, and so do `idle` further ones in which no page is touched. A touch can only hit the draws of the period
    // after them: the words of the others are skipped.
    fn end_periods(&mut self, idle: u32, words: &mut Words)
        ensures sampler { self.new ≡ periods_ended idle self.old words.old }
        ensures words { words.new ≡ words_after self.old.n (words_after (idle * self.old.n) words.old) }
    {
        let fraction = fraction(self.hits, self.draws.len());
        self.slow = slow_after((7 * self.slow + fraction) / 8, idle);
        self.fast = fast_after((self.fast + fraction) / 2, idle);
        self.steps = 0;
        self.hits = 0;
        self.number = next_number(self.number, &mut self.touched_in);
        words.skip(u64::from(idle) * self.draws.len() as u64);
        self.draws.renew(words);
    }

    /// The fraction of the guest's pages that is in active use, in parts of 65536: the greatest of the slow average, the fast one,
    /// and the fast one as it would be if the period ended now.
    pub fn active(&self) -> u32
        ensures value { result ≡ active self.now }
        ensures at_most_whole { result ≤ whole }
    {
        let fraction = fraction(self.hits, self.draws.len());
        self.slow.max(self.fast).max((self.fast + fraction) / 2)
    }
}

// So many hits as a fraction of all draws. Mostly there are none, and then nothing is divided.
fn fraction(hits: u32, draws: usize) -> u32
    requires some { 0 < draws }
    requires few { draws ≤ 1000 }
    requires among { hits ≤ draws }
    ensures value { result ≡ hits * whole / draws }
    ensures at_most_whole { result ≤ whole }
{
    if hits == 0 {
        return 0;
    }
    hits * WHOLE / draws as u32
}

// The slow average after so many further periods without a hit. It reaches zero within 72 of them.
fn slow_after(slow: u32, idle: u32) -> u32
    requires { slow ≤ whole }
    ensures value { result ≡ slow_after idle slow }
    ensures at_most_whole { result ≤ whole }
{
    let mut average = slow;
    for _ in 0..idle {
        if average == 0 {
            return 0;
        }
        average = 7 * average / 8;
    }
    average
}

// The fast average after so many further periods without a hit. It reaches zero within 17 of them.
fn fast_after(fast: u32, idle: u32) -> u32
    requires { fast ≤ whole }
    ensures value { result ≡ fast_after idle fast }
    ensures at_most_whole { result ≤ whole }
{
    let mut average = fast;
    for _ in 0..idle {
        if average == 0 {
            return 0;
        }
        average /= 2;
    }
    average
}

// The number of the next period, which no mark has. The marks are swept where the numbers begin anew, once in 65535 periods.
fn next_number(number: u16, marks: &mut PageTable<u16>) -> u16
    requires from_zero { marks.old.first ≡ 0 }
    requires marks { AreMarksUpTo number marks.old.list }
    ensures empty { marked result marks.new.list ≡ no_pages (length marks.old.list) }
    ensures all { length marks.new.list ≡ length marks.old.list }
    ensures from_zero { marks.new.first ≡ 0 }
    ensures marks { AreMarksUpTo result marks.new.list }
{
    if number == u16::MAX {
        marks.clear();
        return 1;
    }
    number + 1
}
