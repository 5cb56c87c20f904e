// Words, and samplers by the fraction that they tell.
ghost use Rattle.std.specs.Prelude.{◌≡◌, ◌<◌, ◌≤◌};

use super::check_eq;
use std::alloc::Global;
use std::process::Abort;
use vm_sampling::{Sampler, Words};

// Asserts the next word: of the greatest count it picks one less than itself.
fn assert_word(rt: &impl Abort, words: &mut Words, wanted: u32) {
    check_eq(rt, words.pick(u32::MAX), wanted.wrapping_sub(1));
}

#[test]
fn first_words(rt: HostRuntime) {
    let mut words = Words::new(42, 54);
    for wanted in [
        0xa15c02b7, 0x7b47f409, 0xba1d3330, 0x83d2f293, 0xbfa4784b, 0xcbed606e,
    ] {
        assert_word(&rt, &mut words, wanted);
    }
}

#[test]
fn skipped_words(rt: HostRuntime) {
    let mut words = Words::new(42, 54);
    words.skip(2);
    assert_word(&rt, &mut words, 0xba1d3330);
    words.skip(0);
    assert_word(&rt, &mut words, 0x83d2f293);
    words.skip(1);
    assert_word(&rt, &mut words, 0xcbed606e);
}

#[test]
fn picks(rt: HostRuntime) {
    let mut fours = Words::new(42, 54);
    let mut halves = Words::new(42, 54);
    for (of_four, of_two) in [(2, 1), (1, 0), (2, 1), (2, 1), (2, 1), (3, 1)] {
        check_eq(&rt, fours.pick(4), of_four);
        check_eq(&rt, halves.pick(2), of_two);
    }
    check_eq(&rt, Words::new(42, 54).pick(1), 0);
}

// Asserts the fraction in active use.
fn assert_active(rt: &impl Abort, sampler: &Sampler, wanted: u32) {
    check_eq(rt, sampler.active(), wanted);
}

// A sampler that draws so many pages in a period of so many steps.
fn sampler(
    rt: &impl Abort,
    alloc: Global,
    samples: u32,
    period: u32,
    size: u32,
    words: &mut Words,
) -> Sampler
    requires some_samples { (1 ≤ samples) × (samples ≤ 1000) }
    requires some_steps { (1 ≤ period) × (period ≤ 1000000) }
    requires some_pages { (1 ≤ size) × (size ≤ 262144) }
    ensures { result.size ≡ size }
{
    Sampler::new(alloc, samples, period, size, words).expect(rt, "memory")
}

// Ends a sampler. It stands here once, since a function that owns one is proved to free all parts of it where it ends.
fn end(_sampler: Sampler) {}

// A period of one step, in which a page is touched.
#[tactic(auto, using(crate::proofs::SizeLemmas::size_stepped))]
fn touched_step(sampler: &mut Sampler, page: u32, words: &mut Words)
    requires { page < sampler.old.size }
    ensures { sampler.new.size ≡ sampler.old.size }
{
    sampler.touch(page);
    sampler.stepped(words);
}

// Idle steps, after which a page can still be touched.
#[tactic(auto, using(crate::proofs::SizeLemmas::size_idled))]
fn idle_steps(sampler: &mut Sampler, steps: u32, words: &mut Words)
    ensures { sampler.new.size ≡ sampler.old.size }
{
    sampler.idle(steps, words);
}

// One sample of four pages for each two steps: the draws of these words are 2, 1, 2.
#[test]
fn one_sample(rt: HostRuntime) {
    let mut words = Words::new(42, 54);
    let mut sampler = sampler(&rt, rt.alloc(), 1, 2, 4, &mut words);
    sampler.touch(2);
    sampler.stepped(&mut words);
    sampler.stepped(&mut words);
    assert_active(&rt, &sampler, 65536);
    sampler.stepped(&mut words);
    sampler.stepped(&mut words);
    assert_active(&rt, &sampler, 57344);
    end(sampler);
}

// A sampler that begins anew draws as a new one does: again 2, 1, 2. What was touched before is forgotten, and so are the averages.
#[test]
fn sampler_begins_anew(rt: HostRuntime) {
    let mut words = Words::new(42, 54);
    let mut sampler = sampler(&rt, rt.alloc(), 1, 5, 4, &mut words);
    sampler.touch(2);
    idle_steps(&mut sampler, 60, &mut words);
    let mut words = Words::new(42, 54);
    sampler.restart(2, &mut words);
    check_eq(&rt, (sampler.draws(), sampler.size()), (1, 4));
    assert_active(&rt, &sampler, 65536);
    sampler.stepped(&mut words);
    sampler.stepped(&mut words);
    assert_active(&rt, &sampler, 57344);
    end(sampler);
}

// A touch counts in the period whose draws have its page, and in no other. The draws of these words are 2, 1, 2, 2, 2, 3: after five
// periods without a hit the slow average is 33614.
#[test]
fn draws_that_are_due(rt: HostRuntime) {
    let mut words = Words::new(42, 54);
    let mut sampler = sampler(&rt, rt.alloc(), 1, 1, 4, &mut words);
    touched_step(&mut sampler, 1, &mut words);
    touched_step(&mut sampler, 2, &mut words);
    touched_step(&mut sampler, 1, &mut words);
    touched_step(&mut sampler, 1, &mut words);
    touched_step(&mut sampler, 1, &mut words);
    assert_active(&rt, &sampler, 33614);
    sampler.touch(2);
    assert_active(&rt, &sampler, 33614);
    touched_step(&mut sampler, 3, &mut words);
    assert_active(&rt, &sampler, 37604);
    end(sampler);
}

// The draws of a period may be made after words that come later were used by others. The draws of these words are 2, 1, 2, 2 and 2: both
// of the second period give page 2.
#[test]
fn words_of_others(rt: HostRuntime) {
    let mut words = Words::new(42, 54);
    let mut sampler = sampler(&rt, rt.alloc(), 2, 1, 4, &mut words);
    idle_steps(&mut sampler, 1, &mut words);
    check_eq(&rt, words.pick(4), 2);
    touched_step(&mut sampler, 2, &mut words);
    assert_active(&rt, &sampler, 58368);
    end(sampler);
}

// A guest that was idle for long and is touched is seen by the fast average: at once as it would be then, and so at the period's end.
#[test]
fn fast_rise(rt: HostRuntime) {
    let mut words = Words::new(0, 0);
    let mut sampler = sampler(&rt, rt.alloc(), 4, 1, 1, &mut words);
    idle_steps(&mut sampler, 1000, &mut words);
    assert_active(&rt, &sampler, 0);
    sampler.touch(0);
    assert_active(&rt, &sampler, 32768);
    sampler.stepped(&mut words);
    assert_active(&rt, &sampler, 32768);
    end(sampler);
}

// A guest that touches nothing is seen as less and less active.
#[test]
fn slow_decay(rt: HostRuntime) {
    let mut words = Words::new(0, 0);
    let mut sampler = sampler(&rt, rt.alloc(), 4, 2, 1, &mut words);
    for want in [57344, 50176, 43904] {
        sampler.stepped(&mut words);
        sampler.stepped(&mut words);
        assert_active(&rt, &sampler, want);
    }
    end(sampler);
}

// The same, with the periods at once, and a fourth one begun, which a further step ends.
#[test]
fn slow_decay_at_once(rt: HostRuntime) {
    let mut words = Words::new(0, 0);
    let mut sampler = sampler(&rt, rt.alloc(), 4, 2, 1, &mut words);
    sampler.idle(7, &mut words);
    assert_active(&rt, &sampler, 43904);
    sampler.idle(0, &mut words);
    assert_active(&rt, &sampler, 43904);
    sampler.idle(1, &mut words);
    assert_active(&rt, &sampler, 38416);
    end(sampler);
}

// A touch counts in the period that ends first, and in no other; a touch after them counts with the draws of their last words.
// The draws are 2, 1, 2.
#[test]
fn touch_before_idle_steps(rt: HostRuntime) {
    let mut words = Words::new(42, 54);
    let mut sampler = sampler(&rt, rt.alloc(), 1, 2, 4, &mut words);
    sampler.touch(2);
    idle_steps(&mut sampler, 4, &mut words);
    assert_active(&rt, &sampler, 57344);
    sampler.touch(2);
    sampler.idle(2, &mut words);
    assert_active(&rt, &sampler, 58368);
    end(sampler);
}

// All four draws give the one page, so a touch of it counts four times.
#[test]
fn repeats_count(rt: HostRuntime) {
    let mut words = Words::new(0, 0);
    let mut sampler = sampler(&rt, rt.alloc(), 4, 2, 1, &mut words);
    idle_steps(&mut sampler, 3, &mut words);
    sampler.touch(0);
    assert_active(&rt, &sampler, 57344);
    sampler.stepped(&mut words);
    assert_active(&rt, &sampler, 58368);
    end(sampler);
}

// A guest of the greatest size whose period is one step: no step costs a pass over the pages.
#[test]
fn shortest_period(rt: HostRuntime) {
    let mut words = Words::new(42, 54);
    let mut sampler = sampler(&rt, rt.alloc(), 1, 1, 262144, &mut words);
    for _ in 0..100000 {
        sampler.stepped(&mut words);
    }
    assert_active(&rt, &sampler, 0);
    end(sampler);
}

// As many idle steps as there can be, a thousand times.
#[test]
fn most_idle_steps(rt: HostRuntime) {
    let mut words = Words::new(42, 54);
    let mut sampler = sampler(&rt, rt.alloc(), 1000, 1, 262144, &mut words);
    for _ in 0..1000 {
        sampler.idle(u32::MAX, &mut words);
    }
    assert_active(&rt, &sampler, 0);
    end(sampler);
}
