// What is counted of what a boundary tells.
ghost use Rattle.std.specs.Prelude.{◌≡◌, length};
ghost use Rattle.vm_guest.specs.Record.{saturated};
ghost use Rattle.vm_plan.specs.Stretches.{moves_of};
ghost use Rattle.vm_tally.specs.Counting.{sum_each, one_if};
ghost use Rattle.vm_tally.specs.Counts.{is_for_frames, is_for_swap, is_refused, paged, refused, revoked};

use vm_host::{Answer, Boundary, Outcome, Refusal};
use vm_plan::{Plan, Stretch};
use vm_reclaim::Paged;

// How many pages some stretches have.
#[tactic(auto, using(crate::proofs::SumLemmas::saturated_end))]
fn pages_in(stretches: &[Stretch]) -> u64
    ensures { result ≡ saturated (length (moves_of stretches.now)) }
{
    let mut sum: u64 = 0;
    for stretch in stretches {
        sum = sum.saturating_add(u64::from(stretch.count));
    }
    sum
}

// How many pages a plan has.
pub(crate) fn pages_of(plan: &Plan) -> u64
    ensures { result ≡ saturated (length plan.now) }
{
    pages_in(plan.stretches())
}

// How many pages were revoked for these lines.
#[tactic(auto, using(crate::proofs::SumLemmas::saturated_end))]
fn revoked_for(answers: &[Answer]) -> u64
    ensures { result ≡ saturated (sum_each (λ a. length a.revocations) answers.now) }
{
    let mut sum: u64 = 0;
    for answer in answers {
        sum = sum.saturating_add(pages_of(answer.revocations()));
    }
    sum
}

// How many pages were revoked.
pub(crate) fn revoked(boundary: &Boundary) -> u64
    ensures { result ≡ saturated (revoked boundary.now) }
{
    revoked_for(boundary.answers.as_slice()).saturating_add(pages_of(&boundary.revoked))
}

// How many frames guests gave up.
#[tactic(auto, using(crate::proofs::SumLemmas::saturated_end))]
fn frames_in(paging: &[Paged]) -> u64
    ensures { result ≡ saturated (sum_each (λ p. p.count) paging.now) }
{
    let mut sum: u64 = 0;
    for paged in paging {
        sum = sum.saturating_add(u64::from(paged.count));
    }
    sum
}

// How many frames guests gave up at a boundary.
pub(crate) fn paged(boundary: &Boundary) -> u64
    ensures { result ≡ saturated (paged boundary.now) }
{
    frames_in(boundary.paged.as_slice())
}

// Whether a line was refused for want of frames.
fn wanted_frames(outcome: Outcome) -> bool
    ensures { result ≡ is_refused is_for_frames outcome }
{
    matches!(outcome, Outcome::Refused(Refusal::NoMemory))
}

// Whether a line was refused for want of swap.
fn wanted_swap(outcome: Outcome) -> bool
    ensures { result ≡ is_refused is_for_swap outcome }
{
    matches!(outcome, Outcome::Refused(Refusal::NoSwap))
}

// How many of these lines were refused for want of frames.
#[tactic(auto, using(crate::proofs::SumLemmas::saturated_end))]
fn without_frames(answers: &[Answer]) -> u64
    ensures { result ≡ saturated (sum_each (λ a. one_if (is_refused is_for_frames a.outcome)) answers.now) }
{
    let mut sum: u64 = 0;
    for answer in answers {
        sum = sum.saturating_add(u64::from(wanted_frames(answer.outcome())));
    }
    sum
}

// How many of these lines were refused for want of swap.
#[tactic(auto, using(crate::proofs::SumLemmas::saturated_end))]
fn without_swap(answers: &[Answer]) -> u64
    ensures { result ≡ saturated (sum_each (λ a. one_if (is_refused is_for_swap a.outcome)) answers.now) }
{
    let mut sum: u64 = 0;
    for answer in answers {
        sum = sum.saturating_add(u64::from(wanted_swap(answer.outcome())));
    }
    sum
}

// How many lines of a boundary were refused for want of frames.
pub(crate) fn no_memory(boundary: &Boundary) -> u64
    ensures { result ≡ saturated (refused is_for_frames boundary.now) }
{
    without_frames(boundary.answers.as_slice())
}

// How many were for want of swap.
pub(crate) fn no_swap(boundary: &Boundary) -> u64
    ensures { result ≡ saturated (refused is_for_swap boundary.now) }
{
    without_swap(boundary.answers.as_slice())
}
