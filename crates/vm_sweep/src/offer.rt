//! What lies on the board.
ghost use Rattle.std.specs.Prelude.{◌≡◌, ◌<◌, ◌≤◌, ◌+◌, ◌∷◌, ◌++◌, map, [], vec_len, vec_capacity};
ghost use Rattle.vm_board.specs.Values.{values};
ghost use Rattle.vm_sweep.specs.Offers.{offered, jobs_of};

use vm_board::Work;

/// A job on the board, until a thread took it. To a board its one piece is to be taken.
#[derive(Drop)]
pub(crate) struct Offer<J> {
    pub(crate) job: Option<J>,
}

impl<J: Drop> Work for Offer<J> {
    ghost use Rattle.std.specs.Prelude.{IsSome, None};

    ghost ready = { λ offer. IsSome offer.job };

    ghost pieces = { λ _. 1 };

    ghost piece = { λ _ _. record { job = None } };

    fn run(&mut self) {
        self.job = None;
    }
}

/// Moves the jobs into offers, in order.
pub(crate) fn put_up<J>(jobs: &mut Vec<J>, offers: &mut Vec<Offer<J>>)
    requires { (offers.old.items ≡ []) × (vec_len jobs.old ≤ vec_capacity offers.old) }
    ensures jobs { (jobs.new.items ≡ []) × (vec_capacity jobs.new ≡ vec_capacity jobs.old) }
    ensures offers { offers.new.items ≡ map offered jobs.old.items }
{
    jobs.reverse();
    while let Some(job) = jobs.pop() {
        offers.push_reserved(Offer { job: Some(job) });
    }
}

/// Moves the jobs of offers back, in order.
pub(crate) fn take_down<J>(mut offers: Vec<Offer<J>>, jobs: &mut Vec<J>)
    requires { (jobs.old.items ≡ []) × (vec_len offers ≤ vec_capacity jobs.old) }
    ensures { jobs.new.items ≡ jobs_of offers.items }
{
    offers.reverse();
    while let Some(offer) = offers.pop() {
        let Offer { job } = offer;
        put_in(jobs, job);
    }
    offers.destroy_empty();
}

/// Puts a value behind the others, if there is one.
pub(crate) fn put_in<X>(list: &mut Vec<X>, value: Option<X>)
    requires { vec_len list.old < vec_capacity list.old }
    ensures items { list.new.items ≡ list.old.items ++ values (value ∷ []) }
    ensures room { (vec_len list.new ≤ vec_len list.old + 1) × (vec_capacity list.new ≡ vec_capacity list.old) }
{
    if let Some(value) = value {
        list.push_reserved(value);
    }
}
