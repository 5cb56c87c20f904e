// Whether a command is obeyed.
ghost use Rattle.std.specs.Prelude.{◌≡◌, ◌+◌, ◌^◌, ◌<◌, IfOk, IfSome, OnOk, OnErr, slice_get};
ghost use Rattle.vm_admission.specs.Accounts.{with_guest, with_minimum, without_guest, IsMinimumBooked};
ghost use Rattle.vm_commands.specs.declared.command.Command.TheVariants.{Destroy, SetMemory, SetMinimum, ShowStatistics, Start};
ghost use Rattle.vm_guest.specs.Good.{IsGood};
ghost use Rattle.vm_guest.specs.Record.{reserve};
ghost use Rattle.vm_pool.specs.Guests.{of_running};
ghost use Rattle.vm_pool.specs.Pool.{guest_at};
ghost use Rattle.vm_host.specs.Books.{books_of, if_covered};
ghost use Rattle.vm_host.specs.Decisions.{booked_minimum, booked_start, decision_on, if_stopped, IsBooked, needed_by, position_in, refusal_by, viewed};
ghost use Rattle.vm_host.specs.Parts.{world_of};

use crate::boundary::Refusal;
use crate::parts::Parts;
use vm_admission::{AdmissionError, Books};
use vm_commands::{Command, Domain};
use vm_guest::{GuestView, more_reserve};
use vm_pool::Pool;

// The refusal that follows from what the books lack.
fn refusal_of(error: AdmissionError) -> Refusal
    ensures { result ≡ refusal_by error }
{
    match error {
        AdmissionError::NoMemory => Refusal::NoMemory,
        AdmissionError::NoSwap => Refusal::NoSwap,
    }
}

// The position of the domain with a name.
fn position_of(parts: &Parts, domain: &Domain) -> Result<usize, Refusal>
    ensures { result ≡ position_in (world_of parts.now) domain.now }
{
    parts
        .names
        .position(domain.as_str())
        .ok_or(Refusal::NoSuchDomain)
}

// The guest of a domain that runs.
fn running_at(pool: &Pool, position: usize) -> Result<GuestView, Refusal>
    ensures view { result ≡ viewed (guest_at pool.now position) }
    ensures good { IfSome (guest_at pool.now position) IsGood }
{
    pool.view(position).ok_or(Refusal::NotRunning)
}

// The swap that is reserved for the guest at a position, if one runs there.
fn reserve_at(pool: &Pool, position: usize) -> u32
    ensures { result ≡ of_running reserve (guest_at pool.now position) }
{
    match pool.reserve(position) {
        Some(reserve) => reserve,
        None => 0,
    }
}

// The minimum of a domain that doesn't run, and the swap that it needs for the rest.
fn needs_of(pool: &Pool, position: usize) -> Result<(u32, u32), Refusal>
    ensures { result ≡ needed_by (if_stopped (guest_at pool.now position) (slice_get pool.now.configs position)) }
{
    match pool.stopped(position) {
        Some(spec) => Ok((spec.min, spec.size - spec.min)),
        None if pool.is_running(position) => Err(Refusal::AlreadyRunning),
        None => Err(Refusal::NoSuchDomain),
    }
}

// A guest joins the books, where they cover it.
fn admit_guest(books: &mut Books, min: u32, reserve: u32, position: usize) -> Result<usize, Refusal>
    requires { books.old.guests + 1 < 2 ^ 32 }
    ensures decision { result ≡ if_covered (with_guest books.old min reserve) position }
    ensures books { OnOk result (books.new ≡ with_guest books.old min reserve) }
    ensures unchanged { OnErr result (books.new ≡ books.old) }
{
    match books.admit(min, reserve) {
        Ok(()) => Ok(position),
        Err(error) => Err(refusal_of(error)),
    }
}

// A guest's minimum changes in the books, where they cover it.
fn admit_change(
    books: &mut Books,
    old: u32,
    new: u32,
    more_reserve: u32,
    position: usize,
) -> Result<usize, Refusal>
    requires { IsMinimumBooked books.old old }
    ensures decision { result ≡ if_covered (with_minimum books.old old new more_reserve) position }
    ensures books { OnOk result (books.new ≡ with_minimum books.old old new more_reserve) }
    ensures unchanged { OnErr result (books.new ≡ books.old) }
{
    match books.change_min(old, new, more_reserve) {
        Ok(()) => Ok(position),
        Err(error) => Err(refusal_of(error)),
    }
}

// A guest starts, where the books cover it.
fn admit_start(parts: &Parts, books: &mut Books, domain: &Domain) -> Result<usize, Refusal>
    requires tied { books.old ≡ books_of (world_of parts.now) }
    requires few { books.old.guests + 1 < 2 ^ 32 }
    ensures decision { result ≡ decision_on (world_of parts.now) (Start domain.now) }
    ensures books { IfOk result (λ position. IfSome (slice_get parts.now.pool.configs position) (λ config. books.new ≡ booked_start books.old config)) }
    ensures unchanged { OnErr result (books.new ≡ books.old) }
{
    let position = position_of(parts, domain)?;
    let (min, reserve) = needs_of(&parts.pool, position)?;
    admit_guest(books, min, reserve, position)
}

// A guest ends, and leaves the books.
fn admit_destroy(parts: &Parts, books: &mut Books, domain: &Domain) -> Result<usize, Refusal>
    requires { books.old ≡ books_of (world_of parts.now) }
    ensures decision { result ≡ decision_on (world_of parts.now) (Destroy domain.now) }
    ensures books { IfOk result (λ position. IfSome (guest_at parts.now.pool position) (λ g. books.new ≡ without_guest books.old g.allotment.min (reserve g))) }
    ensures unchanged { OnErr result (books.new ≡ books.old) }
{
    let position = position_of(parts, domain)?;
    let view = running_at(&parts.pool, position)?;
    let reserve = reserve_at(&parts.pool, position);
    books.leave(view.min, reserve);
    Ok(position)
}

// A cap is from the minimum to the size.
fn admit_cap(parts: &Parts, domain: &Domain, cap: u64) -> Result<usize, Refusal>
    ensures { result ≡ decision_on (world_of parts.now) (SetMemory domain.now cap) }
{
    let position = position_of(parts, domain)?;
    let view = running_at(&parts.pool, position)?;
    if cap < u64::from(view.min) {
        Err(Refusal::BelowMinimum)
    } else if cap > u64::from(view.size) {
        Err(Refusal::AboveMaximum)
    } else {
        Ok(position)
    }
}

// A minimum is at most the cap, and the books cover it.
fn admit_minimum(
    parts: &Parts,
    books: &mut Books,
    domain: &Domain,
    least: u64,
) -> Result<usize, Refusal>
    requires { books.old ≡ books_of (world_of parts.now) }
    ensures decision { result ≡ decision_on (world_of parts.now) (SetMinimum domain.now least) }
    ensures books { IfOk result (λ position. IfSome (guest_at parts.now.pool position) (λ g. books.new ≡ booked_minimum books.old g least)) }
    ensures unchanged { OnErr result (books.new ≡ books.old) }
{
    let position = position_of(parts, domain)?;
    let view = running_at(&parts.pool, position)?;
    if least > u64::from(view.cap) {
        return Err(Refusal::AboveMaximum);
    }
    let reserve = reserve_at(&parts.pool, position);
    let more = more_reserve(view.size, reserve, least as u32);
    admit_change(books, view.min, least as u32, more, position)
}

// The domain runs.
fn admit_running(parts: &Parts, domain: &Domain) -> Result<usize, Refusal>
    ensures { result ≡ decision_on (world_of parts.now) (ShowStatistics domain.now) }
{
    let position = position_of(parts, domain)?;
    running_at(&parts.pool, position)?;
    Ok(position)
}

// The position of the domain that a command is about, or why it is refused. What is admitted stands in the books then.
pub(crate) fn admit(parts: &Parts, books: &mut Books, command: &Command) -> Result<usize, Refusal>
    requires tied { books.old ≡ books_of (world_of parts.now) }
    requires few { books.old.guests + 1 < 2 ^ 32 }
    ensures decision { result ≡ decision_on (world_of parts.now) command.now }
    ensures books { IfOk result (λ position. IsBooked parts.now.pool position books.old books.new command.now) }
    ensures unchanged { OnErr result (books.new ≡ books.old) }
{
    match command {
        Command::Start { domain } => admit_start(parts, books, domain),
        Command::Destroy { domain } => admit_destroy(parts, books, domain),
        Command::SetMemory { domain, pages } => admit_cap(parts, domain, *pages),
        Command::SetMinimum { domain, pages } => admit_minimum(parts, books, domain, *pages),
        Command::SetShares { domain, shares: _ } => admit_running(parts, domain),
        Command::ShowStatistics { domain } => admit_running(parts, domain),
    }
}
