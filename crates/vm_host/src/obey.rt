// How command lines are obeyed.
ghost use Rattle.std.specs.Prelude.{◌≡◌, ◌*◌, ◌<◌, ◌≤◌, IfOk, OnErr, OnOk, None, length, map, string_bytes};
ghost use Rattle.vm_pool.specs.Changes.{started_at, with_min_at};
ghost use Rattle.vm_pool.specs.Pool.{guest_at, IsRoomAt};
ghost use Rattle.vm_reclaim.specs.Making.{CanRaise, HasRoomToRaise, HasRoomToStart};
ghost use Rattle.vm_reclaim.specs.Policy.{policy_of};
ghost use Rattle.vm_reclaim.specs.Room.{lacking_at, needed_to_start, raise_to, room_made, revocations_for_room};
ghost use Rattle.vm_sound.specs.Sound.{HasSameSetup, IsSoundPool};
ghost use Rattle.vm_tax.specs.Ratio.{hundredths};
ghost use Rattle.vm_host.specs.Books.{books_of};
ghost use Rattle.vm_host.specs.Commands.{after_line, after_lines, answer_to, answers_to, decided, obeyed_by, outcome_of, outcome_to, revocations_by, revocations_to, shown, IsAfterSome};
ghost use Rattle.vm_host.specs.Decisions.{admission_of, decision_on_line};
ghost use Rattle.vm_host.specs.Obeying.{CanObey, IsInRange};
ghost use Rattle.vm_host.specs.Parts.{world_of};
ghost use Rattle.vm_host.specs.Sound.{IsSoundWorld};
ghost use Rattle.vm_host.specs.World.{KeepsDomains};

use crate::boundary::{Answer, DomainStatistics, Outcome, Refusal};
use crate::decide::admit;
use crate::parts::{Parts, page_of, tax_of};
use std::alloc::{AllocError, Global};
use vm_admission::Books;
use vm_commands::{Command, LineFault, parse_line};
use vm_guest::GuestRoom;
use vm_plan::Plan;
use vm_pool::Pool;
use vm_reclaim::{Raise, make_room};

// The frames that the guest at a position needs to start.
fn needed_to_start(pool: &Pool, position: usize) -> u32
    requires overhead { pool.now.overhead ≤ 1024 }
    requires stopped { guest_at pool.now position ≡ None }
    ensures { result ≡ needed_to_start pool.now position }
{
    match pool.stopped(position) {
        Some(spec) => spec.min + pool.overhead(),
        None => 0,
    }
}

// Starts the guest at a position, for which room is made (`virsh start`). Its memory is taken first: where it is refused, nothing
// changes.
fn start(alloc: Global, tax: u32, pool: &mut Pool, position: usize) -> Result<Plan, AllocError>
    requires sound { IsSoundPool pool.old }
    requires tax { tax ≤ 9999 }
    requires overhead { pool.old.overhead ≤ 1024 }
    requires within { position < length pool.old.guests }
    requires stopped { guest_at pool.old position ≡ None }
    requires enough { HasRoomToStart (hundredths tax) pool.old position }
    ensures done { OnOk result (pool.new ≡ started_at (room_made (hundredths tax) None (needed_to_start pool.old position) pool.old) position) }
    ensures plan { IfOk result (λ plan. plan ≡ revocations_for_room (hundredths tax) None (needed_to_start pool.old position) pool.old) }
    ensures unchanged { OnErr result (pool.new ≡ pool.old) }
    ensures setup { HasSameSetup pool.old pool.new }
{
    let room = pool.take_room(alloc, position)?;
    let plan = start_in(alloc, tax, pool, position, room)?;
    Ok(plan)
}

// The same in a room that is for the guest, which is let go where memory is refused.
fn start_in(
    alloc: Global,
    tax: u32,
    pool: &mut Pool,
    position: usize,
    room: GuestRoom,
) -> Result<Plan, AllocError>
    requires sound { IsSoundPool pool.old }
    requires tax { tax ≤ 9999 }
    requires overhead { pool.old.overhead ≤ 1024 }
    requires within { position < length pool.old.guests }
    requires stopped { guest_at pool.old position ≡ None }
    requires room { IsRoomAt pool.old position room }
    requires enough { HasRoomToStart (hundredths tax) pool.old position }
    ensures done { OnOk result (pool.new ≡ started_at (room_made (hundredths tax) None (needed_to_start pool.old position) pool.old) position) }
    ensures plan { IfOk result (λ plan. plan ≡ revocations_for_room (hundredths tax) None (needed_to_start pool.old position) pool.old) }
    ensures unchanged { OnErr result (pool.new ≡ pool.old) }
    ensures setup { HasSameSetup pool.old pool.new }
{
    let needed = needed_to_start(pool, position);
    let plan = make_room(alloc, tax, pool, None, needed)?;
    pool.start(position, room);
    Ok(plan)
}

// The frames that the guest at a position lacks for a minimum.
fn lacking_at(pool: &Pool, position: usize, least: u32) -> u32
    ensures { result ≡ lacking_at pool.now position least }
{
    match pool.view(position) {
        Some(view) => least.saturating_sub(view.held),
        None => 0,
    }
}

// Sets the minimum of the guest at a position, for which room is made (`virsh memtune`). Where memory is refused, nothing changes: its
// swap area grows only for a minimum that it holds, for which no room is made.
fn set_minimum(
    alloc: Global,
    tax: u32,
    pool: &mut Pool,
    position: usize,
    least: u32,
) -> Result<Plan, AllocError>
    requires sound { IsSoundPool pool.old }
    requires tax { tax ≤ 9999 }
    requires raise { CanRaise (raise_to position least) pool.old }
    requires enough { HasRoomToRaise (hundredths tax) pool.old position least }
    ensures done { OnOk result (pool.new ≡ with_min_at least (room_made (hundredths tax) (raise_to position least) (lacking_at pool.old position least) pool.old) position) }
    ensures plan { IfOk result (λ plan. plan ≡ revocations_for_room (hundredths tax) (raise_to position least) (lacking_at pool.old position least) pool.old) }
    ensures unchanged { OnErr result (pool.new ≡ pool.old) }
    ensures setup { HasSameSetup pool.old pool.new }
{
    let lacking = lacking_at(pool, position, least);
    let raise = Raise { position, least };
    let plan = make_room(alloc, tax, pool, Some(raise), lacking)?;
    pool.set_min(position, least)?;
    Ok(plan)
}

// Does what a command asks for, and tells whose targets fell for it. Where memory is refused, nothing changes.
fn obey(
    alloc: Global,
    tax: u32,
    pool: &mut Pool,
    position: usize,
    command: &Command,
) -> Result<Plan, AllocError>
    requires sound { IsSoundPool pool.old }
    requires tax { tax ≤ 9999 }
    requires overhead { pool.old.overhead ≤ 1024 }
    requires can { CanObey (hundredths tax) pool.old position command.now }
    ensures done { OnOk result (pool.new ≡ obeyed_by (hundredths tax) pool.old position command.now) }
    ensures plan { IfOk result (λ plan. plan ≡ revocations_by (hundredths tax) pool.old position command.now) }
    ensures unchanged { OnErr result (pool.new ≡ pool.old) }
    ensures setup { HasSameSetup pool.old pool.new }
{
    match command {
        Command::Start { domain: _ } => return start(alloc, tax, pool, position),
        Command::SetMinimum { domain: _, pages } => {
            return set_minimum(alloc, tax, pool, position, *pages as u32);
        }
        Command::Destroy { domain: _ } => pool.stop(position),
        Command::SetMemory { domain: _, pages } => pool.set_cap(position, *pages as u32),
        Command::SetShares { domain: _, shares } => pool.set_shares(position, *shares),
        Command::ShowStatistics { domain: _ } => {}
    }
    Ok(Plan::new(alloc))
}

// So many pages in KiB, where a page stands for `page` of them.
fn kib_of(pages: u32, page: u32) -> u64
    ensures { result ≡ pages * page }
{
    u64::from(pages) * u64::from(page)
}

// What `virsh dommemstat` prints of the guest at a position, where a page stands for so many KiB.
fn shown(page: u32, pool: &Pool, position: usize) -> Outcome
    ensures { result ≡ shown page (guest_at pool.now position) }
{
    let Some(view) = pool.view(position) else {
        return Outcome::Done;
    };
    let Some(stats) = pool.stats(position) else {
        return Outcome::Done;
    };
    Outcome::Shown(DomainStatistics {
        actual: kib_of(view.size.saturating_sub(view.actual), page),
        rss: kib_of(view.held, page),
        stats,
    })
}

// What becomes of a command that is obeyed.
fn outcome_of(page: u32, pool: &Pool, position: usize, command: &Command) -> Outcome
    ensures { result ≡ outcome_of page pool.now position command.now }
{
    match command {
        Command::ShowStatistics { domain: _ } => shown(page, pool, position),
        Command::Start { domain: _ } | Command::Destroy { domain: _ } => Outcome::Done,
        Command::SetMemory {
            domain: _,
            pages: _,
        } => Outcome::Done,
        Command::SetMinimum {
            domain: _,
            pages: _,
        } => Outcome::Done,
        Command::SetShares {
            domain: _,
            shares: _,
        } => Outcome::Done,
    }
}

// What a command comes to. Where memory is refused, no frame moved.
fn answer_command(
    alloc: Global,
    parts: &mut Parts,
    books: &mut Books,
    command: &Command,
) -> Result<(Plan, Outcome), AllocError>
    requires sound { IsSoundWorld (world_of parts.old) }
    requires booked { books.old ≡ books_of (world_of parts.old) }
    requires range { IsInRange command.now }
    ensures done { OnOk result (world_of parts.new ≡ decided (policy_of parts.old.spec) (world_of parts.old) (admission_of (world_of parts.old) command.now)) }
    ensures revocations { IfOk result (λ told. told.0 ≡ revocations_to (policy_of parts.old.spec) (world_of parts.old) (admission_of (world_of parts.old) command.now)) }
    ensures outcome { IfOk result (λ told. told.1 ≡ outcome_to (world_of parts.old) (admission_of (world_of parts.old) command.now)) }
    ensures booked { OnOk result (books.new ≡ books_of (world_of parts.new)) }
    ensures unchanged { OnErr result (world_of parts.new ≡ world_of parts.old) }
    ensures kept { KeepsDomains (world_of parts.old) (world_of parts.new) }
{
    match admit(parts, books, command) {
        Ok(position) => {
            let page = page_of(parts);
            let tax = tax_of(parts);
            let outcome = outcome_of(page, &parts.pool, position, command);
            let plan = obey(alloc, tax, &mut parts.pool, position, command)?;
            Ok((plan, outcome))
        }
        Err(refusal) => Ok((Plan::new(alloc), Outcome::Refused(refusal))),
    }
}

// What a line comes to.
fn answer_line(
    alloc: Global,
    parts: &mut Parts,
    books: &mut Books,
    line: &str,
) -> Result<(Plan, Outcome), AllocError>
    requires sound { IsSoundWorld (world_of parts.old) }
    requires booked { books.old ≡ books_of (world_of parts.old) }
    ensures done { OnOk result (world_of parts.new ≡ after_line (policy_of parts.old.spec) (world_of parts.old) line.now) }
    ensures revocations { IfOk result (λ told. told.0 ≡ revocations_to (policy_of parts.old.spec) (world_of parts.old) (decision_on_line (world_of parts.old) line.now)) }
    ensures outcome { IfOk result (λ told. told.1 ≡ outcome_to (world_of parts.old) (decision_on_line (world_of parts.old) line.now)) }
    ensures booked { OnOk result (books.new ≡ books_of (world_of parts.new)) }
    ensures unchanged { OnErr result (world_of parts.new ≡ world_of parts.old) }
    ensures kept { KeepsDomains (world_of parts.old) (world_of parts.new) }
{
    let page = page_of(parts);
    match parse_line(alloc, line, page) {
        Ok(command) => answer_command(alloc, parts, books, &command),
        Err(LineFault::Bad) => Ok((Plan::new(alloc), Outcome::Refused(Refusal::BadLine))),
        Err(LineFault::Size) => Ok((Plan::new(alloc), Outcome::Refused(Refusal::BadSize))),
        Err(LineFault::Memory) => Err(AllocError),
    }
}

// The answer to a line.
fn answer(
    alloc: Global,
    parts: &mut Parts,
    books: &mut Books,
    line: &str,
) -> Result<Answer, AllocError>
    requires sound { IsSoundWorld (world_of parts.old) }
    requires booked { books.old ≡ books_of (world_of parts.old) }
    ensures done { OnOk result (world_of parts.new ≡ after_line (policy_of parts.old.spec) (world_of parts.old) line.now) }
    ensures answer { IfOk result (λ answer. answer ≡ answer_to (policy_of parts.old.spec) (world_of parts.old) line.now (decision_on_line (world_of parts.old) line.now)) }
    ensures booked { OnOk result (books.new ≡ books_of (world_of parts.new)) }
    ensures unchanged { OnErr result (world_of parts.new ≡ world_of parts.old) }
    ensures kept { KeepsDomains (world_of parts.old) (world_of parts.new) }
{
    let text = String::from_str(alloc, line)?;
    let (plan, outcome) = answer_line(alloc, parts, books, line)?;
    Ok(Answer::new(text, plan, outcome))
}

// Obeys lines, one after the other. Where memory is refused, the first of them are obeyed, and no other is in part.
pub(crate) fn obey_all(
    alloc: Global,
    parts: &mut Parts,
    books: &mut Books,
    lines: &[String],
) -> Result<Vec<Answer>, AllocError>
    requires sound { IsSoundWorld (world_of parts.old) }
    requires booked { books.old ≡ books_of (world_of parts.old) }
    ensures done { OnOk result (world_of parts.new ≡ after_lines (policy_of parts.old.spec) (world_of parts.old) (map string_bytes lines.now)) }
    ensures answers { IfOk result (λ answers. answers.items ≡ answers_to (policy_of parts.old.spec) (world_of parts.old) (map string_bytes lines.now)) }
    ensures booked { OnOk result (books.new ≡ books_of (world_of parts.new)) }
    ensures memory { OnErr result (IsAfterSome (policy_of parts.old.spec) (world_of parts.old) (map string_bytes lines.now) (world_of parts.new)) }
    ensures wanted { OnErr result (0 < length lines.now) }
    ensures kept { KeepsDomains (world_of parts.old) (world_of parts.new) }
{
    let mut answers = Vec::new(alloc);
    for line in lines {
        answers.push(answer(alloc, parts, books, line.as_str())?)?;
    }
    Ok(answers)
}
