// From bytes to a report.
ghost use Rattle.std.specs.Prelude.{◌≡◌, ◌≢◌, ◌↔◌, ◌⊎◌, ◌<◌, ◌≤◌, ℕ, List, length, IfOk, IfErr, OnOk, OnErr, Err, string_bytes};
ghost use Rattle.std.specs.Io.KnownBytes.{Appends, Consumes};
ghost use Rattle.vm_host.specs.declared.phase.Phase.TheVariants.{Ready, Waiting};
ghost use Rattle.vm_host.specs.Epoch.{after_epoch};
ghost use Rattle.vm_reclaim.specs.Policy.{policy_of};
ghost use Rattle.vm_sim.specs.declared.run_error.RunError.TheVariants.{Memory, Read, Workers, Write};
ghost use Rattle.vm_sim.specs.Calendar.{course_asked};
ghost use Rattle.vm_runs.specs.Course.{host_after};
ghost use Rattle.vm_sim.specs.Course.{after_boundary, lines_for, next_world, boundary_of_lines, world_after};
ghost use Rattle.vm_sim.specs.Headline.{ConservesFrames, ReadsLastWrites, RebalancesFairly, RevokesFairly};
ghost use Rattle.vm_sim.specs.Report.{report_of_boundary, epoch_text, report_in, report_of, report_of_epoch};
ghost use Rattle.vm_sim.specs.Run.{CutShort, Fails, RunsConfig};
ghost use Rattle.vm_streams.specs.Streams.{AppendsFront, NewlyFailed};

use crate::agenda::{Agenda, lines_for};
use crate::calendar::Calendar;
use crate::crew::Crew;
use crate::input::read_text;
use crate::law::law_runs;
use crate::report::{boundary_text, end_text, epoch_text};
use crate::run_error::RunError;
use std::alloc::Global;
use std::thread::Threads;
use vm_config::{Config, read_config};
use vm_host::{Boundary, Gate, Host, HostError, Lines};
use vm_streams::{Sink, Source, write_text};

/// The most workers that a run may have.
pub const MAX_WORKERS: u32 = 64;

// A boundary with these lines.
#[tactic(auto, unfolding(crate::specs::Course::after_boundary, crate::specs::Course::boundary_of_lines))]
pub(crate) fn boundary(alloc: Global, host: &mut Host, lines: &Lines) -> Result<Boundary, HostError>
    ensures host { OnOk result (host.new ≡ after_boundary (policy_of host.old.machine) lines.now host.old) }
    ensures told { IfOk result (λ told. told ≡ boundary_of_lines (policy_of host.old.machine) lines.now host.old) }
    ensures ready { OnOk result (host.new.phase ≡ Ready) }
{
    host.boundary(alloc, lines)
}

// The boundary before an epoch.
pub(crate) fn boundary_before(
    alloc: Global,
    number: u32,
    calendar: &Calendar,
    host: &mut Host,
) -> Result<Boundary, RunError>
    requires { number < calendar.now.epochs }
    ensures host { OnOk result (host.new
        ≡ after_boundary (policy_of host.old.machine) (lines_for host.old.names calendar.now.agenda number) host.old) }
    ensures told { IfOk result (λ told. told
        ≡ boundary_of_lines (policy_of host.old.machine) (lines_for host.old.names calendar.now.agenda number) host.old) }
    ensures ready { OnOk result (host.new.phase ≡ Ready) }
    ensures memory { IfErr result (λ error. error ≡ Memory) }
{
    let lines = lines_for(alloc, host, calendar, number)?;
    let boundary = boundary(alloc, host, &lines)?;
    Ok(boundary)
}

// The boundary before an epoch, in text.
#[tactic(auto, unfolding(crate::specs::Report::report_of_boundary))]
fn text_of_boundary(
    alloc: Global,
    number: u32,
    calendar: &Calendar,
    host: &mut Host,
) -> Result<String, RunError>
    requires { number < calendar.now.epochs }
    ensures host { OnOk result (host.new
        ≡ after_boundary (policy_of host.old.machine) (lines_for host.old.names calendar.now.agenda number) host.old) }
    ensures ready { OnOk result (host.new.phase ≡ Ready) }
    ensures told { IfOk result (λ text. string_bytes text
        ≡ report_of_boundary number (policy_of host.old.machine) (lines_for host.old.names calendar.now.agenda number) host.old) }
    ensures memory { IfErr result (λ error. error ≡ Memory) }
{
    let boundary = boundary_before(alloc, number, calendar, host)?;
    let text = boundary_text(alloc, number, host, &boundary)?;
    Ok(text)
}

// A text is written, and then let go.
fn write_told<W: Sink>(writer: &mut W, text: String) -> Result<(), RunError>
    ensures written { OnOk result (Appends (W.contents writer.old) (W.contents writer.new) (string_bytes text)) }
    ensures front { OnErr result (AppendsFront (W.contents writer.old) (W.contents writer.new) (string_bytes text)) }
    ensures stays { OnOk result (W.has_failed writer.new ≡ W.has_failed writer.old) }
    ensures cause { IfErr result (CutShort (W.has_failed writer.old) (W.has_failed writer.new)) }
{
    write_text(writer, text.as_bytes())?;
    Ok(())
}

// The boundary before an epoch, and what is told of it.
fn tell_boundary<W: Sink>(
    alloc: Global,
    number: u32,
    calendar: &Calendar,
    host: &mut Host,
    writer: &mut W,
) -> Result<(), RunError>
    requires { number < calendar.now.epochs }
    ensures host { OnOk result (host.new
        ≡ after_boundary (policy_of host.old.machine) (lines_for host.old.names calendar.now.agenda number) host.old) }
    ensures ready { OnOk result (host.new.phase ≡ Ready) }
    ensures written { OnOk result (Appends (W.contents writer.old) (W.contents writer.new)
        (report_of_boundary number (policy_of host.old.machine) (lines_for host.old.names calendar.now.agenda number) host.old)) }
    ensures front { OnErr result (AppendsFront (W.contents writer.old) (W.contents writer.new)
        (report_of_boundary number (policy_of host.old.machine) (lines_for host.old.names calendar.now.agenda number) host.old)) }
    ensures stays { OnOk result (W.has_failed writer.new ≡ W.has_failed writer.old) }
    ensures cause { IfErr result (CutShort (W.has_failed writer.old) (W.has_failed writer.new)) }
{
    let text = text_of_boundary(alloc, number, calendar, host)?;
    write_told(writer, text)?;
    Ok(())
}

// The epoch of a host that is ready for it, and what is told of it.
fn tell_epoch<RT: Threads + Sync, G: Gate + Sync, W: Sink>(
    alloc: Global,
    crew: &Crew<'_, RT, G>,
    host: &mut Host,
    writer: &mut W,
) -> Result<(), RunError>
    requires ready { host.old.phase ≢ Waiting }
    ensures host { OnOk result (host.new ≡ after_epoch host.old) }
    ensures written { OnOk result (Appends (W.contents writer.old) (W.contents writer.new)
        (epoch_text (after_epoch host.old))) }
    ensures front { OnErr result (AppendsFront (W.contents writer.old) (W.contents writer.new)
        (epoch_text (after_epoch host.old))) }
    ensures stays { OnOk result (W.has_failed writer.new ≡ W.has_failed writer.old) }
    ensures cause { IfErr result (CutShort (W.has_failed writer.old) (W.has_failed writer.new)) }
{
    host.epoch(crew.rt, alloc, crew.gate, crew.workers)?;
    let text = epoch_text(alloc, host)?;
    write_told(writer, text)?;
    Ok(())
}

// A boundary with its epoch, and what is told of them.
#[tactic(auto, unfolding(crate::specs::Report::report_of_epoch))]
fn epoch<RT: Threads + Sync, G: Gate + Sync, W: Sink>(
    alloc: Global,
    crew: &Crew<'_, RT, G>,
    number: u32,
    calendar: &Calendar,
    host: &mut Host,
    writer: &mut W,
) -> Result<(), RunError>
    requires { number < calendar.now.epochs }
    ensures host { OnOk result (host.new
        ≡ next_world (policy_of host.old.machine) (lines_for host.old.names calendar.now.agenda number) host.old) }
    ensures written { OnOk result (Appends (W.contents writer.old) (W.contents writer.new)
        (report_of_epoch number (policy_of host.old.machine) (lines_for host.old.names calendar.now.agenda number) host.old)) }
    ensures front { OnErr result (AppendsFront (W.contents writer.old) (W.contents writer.new)
        (report_of_epoch number (policy_of host.old.machine) (lines_for host.old.names calendar.now.agenda number) host.old)) }
    ensures stays { OnOk result (W.has_failed writer.new ≡ W.has_failed writer.old) }
    ensures cause { IfErr result (CutShort (W.has_failed writer.old) (W.has_failed writer.new)) }
{
    tell_boundary(alloc, number, calendar, host, writer)?;
    tell_epoch(alloc, crew, host, writer)?;
    Ok(())
}

// All epochs of a new host, and what is told of them and of the end.
#[tactic(auto, using(crate::proofs::FrontLemmas::told_all))]
fn tell<RT: Threads + Sync, G: Gate + Sync, W: Sink>(
    alloc: Global,
    crew: &Crew<'_, RT, G>,
    calendar: &Calendar,
    host: &mut Host,
    writer: &mut W,
) -> Result<(), RunError>
    ensures host { OnOk result (host.new ≡ host_after (course_asked calendar.now host.old) calendar.now.epochs) }
    ensures written { OnOk result (Appends (W.contents writer.old) (W.contents writer.new)
        (report_in (course_asked calendar.now host.old))) }
    ensures front { OnErr result (AppendsFront (W.contents writer.old) (W.contents writer.new)
        (report_in (course_asked calendar.now host.old))) }
    ensures stays { OnOk result (W.has_failed writer.new ≡ W.has_failed writer.old) }
    ensures cause { IfErr result (CutShort (W.has_failed writer.old) (W.has_failed writer.new)) }
{
    for number in 0..calendar.epochs() {
        epoch(alloc, crew, number, calendar, host, writer)?;
    }
    let told = end_text(alloc, host)?;
    write_told(writer, told)?;
    Ok(())
}

// All epochs of a new host, and the host that they leave. A host that fails is closed.
fn run_to_end<RT: Threads + Sync, G: Gate + Sync, W: Sink>(
    alloc: Global,
    crew: &Crew<'_, RT, G>,
    calendar: &Calendar,
    host: Host,
    writer: &mut W,
) -> Result<Host, RunError>
    ensures host { IfOk result (λ left. left ≡ host_after (course_asked calendar.now host) calendar.now.epochs) }
    ensures written { OnOk result (Appends (W.contents writer.old) (W.contents writer.new)
        (report_in (course_asked calendar.now host))) }
    ensures front { OnErr result (AppendsFront (W.contents writer.old) (W.contents writer.new)
        (report_in (course_asked calendar.now host))) }
    ensures stays { OnOk result (W.has_failed writer.new ≡ W.has_failed writer.old) }
    ensures cause { IfErr result (CutShort (W.has_failed writer.old) (W.has_failed writer.new)) }
{
    let mut host = host;
    match tell(alloc, crew, calendar, &mut host, writer) {
        Ok(()) => Ok(host),
        Err(error) => {
            host.close();
            Err(error)
        }
    }
}

// A configuration is run to its end.
fn simulate<RT: Threads + Sync, G: Gate + Sync, W: Sink>(
    alloc: Global,
    crew: &Crew<'_, RT, G>,
    config: Config,
    writer: &mut W,
) -> Result<Host, RunError>
    ensures host { IfOk result (λ host. host ≡ world_after config config.epochs) }
    ensures written { IfOk result (λ _. Appends (W.contents writer.old) (W.contents writer.new)
        (report_of config)) }
    ensures front { OnErr result (AppendsFront (W.contents writer.old) (W.contents writer.new)
        (report_of config)) }
    ensures stays { OnOk result (W.has_failed writer.new ≡ W.has_failed writer.old) }
    ensures cause { IfErr result (CutShort (W.has_failed writer.old) (W.has_failed writer.new)) }
{
    let Config {
        machine,
        epochs,
        domains,
        autostart,
        commands,
    } = config;
    let agenda = Agenda {
        autostart,
        commands,
    };
    let calendar = Calendar::new(alloc, agenda, epochs)?;
    let Ok(host) = Host::new(alloc, machine, domains) else {
        return Err(RunError::Memory);
    };
    run_to_end(alloc, crew, &calendar, host, writer)
}

/// Reads a configuration to the reader's end, runs it, and writes its report: what each boundary did, what was read in each
/// epoch, and the end, each written once it is there. The host that comes back shows the run's end. It has to be closed.
///
/// The guests of an epoch are served by at most `workers` threads, the caller's among them; each guest passes the gate. Whatever
/// their number, the report and the host are those of one worker that serves the guests in order. In that run each read gives the
/// last write there; frames free, held and set aside add up to the machine; and each revocation takes from a guest above its
/// minimum whose adjusted ratio of shares to pages is least (Waldspurger, OSDI 2002, sections 5.1 and 5.2), as does each page that
/// moves to a guest that would pay more for it, which is taken from none that uses all it has (section 6.3).
///
/// There are 1 to 64 workers, else the answer is [`RunError::Workers`], before anything is read. At most 16777216 bytes are read,
/// and one more.
///
/// | Error | Cause | What was written |
/// |---|---|---|
/// | [`RunError::Workers`] | the number of workers | nothing |
/// | [`RunError::Read`] | the reader failed, or more than 16777216 bytes came | nothing |
/// | [`RunError::Config`] | the first fault of the configuration | nothing |
/// | [`RunError::Write`] | the writer failed | a front of the report |
/// | [`RunError::Memory`] | memory was refused | a front of the report, or nothing |
///
/// This is said for a reader and a writer that had not failed before. Where one of them fails in this call, the answer is
/// [`RunError::Read`] for the reader and [`RunError::Write`] for the writer; so a host, and every other error, [`RunError::Memory`]
/// too, says that neither failed.
pub fn run<RT: Threads + Sync, G: Gate + Sync, R: Source, W: Sink>(
    rt: &RT,
    alloc: Global,
    gate: &G,
    workers: u32,
    reader: &mut R,
    writer: &mut W,
) -> Result<Host, RunError>
    ensures workers { (result ≡ Err Workers) ↔ ((workers < 1) ⊎ (64 < workers)) }
    ensures report { OnOk result (RunsConfig (R.remaining reader.old) (R.remaining reader.new)
        (λ config. Appends (W.contents writer.old) (W.contents writer.new) (report_of config))) }
    ensures memory { IfOk result (λ host. RunsConfig (R.remaining reader.old) (R.remaining reader.new)
        (λ config. host ≡ world_after config config.epochs)) }
    ensures reads { OnOk result (RunsConfig (R.remaining reader.old) (R.remaining reader.new) ReadsLastWrites) }
    ensures conservation { OnOk result (RunsConfig (R.remaining reader.old) (R.remaining reader.new) ConservesFrames) }
    ensures revocations { OnOk result (RunsConfig (R.remaining reader.old) (R.remaining reader.new) RevokesFairly) }
    ensures rebalancing { OnOk result (RunsConfig (R.remaining reader.old) (R.remaining reader.new) RebalancesFairly) }
    ensures failed { IfErr result (Fails (R.remaining reader.old) (R.remaining reader.new)
        (W.contents writer.old) (W.contents writer.new)
        16777216 (R.has_failed reader.new) (W.has_failed writer.new)) }
    ensures reader_failed { NewlyFailed (R.has_failed reader.old) (R.has_failed reader.new) → result ≡ Err Read }
    ensures writer_failed { NewlyFailed (W.has_failed writer.old) (W.has_failed writer.new) → result ≡ Err Write }
    ensures at_most { (taken : List ℕ) × Consumes (R.remaining reader.old) (R.remaining reader.new) taken
        × (length taken ≤ 16777217) }
{
    if workers < 1 || workers > MAX_WORKERS {
        return Err(RunError::Workers);
    }
    law_runs();
    let crew = Crew { rt, gate, workers };
    let input = read_text(alloc, reader)?;
    let config = read_config(alloc, &input)?;
    drop(input);
    simulate(alloc, &crew, config, writer)
}
