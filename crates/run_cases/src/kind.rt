// The kinds of cases: the name of each, and the module that tries a block of its file.
use crate::cases::{Entry, blocks, first_line};
use crate::tally::Tally;
use crate::{ends, numbers, reports, requests, series};
use anyhow::anyhow;
use std::rt::Files;
use std::thread::Threads;
use std::{fs, io};

/// A kind of cases, with a file of its own.
#[derive(Clone, Copy)]
pub(crate) enum Kind {
    Reports,
    Series,
    Charts,
    Numbers,
    Requests,
    Vmmem,
    Vmseries,
    Vmsweep,
    VmsweepForms,
    VmsweepGuests,
    Vmtrace,
    Vmsteer,
    Vmlog,
    Vmcheck,
    Files,
    Help,
}

impl Kind {
    /// All of them, in the order in which they are tried.
    pub(crate) const ALL: [Kind; 16] = [
        Kind::Reports,
        Kind::Series,
        Kind::Charts,
        Kind::Numbers,
        Kind::Requests,
        Kind::Vmmem,
        Kind::Vmseries,
        Kind::Vmsweep,
        Kind::VmsweepForms,
        Kind::VmsweepGuests,
        Kind::Vmtrace,
        Kind::Vmsteer,
        Kind::Vmlog,
        Kind::Vmcheck,
        Kind::Files,
        Kind::Help,
    ];

    /// The name of its file, which is `NAME.cases`.
    fn name(self) -> &'static str {
        match self {
            Kind::Reports => "reports",
            Kind::Series => "series",
            Kind::Charts => "charts",
            Kind::Numbers => "numbers",
            Kind::Requests => "requests",
            Kind::Vmmem => "vmmem",
            Kind::Vmseries => "vmseries",
            Kind::Vmsweep => "vmsweep",
            Kind::VmsweepForms => "vmsweep-forms",
            Kind::VmsweepGuests => "vmsweep-guests",
            Kind::Vmtrace => "vmtrace",
            Kind::Vmsteer => "vmsteer",
            Kind::Vmlog => "vmlog",
            Kind::Vmcheck => "vmcheck",
            Kind::Files => "files",
            Kind::Help => "help",
        }
    }

    /// Tries the cases of a block.
    fn try_block<RT: Files + Print + AllocGlobal + Threads + Sync>(
        self,
        rt: &RT,
        block: &[Entry],
        tally: &mut Tally,
    ) -> io::Result<()> {
        match self {
            Kind::Reports => reports::try_block(rt, block, tally),
            Kind::Series => series::try_block(rt, block, tally),
            Kind::Numbers => numbers::try_block(rt, block, tally),
            Kind::Requests => requests::try_block(rt, block, tally),
            Kind::Charts
            | Kind::Vmmem
            | Kind::Vmseries
            | Kind::Vmsweep
            | Kind::VmsweepForms
            | Kind::VmsweepGuests
            | Kind::Vmtrace
            | Kind::Vmsteer
            | Kind::Vmlog
            | Kind::Vmcheck
            | Kind::Files
            | Kind::Help => ends::try_block(rt, block, tally),
        }
    }

    /// Tries all its cases, and tells how many there are.
    pub(crate) fn try_all<RT: Files + Print + AllocGlobal + Threads + Sync>(
        self,
        rt: &RT,
    ) -> io::Result<()> {
        let alloc = rt.alloc();
        let name = self.name();
        let text = fs::read_to_string(rt, format!(in alloc; "{name}.cases")?)?;
        let mut tally = Tally::new(name);
        for block in &blocks(alloc, text.as_str())? {
            let before = tally.tried();
            self.try_block(rt, block.as_slice(), &mut tally)?;
            if tally.tried() == before {
                tally.note(rt, first_line(block.as_slice()), Err(anyhow!("no case")))?;
            }
        }
        tally.end(rt)
    }
}
