// How many cases of a kind were tried, and each that differs.
use anyhow::Result;
use std::io;

/// The cases of a kind that were tried so far, and how many of them differ.
#[derive(Drop)]
pub(crate) struct Tally {
    kind: &'static str,
    tried: u32,
    differing: u32,
}

impl Tally {
    pub(crate) fn new(kind: &'static str) -> Self {
        Tally {
            kind,
            tried: 0,
            differing: 0,
        }
    }

    /// How many cases were tried so far.
    pub(crate) fn tried(&self) -> u32 {
        self.tried
    }

    /// Counts a case, which begins in this line of the kind's file, and tells it if it differs.
    pub(crate) fn note(
        &mut self,
        rt: &impl Print,
        number: usize,
        outcome: Result<()>,
    ) -> io::Result<()> {
        self.tried = self.tried.saturating_add(1);
        if let Err(error) = outcome {
            self.differing = self.differing.saturating_add(1);
            let kind = self.kind;
            println!(rt; "{kind}.cases:{number}: {error}")?;
        }
        Ok(())
    }

    /// Tells how many cases there were, and how many of them differ.
    pub(crate) fn end(self, rt: &impl Print) -> io::Result<()> {
        let Tally {
            kind,
            tried,
            differing,
        } = self;
        if differing == 0 {
            println!(rt; "{kind} {tried} ok")
        } else {
            println!(rt; "{kind} {tried} differ {differing}")
        }
    }
}
