// The lines of a report.
ghost use Rattle.std.specs.Prelude.{◌≡◌, ◌≤◌, OnOk};
ghost use Rattle.vm_check.specs.Report.{empty_report, with_line};

use std::alloc::{AllocError, Global};
use std::marker::Model;

// Lines, each with a line end behind it, and how many they are.
#[derive(Drop)]
pub(crate) struct Report {
    text: Vec<u8>,
    count: usize,
}

impl Model for Report {
    ghost use Rattle.vm_check.specs.Report.{ReportView};
    ghost use Rattle.std.specs.Prelude.{◌≤◌, vec_len};

    ghost Value = { ReportView };

    ghost view = { λ r. record { text = r.text.items; count = r.count } };

    ghost invariant = { λ r. r.count ≤ vec_len r.text };
}

impl Report {
    // No line.
    pub(crate) fn new(alloc: Global) -> Self
        ensures { result ≡ empty_report }
    {
        Report {
            text: Vec::new(alloc),
            count: 0,
        }
    }

    // Adds a line.
    pub(crate) fn push(&mut self, line: &str) -> Result<(), AllocError>
        ensures { OnOk result (self.new ≡ with_line self.old line.now) }
    {
        self.text.extend_from_slice(line.as_bytes())?;
        self.text.push(b'\n')?;
        self.count += 1;
        Ok(())
    }

    // All lines.
    pub(crate) fn text(&self) -> &[u8]
        ensures { result.now ≡ self.now.text }
    {
        &self.text
    }

    // How many there are.
    pub(crate) fn count(&self) -> usize
        ensures { result ≡ self.now.count }
    {
        self.count
    }
}
