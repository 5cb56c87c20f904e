// Which starts of epoch 0 are admitted, and what the machine lacks for the others.
ghost use Rattle.std.specs.Prelude.{◌≡◌, ◌≤◌, IfNone, IfOk, OnOk};
ghost use Rattle.vm_check.specs.Admissions.{begun, is_admitted, lack_of, refusals_of, started, started_at};

use crate::what::What;
use std::alloc::{AllocError, Global};
use std::marker::Model;
use vm_domains::{GuestSpec, MachineSpec};

/// A start that is refused: of which guest, and what the machine lacks for it.
#[derive(Clone, Copy, Debug, PartialEq, Eq)]
pub(crate) struct Refusal {
    pub(crate) guest: usize,
    pub(crate) lack: What,
}

// What a machine has, the sums of what the admitted guests were promised, who they are, and the refusals.
#[derive(Drop)]
pub(crate) struct Admissions {
    frames: u32,
    swap: u32,
    overhead: u32,
    memory: u32,
    reserved: u32,
    admitted: Vec<usize>,
    refusals: Vec<Refusal>,
}

impl Model for Admissions {
    ghost use Rattle.vm_check.specs.Admissions.{AdmissionsView};
    ghost use Rattle.vm_check.specs.AdmissionsFields.{admissions_of, AreWithin};

    ghost Value = { AdmissionsView };

    ghost view = { admissions_of };

    ghost invariant = { AreWithin };
}

impl Admissions {
    // No start.
    fn new(alloc: Global, machine: &MachineSpec) -> Self
        ensures { result ≡ begun machine.now }
    {
        Admissions {
            frames: machine.frames,
            swap: machine.swap,
            overhead: machine.overhead,
            memory: 0,
            reserved: 0,
            admitted: Vec::new(alloc),
            refusals: Vec::new(alloc),
        }
    }

    // Whether a guest was admitted.
    fn is_admitted(&self, guest: usize) -> bool
        ensures { result ≡ is_admitted self.now guest }
    {
        self.admitted.iter().any(|known| *known == guest)
    }

    // A guest is started, whose minimum and reserve are these.
    fn start(&mut self, guest: usize, min: u32, reserve: u32) -> Result<(), AllocError>
        requires min { min ≤ 262144 }
        requires reserve { reserve ≤ 262144 }
        ensures { OnOk result (self.new ≡ started self.old guest min reserve) }
    {
        if self.is_admitted(guest) {
            return Ok(());
        }
        let memory = self.memory + (min + self.overhead);
        let reserved = self.reserved + reserve;
        match lack_of(self.frames, self.swap, memory, reserved) {
            Some(lack) => {
                self.refusals.push(Refusal { guest, lack })?;
            }
            None => {
                self.admitted.push(guest)?;
                self.memory = memory;
                self.reserved = reserved;
            }
        }
        Ok(())
    }

    // The refusals.
    fn into_refusals(self) -> Vec<Refusal>
        ensures { result.items ≡ self.refusals }
    {
        self.refusals
    }
}

// What a machine lacks for these sums; frames are looked at first.
fn lack_of(frames: u32, swap: u32, memory: u32, reserved: u32) -> Option<What>
    ensures lack { result ≡ lack_of frames swap memory reserved }
    ensures memory { IfNone result (memory ≤ frames) }
    ensures reserved { IfNone result (reserved ≤ swap) }
{
    if memory > frames {
        return Some(What::FewFrames {
            promised: memory,
            frames,
        });
    }
    if reserved > swap {
        return Some(What::LittleSwap {
            promised: reserved,
            pages: swap,
        });
    }
    None
}

// The guest of a number is started, if there is one.
fn start_at(
    admissions: &mut Admissions,
    specs: &[GuestSpec],
    guest: usize,
) -> Result<(), AllocError>
    ensures { OnOk result (admissions.new ≡ started_at specs.now admissions.old guest) }
{
    let Some(spec) = specs.get(guest) else {
        return Ok(());
    };
    admissions.start(guest, spec.min, spec.size - spec.min)
}

/// The refusals of these starts, one after the other, on a machine where no guest runs.
pub(crate) fn refusals_of(
    alloc: Global,
    machine: &MachineSpec,
    specs: &[GuestSpec],
    starts: &[usize],
) -> Result<Vec<Refusal>, AllocError>
    ensures { IfOk result (λ refusals. refusals.items ≡ refusals_of machine.now specs.now starts.now) }
{
    let mut admissions = Admissions::new(alloc, machine);
    for guest in starts {
        start_at(&mut admissions, specs, *guest)?;
    }
    Ok(admissions.into_refusals())
}
