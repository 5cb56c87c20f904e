// The programs, as calls.
use crate::streams::{Given, Narrow};
use crate::system::FakeSystem;
use std::thread::Threads;
use vm_programs::{vmcheck, vmlog, vmmem, vmseries, vmsteer, vmsweep, vmtrace};

/// What a program ended with, and what it said and wrote.
#[derive(Drop)]
pub(crate) struct Ended {
    pub(crate) status: u8,
    pub(crate) said: String,
    pub(crate) written: Vec<u8>,
    /// How many bytes of the input were left.
    pub(crate) left: usize,
}

/// Runs the program that the first word names, if it is one of them.
pub(crate) fn end<RT: AllocGlobal + Threads + Sync>(
    rt: &RT,
    words: &[&str],
    mut reader: Given,
    mut writer: Narrow,
) -> Option<Ended> {
    let system = FakeSystem::new(rt.alloc(), words);
    let program = words.first()?;
    let status = match *program {
        "vmcheck" => vmcheck::status(&system, &mut reader, &mut writer),
        "vmlog" => vmlog::status(&system, &mut reader, &mut writer),
        "vmmem" => vmmem::status(rt, &system, &mut reader, &mut writer),
        "vmseries" => vmseries::status(rt, &system, &mut reader, &mut writer),
        "vmsteer" => vmsteer::status(&system, &mut reader, &mut writer),
        "vmsweep" => vmsweep::status(rt, &system, &mut reader, &mut writer),
        "vmtrace" => vmtrace::status(&system, &mut reader, &mut writer),
        _ => return None,
    };
    Some(Ended {
        status,
        said: system.into_said(),
        written: writer.into_held(),
        left: reader.left(),
    })
}
