// The text of a guest, which is put together step by step and written in parts.
ghost use Rattle.std.specs.Prelude.{◌≡◌, ◌≤◌, ◌<◌, ◌+◌, ◌^◌, ◌++◌, ◌∷◌, ◌==◌, [], IfOk, OnErr, OnOk, codes, if◌then◌else◌, length, take, true};
ghost use Rattle.std.specs.Io.KnownBytes.{Appends};
ghost use Rattle.vm_import.specs.Drafts.{all_written, with_steps, with_text};
ghost use Rattle.vm_import.specs.Settings.{settings_of};
ghost use Rattle.vm_import.specs.Steps.{byte_of, idle_steps, step_of, steps_of};
ghost use Rattle.vm_import.specs.Texts.{head_of, tail_of};
ghost use Rattle.vm_streams.specs.Streams.{AppendsFront};

use crate::numbers::{hex_digit, push_decimal};
use crate::settings::ImportSettings;
use crate::texts::{head_text, tail_text};
use crate::touch::RankedTouch;
use std::alloc::{AllocError, Global};
use std::marker::Model;
use vm_streams::{Sink, WriteFailed, write_text};

/// A clause sees the text that waits to be written, how many bytes were written before it, and how many steps there are in all.
#[derive(Drop)]
pub(crate) struct Draft {
    text: Vec<u8>,
    written: u64,
    steps: u64,
}

impl Model for Draft {
    ghost use Rattle.vm_import.specs.Drafts.{DraftView};

    ghost Value = { DraftView };

    ghost view = { λ d. record { text = d.text.items; written = d.written; steps = d.steps } };
}

// Adds the two digits of the byte that an interval writes.
fn push_byte(text: &mut Vec<u8>, number: u32) -> Result<(), AllocError>
    ensures { OnOk result (text.new.items ≡ text.old.items ++ byte_of number) }
{
    let byte = (number % 256) as u8;
    text.push(hex_digit(byte / 16))?;
    text.push(hex_digit(byte % 16))?;
    Ok(())
}

// Adds the step that a touch becomes.
#[tactic(auto, unfolding(crate::specs::Steps::step_of))]
fn push_step_of(text: &mut Vec<u8>, number: u32, touch: &RankedTouch) -> Result<(), AllocError>
    ensures { OnOk result (text.new.items ≡ text.old.items ++ step_of number touch.now) }
{
    text.extend_from_slice(if touch.writes { b"w " } else { b"r " })?;
    push_decimal(text, u64::from(touch.rank))?;
    text.push(b' ')?;
    push_decimal(text, u64::from(touch.offset))?;
    text.push(b' ')?;
    if touch.writes {
        push_byte(text, number)
    } else {
        text.push(b'1')?;
        Ok(())
    }
}

// Adds what stands before a step, behind so many others.
fn begin_step(text: &mut Vec<u8>, steps: u64) -> Result<(), AllocError>
    ensures { OnOk result (text.new.items ≡ text.old.items ++ ((if steps == 0 then [] else codes ",") ++ codes "\"")) }
{
    if steps > 0 {
        text.push(b',')?;
    }
    text.push(b'"')?;
    Ok(())
}

impl Draft {
    // All up to the first step.
    pub(crate) fn new(alloc: Global, settings: &ImportSettings) -> Result<Self, AllocError>
        ensures { IfOk result (λ draft. draft ≡ record { text = head_of (settings_of settings.now); written = 0; steps = 0 }) }
    {
        let head = head_text(alloc, settings)?;
        Ok(Draft {
            text: Vec::from_slice(alloc, head.as_bytes())?,
            written: 0,
            steps: 0,
        })
    }

    // The bytes that were written and that wait, in all.
    pub(crate) fn len(&self) -> u64
        requires { self.now.written ≤ 2 ^ 32 }
        ensures exact { result ≡ self.now.written + length self.now.text }
        ensures few { result < 2 ^ 63 + 2 ^ 33 }
    {
        self.written + self.text.len() as u64
    }

    // How many steps there are.
    pub(crate) fn steps(&self) -> u64
        ensures { result ≡ self.now.steps }
    {
        self.steps
    }

    // How many bytes wait.
    pub(crate) fn waiting(&self) -> usize
        ensures { result ≡ length self.now.text }
    {
        self.text.len()
    }

    // Adds an idle step.
    fn push_idle_step(&mut self) -> Result<(), AllocError>
        requires { self.old.steps + 1 < 2 ^ 64 }
        ensures { OnOk result (self.new ≡ with_steps self.old (codes "i" ∷ [])) }
    {
        begin_step(&mut self.text, self.steps)?;
        self.text.push(b'i')?;
        self.text.push(b'"')?;
        self.steps += 1;
        Ok(())
    }

    // Adds the step that a touch becomes.
    fn push_touch(&mut self, number: u32, touch: &RankedTouch) -> Result<(), AllocError>
        requires { self.old.steps + 1 < 2 ^ 64 }
        ensures { OnOk result (self.new ≡ with_steps self.old (step_of number touch.now ∷ [])) }
    {
        begin_step(&mut self.text, self.steps)?;
        push_step_of(&mut self.text, number, touch)?;
        self.text.push(b'"')?;
        self.steps += 1;
        Ok(())
    }

    // Adds idle steps.
    pub(crate) fn push_idle(&mut self, count: u64) -> Result<(), AllocError>
        requires { self.old.steps + count < 2 ^ 64 }
        ensures { OnOk result (self.new ≡ with_steps self.old (idle_steps count)) }
    {
        for added in 0..count {
            self.push_idle_step()?;
        }
        Ok(())
    }

    // Adds the steps that touches become.
    pub(crate) fn push_touches(
        &mut self,
        number: u32,
        touches: &[RankedTouch],
    ) -> Result<(), AllocError>
        requires { self.old.steps + length touches.now < 2 ^ 64 }
        ensures { OnOk result (self.new ≡ with_steps self.old (steps_of number touches.now)) }
    {
        for touch in touches {
            self.push_touch(number, touch)?;
        }
        Ok(())
    }

    // Adds all behind the last step.
    pub(crate) fn finish(
        &mut self,
        alloc: Global,
        settings: &ImportSettings,
        size: u64,
    ) -> Result<(), AllocError>
        requires { self.old.steps < 2 ^ 63 }
        ensures { OnOk result (self.new ≡ with_text self.old (tail_of (settings_of settings.now) size self.old.steps)) }
    {
        let tail = tail_text(alloc, settings, size, self.steps)?;
        self.text.extend_from_slice(tail.as_bytes())?;
        Ok(())
    }

    // Takes the last steps away again: what is left has so many bytes that wait, and so many steps in all.
    pub(crate) fn go_back(&mut self, waiting: usize, steps: u64)
        ensures { self.new ≡ record { text = take waiting self.old.text; written = self.old.written; steps = steps } }
    {
        self.text.truncate(waiting);
        self.steps = steps;
    }

    // Writes what waits.
    pub(crate) fn write<W: Sink>(&mut self, writer: &mut W) -> Result<(), WriteFailed>
        requires { self.old.written < 2 ^ 63 }
        ensures draft { OnOk result (self.new ≡ all_written self.old) }
        ensures written { OnOk result (Appends (W.contents writer.old) (W.contents writer.new) self.old.text) }
        ensures front { OnErr result (AppendsFront (W.contents writer.old) (W.contents writer.new) self.old.text) }
        ensures failure { OnErr result (W.has_failed writer.new ≡ true) }
        ensures stays { OnOk result (W.has_failed writer.new ≡ W.has_failed writer.old) }
    {
        write_text(writer, &self.text)?;
        self.written += self.text.len() as u64;
        self.text.clear();
        Ok(())
    }
}
