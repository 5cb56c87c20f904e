//! Drawing and finishing.
ghost use Rattle.std.specs.Prelude.{◌≡◌, ◌++◌, ℕ, List, IfSome, IfNone, IsNone, Some, true, false};
ghost use Rattle.vm_board.specs.Boards.{IsPassOf, IsIdle, IsOver, IsDraw, IsResult, ended, empty_handed};
ghost use Rattle.vm_board.specs.Gates.{HasPassed, Rises};

use crate::board::Board;
use crate::gate::{Gate, pass_through};
use crate::pass::Pass;
use crate::plays::{Brief, Draw, Finish};
use crate::work::Work;
use std::marker::Brand;

impl<J: Work> Board<J> {
    /// Takes a number that waits, with the job that was put there, by one atomic step.
    ///
    /// The numbers that a pass draws rise. It gives `None` only where the pass has found the ticket word at the number
    /// of jobs or more, and the pass is then over; a pass that is over gets `None` without a step.
    pub fn draw(&self, pass: &mut Pass<J>) -> Option<(u32, J)>
        requires { IsIdle self.now pass.old }
        ensures drawn { IfSome result (λ r. IsDraw self.now pass.old r pass.new) }
        ensures ready { IfSome result (λ r. J.ready r.1) }
        ensures none { IfNone result (pass.new ≡ ended pass.old) }
        ensures over { pass.old.over ≡ true → IsNone result }
    {
        if pass.over {
            return None;
        }
        self.draw_as::<Brand>(pass)
    }

    fn draw_as<B: Brief<J>>(&self, pass: &mut Pass<J>) -> Option<(u32, J)>
        requires jobs { self.now.jobs ≡ B.jobs }
        requires pass { IsIdle self.now pass.old × (pass.old.over ≡ false) }
        ensures drawn { IfSome result (λ r. IsDraw self.now pass.old r pass.new) }
        ensures ready { IfSome result (λ r. J.ready r.1) }
        ensures none { IfNone result (pass.new ≡ ended pass.old) }
    {
        let words = &self.table.shared;
        let found = words.fetch_add::<Draw<B>>(&mut pass.seat, 0, 1);
        if found >= self.table.slot_count() as u64 {
            pass.over = true;
            return None;
        }
        let job = words.exchange(&mut pass.seat, found as usize, None);
        Some((found as u32, job.unwrap()))
    }

    /// Gives back the job of the number in hand, after it was run, by one atomic step.
    pub fn finish(&self, pass: &mut Pass<J>, number: u32, job: J)
        requires pass { IsPassOf self.now pass.old }
        requires number { pass.old.number ≡ Some number }
        requires done { IsResult J.pieces J.piece self.now number job }
        ensures { pass.new ≡ empty_handed pass.old }
    {
        let words = &self.table.shared;
        match words.exchange(&mut pass.seat, number as usize, Some(job)) {
            None => {}
            Some(_) => unreachable!(),
        }
        words.store::<Finish>(&mut pass.seat, number as usize + 1, 1);
    }

    /// Draws, enters the gate, runs, leaves the gate and finishes, until no number is left.
    ///
    /// It may wait only where the gate does.
    pub fn drain<G: Gate>(&self, gate: &G, pass: &mut Pass<J>)
        requires { IsIdle self.now pass.old }
        ensures over { IsOver self.now pass.new }
        ensures passed { (numbers : List ℕ) × (pass.new.drawn ≡ pass.old.drawn ++ numbers) × HasPassed G.passed numbers }
        ensures rises { Rises pass.old.drawn → Rises pass.new.drawn }
    {
        let mut outside = gate.arrive();
        while let Some((number, mut job)) = self.draw(pass) {
            outside = pass_through(gate, outside, number, &mut job);
            self.finish(pass, number, job);
        }
    }
}
