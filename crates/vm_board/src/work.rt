//! A kind of job.
ghost use Rattle.std.specs.Prelude.{◌≡◌, ℕ};
ghost use Rattle.vm_board.specs.Pieces.{finished};

/// A job that is done in numbered pieces, one after another. Its result is all its pieces, in order.
pub trait Work {
    /// What a job has to meet before it is run.
    ghost ready: { Self → Type 0 };

    /// How many pieces a job has.
    ghost pieces: { Self → ℕ };

    /// A job after its piece of this number.
    ghost piece: { ℕ → Self → Self };

    /// Does every piece of the job, from piece 0 on.
    fn run(&mut self)
        requires { ready self.old }
        ensures { self.new ≡ finished pieces piece self.old };
}
