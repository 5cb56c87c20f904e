//! A kind of job that is run with a tool.
ghost use Rattle.std.specs.Prelude.{◌≡◌};

/// A job that is run once, with a tool, and leaves its result.
///
/// A tool serves one job after another: whatever it served before a run, it serves after it.
pub trait Task {
    /// What a thread has of its own, and lends to each job that it runs.
    type Tool: Send;

    /// What a job leaves. Nobody but `run` makes one.
    type Done: Drop + Send;

    /// The tool can serve the job.
    ghost serves: { Self.Tool → Self → Type 0 };

    /// The result of a job, as contracts see both.
    ghost result_of: { Self → Self.Done };

    /// Runs the job.
    fn run(self, tool: &mut Self::Tool) -> Self::Done
        requires { serves tool.old self }
        ensures result { result ≡ result_of self }
        ensures tool { (other : Self) → serves tool.old other → serves tool.new other };
}
