// Who works on the epochs of a run.
ghost use Rattle.std.specs.Prelude.{◌≤◌};

// The runtime that starts threads, the gate that each guest passes, and the number of workers, the caller among them.
#[derive(Drop)]
pub(crate) struct Crew<'a, RT, G> {
    pub(crate) rt: &'a RT,
    pub(crate) gate: &'a G,
    pub(crate) workers: u32,
    ghost some_workers: { 1 ≤ workers },
    ghost few_workers: { workers ≤ 64 },
}
