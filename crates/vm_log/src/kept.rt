// What is kept of a guest while an epoch is open.
use vm_recorded::Counts;
use vm_steer::Rules;

// What a guest was when the last epoch ended: so the open one can be taken back.
#[derive(Clone, Copy, Debug)]
pub(crate) struct Kept {
    pub(crate) rules: Rules,
    // Whether it was steered in no sample yet.
    pub(crate) is_new: bool,
    pub(crate) first: u32,
    pub(crate) size: u32,
    // How many uses it had.
    pub(crate) length: usize,
    // What these come to.
    pub(crate) counts: Counts,
}
