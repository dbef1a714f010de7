/// How far a repair is.
#[derive(Clone, Copy, Debug, PartialEq, Eq)]
pub struct Progress {
    /// How many slots are done.
    pub done: u64,
    /// How many slots are left, with those that were added during the repair.
    pub left: u64,
    /// How many of the slots done were re-executed.
    pub rerun: u64,
}
