/// A repair that was made.
#[derive(Clone, Copy, Debug, PartialEq, Eq)]
pub struct Repaired {
    /// The generation that is now current.
    pub generation: u64,
    /// The place of its switch in the history.
    pub place: u64,
    /// How many slots the generation has.
    pub slots: u64,
    /// How many of these slots were re-executed.
    pub rerun: u64,
}
