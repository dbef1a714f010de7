/// The repair that lines of a report tell of.
#[derive(Clone, Copy, Debug, PartialEq, Eq)]
pub enum ToldRepair {
    /// The one under way.
    UnderWay,
    /// The one that closed the generation of this number.
    ThatClosed(u64),
}
