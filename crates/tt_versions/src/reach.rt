/// Which rows of a table a search reads.
#[derive(Debug, Clone, Copy, PartialEq, Eq)]
pub(crate) enum Reach {
    /// Those of the current side after its last write.
    Latest,
    /// Those of any time and side.
    Any,
}
