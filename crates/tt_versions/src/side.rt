/// The two sides of a table.
#[derive(Clone, Copy, Debug, PartialEq, Eq)]
pub enum Side {
    /// The generation that is current.
    Current,
    /// The generation that is being built.
    Next,
}
