use std::alloc::AllocError;
use tt_pages::Kept;
use tt_values::Row;

/// A version of a row: it is visible from its start on, until the next version starts.
#[derive(Debug, Drop)]
pub(crate) struct Version {
    /// The time of the write that started it.
    pub(crate) start: u64,
    /// None where the write deleted the row.
    pub(crate) row: Option<Row>,
}

impl Kept for Version {
    #[inline(always)]
    fn kept(&self) -> Result<Self, AllocError> {
        let row = match &self.row {
            Some(row) => Some(row.copy()?),
            None => None,
        };
        Ok(Version {
            start: self.start,
            row,
        })
    }
}
