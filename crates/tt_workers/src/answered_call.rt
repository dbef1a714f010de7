use tt_repair::Record;

/// A call as it is recorded, with its reply, and the length of the front of the history at which
/// the record is right.
#[derive(Drop)]
pub(crate) struct AnsweredCall {
    pub(crate) answer: Record,
    pub(crate) front: u64,
}
