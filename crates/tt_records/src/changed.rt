use tt_values::{Items, Reply};

/// A call whose answer has changed.
#[derive(Debug, PartialEq, Drop)]
pub struct Changed {
    /// The number of the call.
    pub call: u64,
    /// The replies as they were. A read has one.
    pub before: Items<Reply>,
    /// What stands in their place.
    pub after: After,
}

/// What stands in the place of replies.
#[derive(Debug, PartialEq, Drop)]
pub enum After {
    /// The slot was cancelled, so there is no reply.
    Cancelled,
    /// Other replies. A read has one.
    Replies(Items<Reply>),
}
