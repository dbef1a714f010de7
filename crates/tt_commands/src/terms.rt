/// What the opening of a session has asked for, beside its database.
#[derive(Clone, Copy, Debug)]
pub struct Terms {
    /// How many records are kept at most.
    pub most_records: u32,
}
