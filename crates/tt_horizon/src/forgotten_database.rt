use tt_db::Db;

/// A database that has forgotten what lies before a time.
#[derive(Drop)]
pub struct Forgotten {
    /// The database from then on: its first slots are the ground, and the others are the slots
    /// behind the time, in order.
    pub db: Db,
    /// How many slots the ground is: at most as many as the slots that were forgotten.
    pub ground_slots: u64,
}
