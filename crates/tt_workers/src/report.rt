ghost use Rattle.std.specs.Prelude.{◌≡◌, length, map};
ghost use Rattle.tt_store.specs.Calls.{numbers_from};

use tt_db::Db;
use tt_repair::{Changed, Record, Repaired};
use tt_values::Shared;

/// The result of a run in threads. The records stand by rising call.
#[derive(Drop)]
pub struct Report {
    /// The calls with their replies, by number from 1 on.
    pub records: Vec<Record>,
    /// For each record in turn, the length of the front of the history at which it is right.
    pub fronts: Vec<u64>,
    /// The repair, if the document has one.
    pub repaired: Option<Repaired>,
    /// The calls that have other replies now.
    pub changes: Vec<Changed>,
    /// The last database, with the one history.
    pub db: Shared<Db>,
    pub ghost by_call: { map (λ r. r.call) records.items
        ≡ numbers_from 1 (length records.items) },
}
