//! The change of a dirty set that returns a changed set and leaves this one as it was. It is part
//! of the public surface; no library above calls it.
ghost use Rattle.std.specs.Prelude.{◌≡◌, ◌<◌, length, IfOk};
ghost use Rattle.std.specs.Option.{option_copied};

use crate::dirty::Dirty;
use std::alloc::AllocError;
use tt_values::Row;

impl Dirty {
    ghost use Rattle.tt_parts.specs.Dirty.{SameMembers, NumbersAgree, IsSinceWithRow, columns_in, with_row_in};

    /// The set after a row gets dirty too: the row with that key, the partition of the key, and the
    /// partitions that the row lies in by its contents before and after, where it has any. They get
    /// this number, of a slot say, and those that were dirty already keep the one that they have.
    pub fn with_row(
        &self,
        table: u16,
        key: i64,
        number: u64,
        before: Option<&Row>,
        after: Option<&Row>,
    ) -> Result<Dirty, AllocError>
        requires { table < length self.now.catalog }
        ensures catalog { IfOk result (λ d. d.catalog ≡ self.now.catalog) }
        ensures dirty { IfOk result (λ d. SameMembers d.dirty (with_row_in self.now table key
            (option_copied before.entry) (option_copied after.entry))) }
        ensures since { IfOk result (λ d. IsSinceWithRow self.now.since table
            (columns_in self.now.catalog table) key
            (option_copied before.entry) (option_copied after.entry) number d.since) }
        ensures agree { IfOk result (λ d. NumbersAgree d.dirty d.since) }
    {
        let mut dirty = self.share()?;
        dirty.add_row(table, key, number, before, after)?;
        Ok(dirty)
    }
}
