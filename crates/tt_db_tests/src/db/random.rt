//! Events that look random.
use super::model::edit_of;
use super::{ACCT, add, delete, insert, set_balance, set_owner};
use std::alloc::Global;
use std::process::Abort;
use tt_db::{Edit, Event};
use tt_values::{Action, Change, Comparison, Equal, Items, Value, Write};

/// Numbers that look random, and are the same in each run of the tests.
#[derive(Drop)]
pub(super) struct Random {
    pub(super) state: u64,
}

impl Random {
    /// The next number, below the bound.
    fn below(&mut self, bound: u32) -> u32 {
        let product = self.state.wrapping_mul(6_364_136_223_846_793_005);
        self.state = product.wrapping_add(1_442_695_040_888_963_407);
        let high = u32::try_from(self.state >> 33).unwrap_or(0);
        high.checked_rem(bound).unwrap_or(0)
    }

    fn id(&mut self) -> i64 {
        i64::from(self.below(5)).saturating_add(1)
    }

    fn balance(&mut self) -> i64 {
        i64::from(self.below(4))
    }

    fn owner(&mut self) -> &'static str {
        match self.below(3) {
            0 => "ann",
            1 => "bob",
            _ => "eve",
        }
    }

    /// An equality in half of the cases.
    fn comparison(&mut self) -> Comparison {
        match self.below(10) {
            0 => Comparison::IsNot,
            1 => Comparison::Below,
            2 => Comparison::AtMost,
            3 => Comparison::Above,
            4 => Comparison::AtLeast,
            _ => Comparison::Is,
        }
    }

    fn equal(&mut self, rt: &impl Abort, alloc: Global) -> Equal {
        let equal = match self.below(3) {
            0 => Equal::int(0, self.id()),
            1 => Equal::text(alloc, 1, self.owner()).expect(rt, "memory"),
            _ => Equal::int(2, self.balance()),
        };
        equal.with(self.comparison())
    }

    /// 0 to 2 conditions.
    fn equals(&mut self, rt: &impl Abort, alloc: Global) -> Items<Equal> {
        let mut equals = Vec::new(alloc);
        for _ in 0..self.below(3) {
            equals.push(self.equal(rt, alloc)).expect(rt, "memory");
        }
        Items::new(alloc, equals).expect(rt, "memory")
    }

    /// Changes of the owner, of the balance, or of both.
    fn changes(&mut self, rt: &impl Abort, alloc: Global) -> Items<Change> {
        let mut changes = Vec::new(alloc);
        let kind = self.below(4);
        if kind < 2 {
            let change = set_owner(rt, alloc, self.owner());
            changes.push(change).expect(rt, "memory");
        }
        if kind != 0 {
            let change = match self.below(2) {
                0 => set_balance(self.balance()),
                _ => add(self.balance().saturating_sub(2)),
            };
            changes.push(change).expect(rt, "memory");
        }
        Items::new(alloc, changes).expect(rt, "memory")
    }

    fn write(&mut self, rt: &impl Abort, alloc: Global) -> Write {
        match self.below(6) {
            0..=2 => {
                let account = (self.id(), self.owner(), self.balance());
                insert(rt, alloc, ACCT, account)
            }
            3..=4 => Write::Update {
                table: ACCT,
                changes: self.changes(rt, alloc),
                equals: self.equals(rt, alloc),
            },
            _ => delete(self.equals(rt, alloc)),
        }
    }

    /// An action of 0 to 3 writes, whole or not.
    fn action(&mut self, rt: &impl Abort, alloc: Global) -> Action {
        let mut writes = Vec::new(alloc);
        for _ in 0..self.below(4) {
            writes.push(self.write(rt, alloc)).expect(rt, "memory");
        }
        let writes = Items::new(alloc, writes).expect(rt, "memory");
        match self.below(2) {
            0 => Action::of(writes),
            _ => Action::whole(writes),
        }
    }

    /// An edit of one of the first `slots` slots.
    fn edit(&mut self, rt: &impl Abort, alloc: Global, slots: u32) -> Edit {
        let number = u64::from(self.below(slots)).saturating_add(1);
        match self.below(2) {
            0 => Edit::Cancel(number),
            _ => Edit::Replace(number, self.action(rt, alloc)),
        }
    }

    /// Up to 3 edits of the first `slots` slots, no two of the same slot.
    fn edits(&mut self, rt: &impl Abort, alloc: Global, slots: u32) -> Items<Edit> {
        let mut edits: Vec<Edit> = Vec::new(alloc);
        for _ in 0..self.below(4) {
            let edit = self.edit(rt, alloc, slots);
            if slots > 0 && edit_of(edits.as_slice(), edit.number()).is_none() {
                edits.push(edit).expect(rt, "memory");
            }
        }
        Items::new(alloc, edits).expect(rt, "memory")
    }

    /// An event for a database with `slots` slots. Most are steps, so that repairs come to an end.
    pub(super) fn event(&mut self, rt: &impl Abort, alloc: Global, slots: u32) -> Event {
        match self.below(500) {
            0..=49 => Event::Write(self.action(rt, alloc)),
            50..=109 => Event::Begin(self.edits(rt, alloc, slots)),
            110..=229 => Event::Switch,
            230 => Event::Abort,
            _ => Event::Step,
        }
    }
}
