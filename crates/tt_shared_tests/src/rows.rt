//! The rows of a generation as a plain list, which is walked from the front, and what slots do to
//! it, one after another. It shares no code with the database but the types of statements and
//! replies. Statements have no faults.
use std::alloc::{AllocError, Global};
use std::mem;
use tt_values::{Action, Change, Comparison, Equal, Items, Reply, Row, Select, Value, Write};

/// The table and the key of a row.
pub type Key = (u16, i64);

/// A row of a table.
#[derive(Drop)]
struct TableRow {
    table: u16,
    row: Row,
}

/// What a slot did.
#[derive(Drop)]
pub struct Effect {
    /// The reply to each write that was carried out.
    pub replies: Items<Reply>,
    /// The rows that its writes wrote, of an undone action too.
    pub touched: Vec<Key>,
    /// The rows that its writes matched. An insert matches the row of its key.
    pub matched: Vec<Key>,
}

/// All rows, by table and key.
#[derive(Drop)]
pub struct Rows {
    rows: Vec<TableRow>,
}

/// The key of a row, which is its first value.
pub(crate) fn key_of(row: &Row) -> i64 {
    match row.values.as_slice() {
        [Value::Int(key), ..] => *key,
        _ => 0,
    }
}

fn is_before(one: Key, other: Key) -> bool {
    one.0 < other.0 || (one.0 == other.0 && one.1 < other.1)
}

/// Whether a value is less than another one of its kind.
fn is_less(value: &Value, other: &Value) -> bool {
    match (value, other) {
        (Value::Int(number), Value::Int(other)) => number < other,
        (Value::Text(text), Value::Text(other)) => text.as_str() < other.as_str(),
        (Value::Int(_), Value::Text(_)) | (Value::Text(_), Value::Int(_)) => false,
    }
}

fn is_met(equal: &Equal, value: &Value) -> bool {
    match equal.how {
        Comparison::Is => *value == equal.value,
        Comparison::IsNot => *value != equal.value,
        Comparison::Below => is_less(value, &equal.value),
        Comparison::AtMost => !is_less(&equal.value, value),
        Comparison::Above => is_less(&equal.value, value),
        Comparison::AtLeast => !is_less(value, &equal.value),
    }
}

fn is_match(equals: &[Equal], row: &Row) -> bool {
    for equal in equals {
        let Some(value) = row.values.get(usize::from(equal.column)) else {
            return false;
        };
        if !is_met(equal, value) {
            return false;
        }
    }
    true
}

/// Whether this is the reply to a write without an effect.
fn has_no_effect(reply: &Reply) -> bool {
    match reply {
        Reply::Duplicate => true,
        Reply::Updated(count) | Reply::Deleted(count) => *count == 0,
        Reply::Inserted | Reply::Rows(_) => false,
    }
}

/// A row with these changes.
fn changed(alloc: Global, row: &Row, changes: &[Change]) -> Result<Row, AllocError> {
    let mut values = Vec::new(alloc);
    for (column, value) in row.values.as_slice().iter().enumerate() {
        values.push(changed_value(column, value, changes)?)?;
    }
    let values = Items::new(alloc, values)?;
    Ok(Row { values })
}

fn changed_value(column: usize, value: &Value, changes: &[Change]) -> Result<Value, AllocError> {
    for change in changes {
        match change {
            Change::Set {
                column: changed,
                value,
            } => if usize::from(*changed) == column {
                return value.copy();
            },
            Change::Add {
                column: changed,
                by,
            } => if usize::from(*changed) == column {
                return sum(value, *by);
            },
        }
    }
    value.copy()
}

/// A value with a number added. It is no text, since statements have no faults.
fn sum(value: &Value, by: i64) -> Result<Value, AllocError> {
    match value {
        Value::Int(number) => Ok(Value::Int(number.saturating_add(by))),
        Value::Text(_) => value.copy(),
    }
}

impl TableRow {
    fn key(&self) -> Key {
        (self.table, key_of(&self.row))
    }

    fn copy(&self) -> Result<TableRow, AllocError> {
        Ok(TableRow {
            table: self.table,
            row: self.row.copy()?,
        })
    }

    /// Whether it is a row of this table that matches.
    fn meets(&self, table: u16, equals: &[Equal]) -> bool {
        self.table == table && is_match(equals, &self.row)
    }
}

impl Effect {
    /// Nothing was done.
    pub fn none(alloc: Global) -> Result<Effect, AllocError> {
        Ok(Effect {
            replies: Items::of(alloc, [])?,
            touched: Vec::new(alloc),
            matched: Vec::new(alloc),
        })
    }

    /// A row was matched, and written.
    fn write(&mut self, key: Key) -> Result<(), AllocError> {
        self.matched.push(key)?;
        self.touched.push(key)?;
        Ok(())
    }
}

impl Rows {
    /// No rows.
    pub fn new(alloc: Global) -> Rows {
        Rows {
            rows: Vec::new(alloc),
        }
    }

    /// The same rows once more.
    pub fn copy(&self, alloc: Global) -> Result<Rows, AllocError> {
        let mut rows = Vec::new(alloc);
        for row in &self.rows {
            rows.push(row.copy()?)?;
        }
        Ok(Rows { rows })
    }

    /// The row of a key, if it is there.
    pub(crate) fn row(&self, key: Key) -> Option<&Row> {
        for row in &self.rows {
            if row.key() == key {
                return Some(&row.row);
            }
        }
        None
    }

    /// The reply to a select: the rows that match, in order.
    pub fn select(&self, alloc: Global, select: &Select) -> Result<Reply, AllocError> {
        let mut rows = Vec::new(alloc);
        for row in &self.rows {
            if row.meets(select.table, select.equals.as_slice()) {
                rows.push(row.row.copy()?)?;
            }
        }
        Ok(Reply::Rows(Items::new(alloc, rows)?))
    }

    /// Whether this is the reply to a select.
    pub fn are(&self, select: &Select, reply: &Reply) -> bool {
        let Reply::Rows(told) = reply else {
            return false;
        };
        let mut position = 0usize;
        for row in &self.rows {
            if row.meets(select.table, select.equals.as_slice()) {
                if told.get(position) != Some(&row.row) {
                    return false;
                }
                position = position.saturating_add(1);
            }
        }
        position == told.len()
    }

    /// Carries out the writes of an action in order. If one of a whole action has no effect, the
    /// rows are again those from before, and the writes after it aren't carried out. After an `Err`
    /// some rows may be missing.
    pub fn carry_out(&mut self, alloc: Global, action: &Action) -> Result<Effect, AllocError> {
        let before = if action.whole {
            self.copy(alloc)?
        } else {
            Rows::new(alloc)
        };
        let mut effect = Effect::none(alloc)?;
        let mut replies = Vec::new(alloc);
        for write in action.writes.as_slice() {
            let reply = self.write(alloc, write, &mut effect)?;
            let is_undone = action.whole && has_no_effect(&reply);
            replies.push(reply)?;
            if is_undone {
                *self = before;
                break;
            }
        }
        effect.replies = Items::new(alloc, replies)?;
        Ok(effect)
    }

    fn write(
        &mut self,
        alloc: Global,
        write: &Write,
        effect: &mut Effect,
    ) -> Result<Reply, AllocError> {
        match write {
            Write::Insert { table, row } => self.insert(alloc, *table, row, effect),
            Write::Update {
                table,
                changes,
                equals,
            } => {
                let changes = Some(changes.as_slice());
                let count = self.replace(alloc, *table, equals.as_slice(), changes, effect)?;
                Ok(Reply::Updated(count))
            }
            Write::Delete { table, equals } => {
                let count = self.replace(alloc, *table, equals.as_slice(), None, effect)?;
                Ok(Reply::Deleted(count))
            }
        }
    }

    fn insert(
        &mut self,
        alloc: Global,
        table: u16,
        row: &Row,
        effect: &mut Effect,
    ) -> Result<Reply, AllocError> {
        let key = (table, key_of(row));
        if self.row(key).is_some() {
            effect.matched.push(key)?;
            return Ok(Reply::Duplicate);
        }
        effect.write(key)?;
        let row = row.copy()?;
        self.put(alloc, TableRow { table, row })?;
        Ok(Reply::Inserted)
    }

    /// Puts a new row behind those before it.
    fn put(&mut self, alloc: Global, new: TableRow) -> Result<(), AllocError> {
        let key = new.key();
        let mut behind = Vec::new(alloc);
        for row in mem::replace(&mut self.rows, Vec::new(alloc)) {
            if is_before(row.key(), key) {
                self.rows.push(row)?;
            } else {
                behind.push(row)?;
            }
        }
        self.rows.push(new)?;
        for row in behind {
            self.rows.push(row)?;
        }
        Ok(())
    }

    /// Changes the rows that match, or removes them where there are no changes. Returns how many
    /// there were.
    fn replace(
        &mut self,
        alloc: Global,
        table: u16,
        equals: &[Equal],
        changes: Option<&[Change]>,
        effect: &mut Effect,
    ) -> Result<u32, AllocError> {
        let mut count = 0u32;
        for row in mem::replace(&mut self.rows, Vec::new(alloc)) {
            if !row.meets(table, equals) {
                self.rows.push(row)?;
                continue;
            }
            count = count.saturating_add(1);
            effect.write(row.key())?;
            if let Some(changes) = changes {
                let row = changed(alloc, &row.row, changes)?;
                self.rows.push(TableRow { table, row })?;
            }
        }
        Ok(count)
    }
}
