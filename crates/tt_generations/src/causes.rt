//! Which of what is dirty is the cause that a slot is re-executed.
ghost use Rattle.std.specs.Prelude.{◌≡◌, ◌&&◌, ◌==◌, not, pred, length, option_map, find};
ghost use Rattle.std.specs.List.{All};
ghost use Rattle.std.specs.Option.{option_copied, option_and_then};
ghost use Rattle.std.specs.Ordering.{is_lt};
ghost use Rattle.tt_values.specs.Check.{HasKey};
ghost use Rattle.tt_values.specs.Action.{row_id_cmp, each_row_once};
ghost use Rattle.tt_values.specs.Effect.{table_of};
ghost use Rattle.tt_parts.specs.Partitions.{partition_of, equated_partitions};
ghost use Rattle.tt_parts.specs.Dirty.{columns_in, partition_since};
ghost use Rattle.tt_causes.specs.Causes.{Reads, Scans, write_reads, row_of_key};
ghost use Rattle.tt_causes.specs.Numbers.{is_by, row_id_since, condition_since, named_since, unclear_since, row_named_by_number, cause_by_number, cause_by_numbers};
ghost use Rattle.tt_generations.specs.SlotCauses.{cause_told, lesser_row};

use crate::cause::Cause;
use crate::since::{condition_since, named_since, slot_since, unclear_since};
use tt_parts::{Dirty, equates_partition, reads_partition};
use tt_values::{Equal, RowId, Value, Write};

/// The cause of a slot that isn't edited, touched these rows and has these writes, of those that
/// `before` slots before it may give.
pub(crate) fn cause_of_affected<'a>(
    dirty: &Dirty,
    rows: &[RowId],
    writes: &'a [Write],
    before: u64,
) -> Option<Cause<'a>>
    requires { All HasKey writes.now }
    ensures { option_map cause_told result ≡ cause_by_numbers
        dirty.now.catalog dirty.now.since rows.now writes.entry.now before }
{
    let since = slot_since(dirty, rows, writes)?;
    if since > before {
        return None;
    }
    cause_since(dirty, rows, writes, since)
}

/// The cause since a slot: the first of these that there is.
fn cause_since<'a>(
    dirty: &Dirty,
    rows: &[RowId],
    writes: &'a [Write],
    since: u64,
) -> Option<Cause<'a>>
    requires { All HasKey writes.now }
    ensures { option_map cause_told result ≡ cause_by_number
        dirty.now.catalog dirty.now.since rows.now writes.entry.now since }
{
    if let Some(RowId { table, key }) = row_touched(dirty, rows, since) {
        return Some(Cause::Wrote { table, key, since });
    }
    if let Some(RowId { table, key }) = row_named(dirty, writes, since) {
        return Some(Cause::Names { table, key, since });
    }
    if let Some(cause) = partition_read(dirty, writes, since) {
        return Some(cause);
    }
    table_scanned(dirty, writes, since)
}

/// The least row that is dirty since a slot, by table and then by key.
fn row_touched(dirty: &Dirty, rows: &[RowId], since: u64) -> Option<RowId>
    ensures { result
        ≡ find (λ r. is_by since (row_id_since dirty.now.since r)) (each_row_once rows.now) }
{
    let mut least = None;
    for row in rows {
        if is_by(since, dirty.row_since(row.table, row.key)) {
            least = Some(lesser_row(*row, least));
        }
    }
    least
}

/// The lesser of two rows, by table and then by key.
fn lesser_row(row: RowId, other: Option<RowId>) -> RowId
    ensures { result ≡ lesser_row row other }
{
    match other {
        Some(other) if !is_before(row, other) => other,
        _ => row,
    }
}

/// Whether a row comes before another, by table and then by key.
fn is_before(row: RowId, other: RowId) -> bool
    ensures { result ≡ is_lt (row_id_cmp row other) }
{
    row.table < other.table || (row.table == other.table && row.key < other.key)
}

/// The row that the first of the writes names which names a dirty one.
fn row_named(dirty: &Dirty, writes: &[Write], since: u64) -> Option<RowId>
    requires { All HasKey writes.now }
    ensures { result ≡ option_and_then (row_named_by_number dirty.now.since since)
        (find (λ w. is_by since (named_since dirty.now.since w)) writes.now) }
{
    for write in writes {
        if is_by(since, named_since(dirty, write)) {
            return row_named_by(dirty, write, since);
        }
    }
    None
}

/// The row that a write inserts, or that of its first equality with the key of a dirty row.
fn row_named_by(dirty: &Dirty, write: &Write, since: u64) -> Option<RowId>
    requires { HasKey write.now }
    ensures { result ≡ row_named_by_number dirty.now.since since write.now }
{
    match write {
        Write::Insert { table, row } => Some(RowId {
            table: *table,
            key: row.key(),
        }),
        Write::Update { table, equals, .. } => {
            row_equated(dirty, *table, equals.as_slice(), since)
        }
        Write::Delete { table, equals } => row_equated(dirty, *table, equals.as_slice(), since),
    }
}

/// The row of the first condition that is an equality with the key of a dirty row.
fn row_equated(dirty: &Dirty, table: u16, equals: &[Equal], since: u64) -> Option<RowId>
    ensures { result ≡ option_and_then (λ q. row_of_key table q.value)
        (find (λ q. is_by since (condition_since dirty.now.since table q)) equals.now) }
{
    for equal in equals {
        if is_by(since, condition_since(dirty, table, equal)) {
            return row_of_key(table, &equal.value);
        }
    }
    None
}

/// The row that has this value as its key.
fn row_of_key(table: u16, key: &Value) -> Option<RowId>
    ensures { result ≡ row_of_key table key.now }
{
    match key {
        Value::Int(key) => Some(RowId { table, key: *key }),
        Value::Text(_) => None,
    }
}

/// Of the first of the writes that reads partitions and isn't clear, the first partition that
/// wasn't dirty before the slot.
fn partition_read<'a>(dirty: &Dirty, writes: &'a [Write], since: u64) -> Option<Cause<'a>>
    requires { All HasKey writes.now }
    ensures { option_map cause_told result ≡ option_map (λ p. Reads p since)
        (option_and_then (λ w. find
        (λ p. not (is_by (pred since) (partition_since dirty.now.since p)))
        (write_reads dirty.now.catalog w))
        (find (λ w. is_by since (unclear_since dirty.now.catalog dirty.now.since w)
        && not (length (write_reads dirty.now.catalog w) == 0)) writes.entry.now)) }
{
    for write in writes {
        if is_by(since, unclear_since(dirty, write)) && !reads_all(dirty, write) {
            return partition_read_by(dirty, write, since);
        }
    }
    None
}

/// The first partition that a write reads which wasn't dirty before a slot.
fn partition_read_by<'a>(dirty: &Dirty, write: &'a Write, since: u64) -> Option<Cause<'a>>
    requires { HasKey write.now }
    ensures { option_map cause_told result ≡ option_map (λ p. Reads p since)
        (find (λ p. not (is_by (pred since) (partition_since dirty.now.since p)))
        (write_reads dirty.now.catalog write.entry.now)) }
{
    match write {
        Write::Insert { table, row } => {
            let value = row.values.get(0)?;
            if is_by(
                since.saturating_sub(1),
                dirty.partition_since(*table, 0, value),
            ) {
                return None;
            }
            Some(Cause::Reads {
                table: *table,
                column: 0,
                value,
                since,
            })
        }
        Write::Update { table, equals, .. } => {
            partition_equated(dirty, *table, equals.as_slice(), since)
        }
        Write::Delete { table, equals } => {
            partition_equated(dirty, *table, equals.as_slice(), since)
        }
    }
}

/// The first partition of an equality which wasn't dirty before a slot.
fn partition_equated<'a>(
    dirty: &Dirty,
    table: u16,
    equals: &'a [Equal],
    since: u64,
) -> Option<Cause<'a>>
    ensures { option_map cause_told result ≡ option_map (λ p. Reads p since)
        (find (λ p. not (is_by (pred since) (partition_since dirty.now.since p)))
        (equated_partitions table (columns_in dirty.now.catalog table) equals.entry.now)) }
{
    let columns = dirty.columns(table);
    for equal in equals {
        if equates_partition(columns, equal) {
            let partition = dirty.partition_since(table, equal.column, &equal.value);
            if !is_by(since.saturating_sub(1), partition) {
                return Some(Cause::Reads {
                    table,
                    column: equal.column,
                    value: &equal.value,
                    since,
                });
            }
        }
    }
    None
}

/// The table of the first of the writes that reads a whole table and isn't clear.
fn table_scanned<'a>(dirty: &Dirty, writes: &'a [Write], since: u64) -> Option<Cause<'a>>
    requires { All HasKey writes.now }
    ensures { option_map cause_told result ≡ option_map (λ w. Scans (table_of w) since)
        (find (λ w. is_by since (unclear_since dirty.now.catalog dirty.now.since w)
        && (length (write_reads dirty.now.catalog w) == 0)) writes.entry.now) }
{
    for write in writes {
        if is_by(since, unclear_since(dirty, write)) && reads_all(dirty, write) {
            let table = write.table();
            return Some(Cause::Scans { table, since });
        }
    }
    None
}

/// Whether a write reads a whole table.
fn reads_all(dirty: &Dirty, write: &Write) -> bool
    ensures { result ≡ (length (write_reads dirty.now.catalog write.now) == 0) }
{
    match write {
        Write::Insert { .. } => false,
        Write::Update { table, equals, .. } => equates_none(dirty, *table, equals.as_slice()),
        Write::Delete { table, equals } => equates_none(dirty, *table, equals.as_slice()),
    }
}

/// Whether none of the conditions is an equality on a partition column.
fn equates_none(dirty: &Dirty, table: u16, equals: &[Equal]) -> bool
    ensures { result ≡ (length (equated_partitions table
        (columns_in dirty.now.catalog table) equals.now) == 0) }
{
    !reads_partition(dirty.columns(table), equals)
}

/// Whether there is a number, and it is at most this one.
fn is_by(most: u64, number: Option<u64>) -> bool
    ensures { result ≡ is_by most number }
{
    match number {
        Some(number) => number <= most,
        None => false,
    }
}
