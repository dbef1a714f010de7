//! The records of the last calls.
ghost use Rattle.std.specs.Prelude.{◌≡◌, ◌≤◌, ◌++◌, ◌∷◌, [], length, drop, slice_get, Some, None, if◌then◌else◌, OnOk, OnErr};
ghost use Rattle.std.specs.Option.{option_copied};
ghost use Rattle.tt_commands.specs.Records.{last_records, rows_of_record, rows_of_records};
ghost use Rattle.tt_commands.specs.Changes.{moved_what, moved_record, records_behind};
ghost use Rattle.tt_commands.specs.ChangeEntries.{first_call};

use std::alloc::{AllocError, Global};
use std::collections::VecDeque;
use std::marker::Model;
use tt_records::{Record, What};
use tt_values::Reply;

/// How many rows the records that are kept have together at most.
const MAX_RECORD_ROWS: u64 = 1_000_000;

/// Records of calls, the oldest first.
#[derive(Drop)]
pub(crate) struct Records {
    queue: VecDeque<Record>,
    /// How many rows they have together.
    rows: u64,
}

impl Model for Records {
    ghost use Rattle.std.specs.Prelude.{◌≡◌, ◌≤◌, List};
    ghost use Rattle.tt_records.specs.declared.record.Record.{Record};
    ghost use Rattle.tt_commands.specs.Records.{max_record_rows, rows_of_records};

    ghost Value = { List Record };

    ghost view = { λ r. r.queue.items };

    ghost invariant = { λ r. (r.rows ≡ rows_of_records r.queue.items)
        × (r.rows ≤ max_record_rows) };
}

impl Records {
    /// No records. Takes no memory.
    pub(crate) fn new(alloc: Global) -> Records
        ensures { result ≡ [] }
    {
        Records {
            queue: VecDeque::new(alloc),
            rows: 0,
        }
    }

    /// Adds the record of the latest call, and keeps the latest records: at most this many, with at
    /// most [`MAX_RECORD_ROWS`] rows. Where memory runs out, the records stay as they are.
    pub(crate) fn put(&mut self, latest: Record, most: usize) -> Result<(), AllocError>
        ensures ok { OnOk result (self.new ≡ last_records most (self.old ++ latest ∷ [])) }
        ensures err { OnErr result (self.new ≡ self.old) }
    {
        let rows = rows_of_record(&latest);
        if rows > MAX_RECORD_ROWS {
            self.clear();
            return Ok(());
        }
        match self.queue.push_back(latest) {
            Ok(()) => {
                self.rows += rows;
                keep_last(&mut self.queue, &mut self.rows, most);
                Ok(())
            }
            Err(_) => Err(AllocError),
        }
    }

    /// Keeps none of the records.
    fn clear(&mut self)
        ensures { self.new ≡ [] }
    {
        self.queue.clear();
        self.rows = 0;
    }

    /// Keeps the latest records, at most this many.
    pub(crate) fn keep_last(&mut self, most: usize)
        ensures { self.new ≡ last_records most self.old }
    {
        keep_last(&mut self.queue, &mut self.rows, most);
    }

    /// Keeps the records that are still there behind a time, where the slots up to it have become a
    /// ground of this size. Takes no memory.
    pub(crate) fn forget_before(&mut self, time: u64, ground_slots: u64)
        requires { ground_slots ≤ time }
        ensures { self.new ≡ records_behind time ground_slots self.old }
    {
        for _ in 0..self.queue.len() {
            let Some(mut oldest) = self.queue.pop_front() else {
                unreachable!()
            };
            let rows = rows_of_record(&oldest);
            if move_record(&mut oldest, time, ground_slots) {
                self.queue.push_back_reserved(oldest);
            } else {
                self.rows -= rows;
            }
        }
    }

    /// How many records there are.
    pub(crate) fn len(&self) -> usize
        ensures { result ≡ length self.now }
    {
        self.queue.len()
    }

    /// The record at an index, from 0, if it is there.
    pub(crate) fn get(&self, index: usize) -> Option<&Record>
        ensures { option_copied result ≡ slice_get self.now index }
    {
        self.queue.get(index)
    }

    /// The call of the first record, or this call where there is none.
    pub(crate) fn first_call(&self, call: u64) -> u64
        ensures { result ≡ first_call self.now call }
    {
        match self.queue.front() {
            Some(first) => first.call,
            None => call,
        }
    }
}

/// Keeps the latest of some records: at most this many, with at most [`MAX_RECORD_ROWS`] rows.
fn keep_last(queue: &mut VecDeque<Record>, rows: &mut u64, most: usize)
    requires { rows.old ≡ rows_of_records queue.old.items }
    ensures records { queue.new.items ≡ last_records most queue.old.items }
    ensures rows { rows.new ≡ rows_of_records queue.new.items }
{
    while queue.len() > most || *rows > MAX_RECORD_ROWS {
        pop_oldest(queue, rows);
    }
}

/// Lets the oldest record go, if there is one.
fn pop_oldest(queue: &mut VecDeque<Record>, rows: &mut u64)
    requires { rows.old ≡ rows_of_records queue.old.items }
    ensures records { queue.new.items ≡ drop 1 queue.old.items }
    ensures rows { rows.new ≡ rows_of_records queue.new.items }
{
    if let Some(oldest) = queue.pop_front() {
        *rows -= rows_of_record(&oldest);
    }
}

/// How many rows a record has: those that answered its select.
fn rows_of_record(kept: &Record) -> u64
    ensures { result ≡ rows_of_record kept.now }
{
    match &kept.what {
        What::Read {
            reply: Reply::Rows(rows),
            ..
        } => rows.len() as u64,
        _ => 0,
    }
}

/// Moves a record behind a time. Returns whether it is still there.
fn move_record(kept: &mut Record, time: u64, ground_slots: u64) -> bool
    requires { ground_slots ≤ time }
    ensures { (if result then Some kept.new else None)
        ≡ moved_record time ground_slots kept.old }
{
    move_what(&mut kept.what, time, ground_slots)
}

/// Moves what a record tells behind a time, where the slots up to it have become a ground of this
/// size. Returns whether it is still there.
fn move_what(what: &mut What, time: u64, ground_slots: u64) -> bool
    requires { ground_slots ≤ time }
    ensures { (if result then Some what.new else None) ≡ moved_what time ground_slots what.old }
{
    match what {
        What::Write { slot, .. } => {
            if *slot <= time {
                return false;
            }
            *slot = *slot - time + ground_slots;
            true
        }
        What::Read { time: at, .. } => {
            if *at < time {
                return false;
            }
            *at = *at - time + ground_slots;
            true
        }
        What::Preview { .. } | What::Later { .. } | What::NotRepairing => true,
    }
}
