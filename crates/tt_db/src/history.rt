//! The history: the accepted entries in order, and at which places the slots were made.
ghost use Rattle.std.specs.Prelude.{◌≡◌, ◌<◌, ◌+◌, [], ◌++◌, ◌∷◌, length, slice_get, take, drop, replicate, IfOk, OnOk, IsTrue, IsFalse};
ghost use Rattle.std.specs.Option.{option_copied};
ghost use Rattle.tt_db.specs.Database.{nth_item};
ghost use Rattle.tt_db.specs.Steps.{step_by};
ghost use Rattle.tt_db.specs.History.{is_write, write_places, writes_before_others, last_beginner, beginner_after, AllBelow, NoneBelow, IsCut};

use crate::event::{Entry, Event};
use std::alloc::{AllocError, Global};
use std::marker::Model;
use tt_pages::PagedLog;

/// The accepted entries. A write costs nothing beside its entry; any other entry costs a number.
#[derive(Drop)]
pub(crate) struct History {
    entries: PagedLog<Entry>,
    /// For each entry that isn't a write, how many writes are before it. These numbers don't fall.
    write_counts: PagedLog<u64>,
    /// The worker that began the last repair; 0 where none was begun.
    beginner: u32,
}

impl Model for History {
    ghost use Rattle.std.specs.Prelude.{◌≡◌, List};
    ghost use Rattle.tt_db.specs.declared.event.Entry.{Entry};
    ghost use Rattle.tt_db.specs.History.{writes_before_others, last_beginner};

    ghost Value = { List Entry };

    ghost view = { λ h. h.entries };

    ghost invariant = { λ h. (h.write_counts ≡ writes_before_others 0 h.entries)
        × (h.beginner ≡ last_beginner h.entries) };
}

impl History {
    /// No entries. Takes no memory.
    pub(crate) fn new(alloc: Global) -> History
        ensures { result ≡ [] }
    {
        History {
            entries: PagedLog::new(alloc),
            write_counts: PagedLog::new(alloc),
            beginner: 0,
        }
    }

    /// How many entries there are.
    pub(crate) fn len(&self) -> usize
        ensures { result ≡ length self.now }
    {
        self.entries.len()
    }

    /// The entry at a position, counted from 0.
    pub(crate) fn get(&self, position: usize) -> Option<&Entry>
        ensures { option_copied result ≡ slice_get self.now position }
    {
        self.entries.get(position)
    }

    /// The worker that began the last repair; 0 where none was begun. Takes no memory.
    pub(crate) fn last_beginner(&self) -> u32
        ensures { result ≡ last_beginner self.now }
    {
        self.beginner
    }

    /// Another owner of the same entries. Copies none of them.
    pub(crate) fn share(&self) -> Result<History, AllocError>
        ensures { IfOk result (λ h. h ≡ self.now) }
    {
        let entries = self.entries.share()?;
        let write_counts = self.write_counts.share()?;
        Ok(History {
            entries,
            write_counts,
            beginner: self.beginner,
        })
    }

    /// Adds an entry. Without memory there are no entries afterwards.
    pub(crate) fn push(&mut self, alloc: Global, entry: Entry) -> Result<(), AllocError>
        ensures { OnOk result (self.new ≡ self.old ++ entry ∷ []) }
    {
        let beginner = beginner_after(self.beginner, &entry);
        let pushed = push_entry(&mut self.entries, &mut self.write_counts, entry);
        self.beginner = beginner;
        if pushed.is_err() {
            *self = History::new(alloc);
        }
        pushed
    }

    /// Adds this many steps of a worker. Without memory there are no entries afterwards.
    pub(crate) fn push_steps(
        &mut self,
        alloc: Global,
        worker: u32,
        count: u64,
    ) -> Result<(), AllocError>
        ensures { OnOk result (self.new ≡ self.old ++ replicate count (step_by worker)) }
    {
        let pushed = push_steps(&mut self.entries, &mut self.write_counts, worker, count);
        if pushed.is_err() {
            *self = History::new(alloc);
        }
        pushed
    }

    /// The place, counted from 1, of the write of a number, counted from 1. Takes no memory, and
    /// time logarithmic in the number of entries that are no writes.
    pub(crate) fn place_of_write(&self, number: u64) -> Option<u64>
        ensures { result ≡ nth_item (write_places 1 self.now) number }
    {
        let writes = self.entries.len() - self.write_counts.len();
        if number == 0 || number > writes as u64 {
            return None;
        }
        Some(number + self.others_before(number) as u64)
    }

    /// How many entries before the write of a number aren't writes: those with fewer writes before
    /// them.
    fn others_before(&self, number: u64) -> usize
        ensures { IsCut (writes_before_others 0 self.now) number result }
    {
        let mut low = 0;
        let mut high = self.write_counts.len();
        while low < high {
            let middle = low + (high - low) / 2;
            if self.has_fewer(middle, number) {
                low = middle + 1;
            } else {
                high = middle;
            }
        }
        low
    }

    /// Whether fewer writes than a number are before the other entry at a position.
    fn has_fewer(&self, position: usize, number: u64) -> bool
        requires { position < length (writes_before_others 0 self.now) }
        ensures front { IsTrue result
            → AllBelow number (take (position + 1) (writes_before_others 0 self.now)) }
        ensures rest { IsFalse result
            → NoneBelow number (drop position (writes_before_others 0 self.now)) }
    {
        match self.write_counts.get(position) {
            Some(writes) => *writes < number,
            None => false,
        }
    }
}

/// Adds an entry to the entries, and the number of writes before it to the others' numbers, where
/// it isn't a write.
fn push_entry(
    entries: &mut PagedLog<Entry>,
    write_counts: &mut PagedLog<u64>,
    entry: Entry,
) -> Result<(), AllocError>
    requires { write_counts.old ≡ writes_before_others 0 entries.old }
    ensures entries { OnOk result (entries.new ≡ entries.old ++ entry ∷ []) }
    ensures counts { OnOk result (write_counts.new ≡ writes_before_others 0 entries.new) }
{
    if !is_write(&entry.event) {
        let writes = entries.len() - write_counts.len();
        write_counts.push(writes as u64)?;
    }
    entries.push(entry)?;
    Ok(())
}

/// Adds this many steps of a worker, as [`push_entry`] adds one, but a page of them at a time.
fn push_steps(
    entries: &mut PagedLog<Entry>,
    write_counts: &mut PagedLog<u64>,
    worker: u32,
    count: u64,
) -> Result<(), AllocError>
    requires { write_counts.old ≡ writes_before_others 0 entries.old }
    ensures entries { OnOk result
        (entries.new ≡ entries.old ++ replicate count (step_by worker)) }
    ensures counts { OnOk result (write_counts.new ≡ writes_before_others 0 entries.new) }
{
    let writes = (entries.len() - write_counts.len()) as u64;
    write_counts.push_copies(&writes, count as usize)?;
    let event = Event::Step;
    entries.push_copies(&Entry { worker, event }, count as usize)?;
    Ok(())
}

/// The worker that began the last repair, where this one had begun the last before an entry.
fn beginner_after(before: u32, entry: &Entry) -> u32
    ensures { result ≡ beginner_after before entry.now }
{
    match &entry.event {
        Event::Begin(_) => entry.worker,
        _ => before,
    }
}

/// Whether an event is a write.
fn is_write(event: &Event) -> bool
    ensures { result ≡ is_write event.now }
{
    match event {
        Event::Write(_) => true,
        _ => false,
    }
}
