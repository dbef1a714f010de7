//! What a history has come to at each of its fronts, without any database.
use std::alloc::Global;
use std::process::Abort;
use tt_db::{Db, Edit, Entry, Event};
use tt_values::Action;

/// What a history has come to at a front.
#[derive(Clone, Copy, Debug, PartialEq, Eq)]
pub(super) struct At {
    /// How many slots there are.
    pub(super) now: u64,
    /// How many of them the repair has done, while it is under way.
    pub(super) done: Option<u64>,
    /// Whether the repair has made its generation the current one.
    pub(super) is_switched: bool,
}

/// The switch of a history.
#[derive(Clone, Copy, Debug, PartialEq, Eq)]
pub(super) struct Switch {
    pub(super) place: u64,
    /// How many slots there were.
    pub(super) slots: u64,
}

/// A history with one repair.
#[derive(Drop)]
pub(super) struct History<'a> {
    entries: &'a Db,
    /// What it has come to at each front, from the empty one on.
    fronts: Vec<At>,
    /// The actions of its slots.
    pub(super) actions: Vec<&'a Action>,
    pub(super) edits: &'a [Edit],
    /// The place of the entry that begins the repair.
    pub(super) begin: u64,
    pub(super) switch: Switch,
}

impl At {
    /// What a history has come to with one more entry. Each step does a slot that is there, and the
    /// switch comes when all are done; nothing else is right.
    fn next(self, rt: &impl Abort, event: &Event) -> At {
        match (event, self.done) {
            (Event::Write(_), done) => At {
                now: self.now.saturating_add(1),
                done,
                is_switched: self.is_switched,
            },
            (Event::Begin(_), None) => self.with(Some(0), false),
            (Event::Step, Some(done)) if done < self.now => {
                self.with(Some(done.saturating_add(1)), false)
            }
            (Event::Switch, Some(done)) if done == self.now => self.with(None, true),
            _ => panic!(rt; "{event:?}"),
        }
    }

    fn with(self, done: Option<u64>, is_switched: bool) -> At {
        At {
            now: self.now,
            done,
            is_switched,
        }
    }
}

impl<'a> History<'a> {
    pub(super) fn of(rt: &impl Abort, alloc: Global, entries: &'a Db) -> History<'a> {
        let start = At {
            now: 0,
            done: None,
            is_switched: false,
        };
        let mut history = History {
            entries,
            fronts: vec![in alloc; start].expect(rt, "memory"),
            actions: Vec::new(alloc),
            edits: &[],
            begin: 0,
            switch: Switch { place: 0, slots: 0 },
        };
        let mut at = start;
        for before in 0..entries.events() {
            let place = before.saturating_add(1);
            let entry = entries.entry(place).expect(rt, "an entry");
            at = at.next(rt, &entry.event);
            history.push(rt, place, at, &entry.event);
        }
        history
    }

    /// Takes an entry in, with which the history has come to `at`.
    fn push(&mut self, rt: &impl Abort, place: u64, at: At, event: &'a Event) {
        self.fronts.push(at).expect(rt, "memory");
        match event {
            Event::Write(action) => self.actions.push(action).expect(rt, "memory"),
            Event::Begin(edits) => {
                self.begin = place;
                self.edits = edits.as_slice();
            }
            Event::Switch => {
                self.switch = Switch {
                    place,
                    slots: at.now,
                }
            }
            _ => (),
        }
    }

    /// What it has come to at a front.
    pub(super) fn at(&self, rt: &impl Abort, front: u64) -> At {
        *self.fronts.get(front as usize).expect(rt, "a front")
    }

    /// The entry behind a front.
    pub(super) fn next(&self, front: u64) -> Option<&'a Entry> {
        self.entries.entry(front.checked_add(1)?)
    }

    /// How many slots there are at its end.
    pub(super) fn slots(&self) -> usize {
        self.actions.len()
    }

    /// The edit of a slot, if there is one.
    pub(super) fn edit(&self, slot: u64) -> Option<&'a Edit> {
        for edit in self.edits {
            if edit.number() == slot {
                return Some(edit);
            }
        }
        None
    }
}
