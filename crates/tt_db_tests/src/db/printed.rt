//! Printed texts.
use super::same;
use tt_db::{DbError, ReadError};
use tt_values::CheckError;

#[test]
fn why_an_event_is_refused(rt: HostRuntime) {
    for (error, expected) in [
        (DbError::Statement(CheckError::NoTable), "no such table"),
        (DbError::Repairing, "a repair is under way"),
        (DbError::NotRepairing, "no repair is under way"),
        (DbError::NotCaughtUp { left: 3 }, "3 slots are left to do"),
        (DbError::NothingLeft, "no slot is left to do"),
        (DbError::NoSlot { t: 0 }, "no slot 0"),
        (DbError::EditTwice { t: 12 }, "slot 12 is edited twice"),
        (DbError::TooManyEdits, "too many edits"),
        (DbError::Full { limit: 4_000_000 }, "full at 4000000"),
        (DbError::Memory, "out of memory"),
    ] {
        let text = format!(in rt.alloc(); "{error}").expect(&rt, "memory");
        same(&rt, &text.as_str(), &expected);
    }
}

#[test]
fn why_a_read_is_not_answered(rt: HostRuntime) {
    let no_generation = ReadError::NoGeneration {
        oldest: 2,
        newest: 18,
    };
    for (error, expected) in [
        (ReadError::Statement(CheckError::NoColumn), "no such column"),
        (ReadError::NoReading, "no reading"),
        (ReadError::NotRepairing, "no repair is under way"),
        (no_generation, "no such generation: 2 to 18 can be read"),
        (ReadError::Later { now: 10 }, "later than 10"),
        (ReadError::Memory, "out of memory"),
    ] {
        let text = format!(in rt.alloc(); "{error}").expect(&rt, "memory");
        same(&rt, &text.as_str(), &expected);
    }
}
