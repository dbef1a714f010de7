//! Printed texts.
use super::same;
use std::test::*;
use tt_db::DbError;
use tt_store::{OpenError, StoreError};

#[test]
fn why_a_call_is_refused(rt: HostRuntime) {
    let raced = StoreError::Raced { read: 7, told: 5 };
    for (error, expected) in [
        (StoreError::Db(DbError::NoSlot { t: 9 }), "no slot 9"),
        (raced, "raced: 7 entries read, 5 told"),
        (StoreError::NoReading, "no reading"),
        (StoreError::Memory, "out of memory"),
    ] {
        let text = format!(in rt.alloc(); "{error}").expect(&rt, "memory");
        same(&rt, &text.as_str(), &expected);
    }
}

#[test]
fn why_a_store_is_not_opened(rt: HostRuntime) {
    for (error, expected) in [
        (OpenError::Workers, "the number of workers is not 1 to 16"),
        (OpenError::Place, "no place for a reader"),
        (OpenError::Memory, "out of memory"),
    ] {
        let text = format!(in rt.alloc(); "{error}").expect(&rt, "memory");
        same(&rt, &text.as_str(), &expected);
    }
}
