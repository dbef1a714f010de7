//! Printed texts.
use super::same;
use std::test::*;
use tt_db::DbError;
use tt_repair::{Phase, RepairFault};
use tt_store::StoreError;

#[test]
fn why_a_repair_is_not_made(rt: HostRuntime) {
    let refused = StoreError::Db(DbError::Full { limit: 5 });
    for (phase, cause, expected) in [
        (Phase::Begin, refused, "the repair failed: full at 5"),
        (
            Phase::Steps,
            StoreError::NoReading,
            "the repair failed: no reading",
        ),
        (
            Phase::Finish,
            StoreError::Memory,
            "the repair failed: out of memory",
        ),
    ] {
        let fault = RepairFault {
            phase,
            still_open: true,
            cause,
        };
        let text = format!(in rt.alloc(); "{fault}").expect(&rt, "memory");
        same(&rt, &text.as_str(), &expected);
    }
}
