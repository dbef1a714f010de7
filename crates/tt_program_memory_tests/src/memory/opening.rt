//! Opening a store.
use super::{Scenario, bank, plays, same, tries};
use std::test::*;
use tt_shared_tests::{Tally, quiet};
use tt_store::{OpenError, Opened};

#[test]
fn a_store_is_opened(rt: HostRuntime) {
    plays(&rt, rt.alloc(), Scenario::Nothing);
}

/// No workers, or too many, are refused without memory.
#[test]
fn workers_are_counted_without_memory(rt: HostRuntime) {
    let alloc = rt.alloc();
    let _tally = Tally::new(alloc);
    for workers in [0, 17] {
        let catalog = bank(&rt, alloc);
        quiet(alloc);
        let opened = Opened::new(workers);
        let tried = tries(&rt, alloc, opened, catalog, Scenario::Nothing);
        quiet(alloc);
        same(&rt, &tried, &Err(OpenError::Workers));
    }
}
