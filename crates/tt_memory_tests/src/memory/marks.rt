//! What whoever watches memory must tell: two tests that do what no other one may.
use std::test::*;
use tt_shared_tests::{Tally, quiet};

/// A growth where there should be none. Whoever watches memory ends this test.
#[test]
fn a_growth_is_told(rt: HostRuntime) {
    let alloc = rt.alloc();
    let mut list = Vec::new(alloc);
    quiet(alloc);
    list.push(1u64).expect(&rt, "memory");
    quiet(alloc);
}

/// A block that isn't given back. Whoever watches memory ends this test.
#[test]
fn a_kept_block_is_told(rt: HostRuntime) {
    let alloc = rt.alloc();
    let mut list = Vec::new(alloc);
    let _tally = Tally::new(alloc);
    list.push(1u64).expect(&rt, "memory");
}
