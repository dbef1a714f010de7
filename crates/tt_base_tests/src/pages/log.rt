use crate::same::same;
use std::alloc::Global;
use std::process::Abort;
use tt_pages::{Kept, PagedLog};

/// The numbers from 0 up to `count`.
fn numbers(rt: &impl Abort, alloc: Global, count: u64) -> PagedLog<u64> {
    let mut log = PagedLog::new(alloc);
    for number in 0..count {
        log.push(number).expect(rt, "memory");
    }
    log
}

#[test]
fn reads_and_replaces_items(rt: HostRuntime) {
    let old = numbers(&rt, rt.alloc(), 65);
    assert!(rt; old.len() == 65 && !old.is_empty());
    let seven = 7u64.kept().expect(&rt, "memory");
    let new = old.replaced(64, seven).expect(&rt, "memory");
    same(&rt, &new.get(64), &Some(&7));
    same(&rt, &old.get(64), &Some(&64));
    assert!(rt; old.get(65).is_none());
}

#[test]
fn pushes_items_beside_the_old_log(rt: HostRuntime) {
    let mut log = PagedLog::new(rt.alloc());
    assert!(rt; log.is_empty());
    for number in 0..65 {
        let longer = log.pushed(number).expect(&rt, "memory");
        expect_numbers(&rt, &log, number);
        log = longer;
    }
    expect_numbers(&rt, &log, 65);
}

#[test]
fn shared_logs_stay_the_same(rt: HostRuntime) {
    let alloc = rt.alloc();
    let mut log = PagedLog::new(alloc);
    let mut shares = Vec::new(alloc);
    for round in 0..50 {
        let share = log.share().expect(&rt, "memory");
        shares.push(share).expect(&rt, "memory");
        for step in 0..37 {
            log.push(round * 37 + step).expect(&rt, "memory");
        }
    }
    for (round, share) in shares.iter().enumerate() {
        let count = (round as u64).wrapping_mul(37);
        expect_numbers(&rt, share, count);
    }
}

/// The list has the numbers from 0 up to `count`.
fn expect_numbers(rt: &impl Abort, log: &PagedLog<u64>, count: u64) {
    let mut want = 0;
    for item in log.iter() {
        same(rt, item, &want);
        want = want.wrapping_add(1);
    }
    same(rt, &(log.len() as u64, want), &(count, count));
}
