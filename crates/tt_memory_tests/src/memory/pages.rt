//! Maps and lists, where one growth is refused.
use super::same;
use std::alloc::{AllocError, Global};
use std::process::Abort;
use tt_pages::{Modify, PagedLog, PagedMap};
use tt_shared_tests::{Tally, mark, quiet};

/// The number of entries, which fill several pages.
const MANY: u64 = 70;

/// A map from 0 to `MANY` to the same numbers. A put that finds no memory leaves the map, and is
/// made again.
fn numbers(rt: &impl Abort, alloc: Global) -> PagedMap<u64> {
    let mut map = PagedMap::new(alloc);
    for number in 0..MANY {
        mark(alloc);
        let put = map.put(number as i64, number);
        mark(alloc);
        if put.is_err() {
            same(rt, &(map.len() as u64), &number);
            map.put(number as i64, number).expect(rt, "a second call");
        }
    }
    map
}

/// The map has the numbers from 0 on, but one.
fn has_all_but(rt: &impl Abort, map: &PagedMap<u64>, missing: u64) {
    for number in 0..MANY {
        let want = (number != missing).then_some(&number);
        same(rt, &map.get(number as i64), &want);
    }
}

/// Reads that take no memory: all numbers from 0 on, and past the last.
fn reads_map(rt: &impl Abort, map: &PagedMap<u64>) {
    has_all_but(rt, map, MANY);
    same(rt, &map.get(MANY as i64), &None);
    same(rt, &(map.len() as u64, map.is_empty()), &(MANY, false));
    let mut next = 0i64;
    for (key, _) in map.iter() {
        same(rt, key, &next);
        next = next.saturating_add(1);
    }
    same(rt, &next, &(MANY as i64));
    let last = map.iter_after(MANY as i64 - 2).next();
    same(rt, &last.map(|(key, _)| *key), &Some(MANY as i64 - 1));
    assert!(rt; map.depth() > 0);
}

#[test]
fn maps_in_place(rt: HostRuntime) {
    let alloc = rt.alloc();
    let _tally = Tally::new(alloc);
    let mut map = numbers(&rt, alloc);
    quiet(alloc);
    reads_map(&rt, &map);
    quiet(alloc);
    mark(alloc);
    let removed = map.remove(20);
    mark(alloc);
    if removed.is_err() {
        has_all_but(&rt, &map, MANY);
        map.remove(20).expect(&rt, "a second call");
    }
    has_all_but(&rt, &map, 20);
}

#[test]
fn maps_beside_the_old_one(rt: HostRuntime) {
    let alloc = rt.alloc();
    let _tally = Tally::new(alloc);
    let old = numbers(&rt, alloc);
    mark(alloc);
    let shorter = old.without(20);
    mark(alloc);
    has_all_but(&rt, &old, MANY);
    let shorter = match shorter {
        Ok(shorter) => shorter,
        Err(AllocError) => old.without(20).expect(&rt, "a second call"),
    };
    has_all_but(&rt, &shorter, 20);
    mark(alloc);
    let longer = shorter.with(20, 20);
    mark(alloc);
    has_all_but(&rt, &shorter, 20);
    let longer = match longer {
        Ok(longer) => longer,
        Err(AllocError) => shorter.with(20, 20).expect(&rt, "a second call"),
    };
    has_all_but(&rt, &longer, MANY);
}

/// Another owner of the same map, though the first call may find no memory.
fn shared(rt: &impl Abort, alloc: Global, map: &PagedMap<u64>) -> PagedMap<u64> {
    mark(alloc);
    let copy = map.share();
    mark(alloc);
    match copy {
        Ok(copy) => copy,
        Err(AllocError) => map.share().expect(rt, "a second call"),
    }
}

/// Another number in place of any.
#[derive(Clone, Copy, Drop)]
struct Replace {
    by: u64,
}

impl Modify<u64> for Replace {
    ghost after = { λ change _. change.by };

    fn apply(self, value: &mut u64) -> Result<(), AllocError> {
        *value = self.by;
        Ok(())
    }
}

/// Changes 20 to 7 in a map that shares its pages. Without memory nothing is promised of it.
fn changes(rt: &impl Abort, alloc: Global, map: &mut PagedMap<u64>) {
    let change = Replace { by: 7 };
    map.get(20).expect(rt, "a number");
    mark(alloc);
    let changed = map.change(20, change);
    mark(alloc);
    if changed.is_err() {
        map.get(20).expect(rt, "a number");
        map.change(20, change).expect(rt, "a second call");
    }
    same(rt, &map.get(20), &Some(&7));
}

#[test]
fn values_of_maps(rt: HostRuntime) {
    let alloc = rt.alloc();
    let _tally = Tally::new(alloc);
    let old = numbers(&rt, alloc);
    let mut other = shared(&rt, alloc, &old);
    changes(&rt, alloc, &mut other);
    has_all_but(&rt, &old, MANY);
}

/// The log has the numbers from 0 up to `count`.
fn counts(rt: &impl Abort, log: &PagedLog<u64>, count: u64) {
    same(rt, &(log.len() as u64), &count);
    for number in 0..count {
        same(rt, &log.get(number as usize), &Some(&number));
    }
}

/// A log that a push leaves as it was where it finds no memory, and then takes it.
fn pushed(rt: &impl Abort, alloc: Global, count: u64) -> PagedLog<u64> {
    let mut log = PagedLog::new(alloc);
    for number in 0..count {
        mark(alloc);
        let push = log.push(number);
        mark(alloc);
        if push.is_err() {
            same(rt, &(log.len() as u64), &number);
            log.push(number).expect(rt, "a second call");
        }
    }
    log
}

/// Reads that take no memory: all numbers from 0 on, and past the last.
fn reads_log(rt: &impl Abort, log: &PagedLog<u64>) {
    counts(rt, log, MANY);
    same(rt, &log.get(MANY as usize), &None);
    assert!(rt; !log.is_empty());
    let mut next = 0u64;
    for number in log.iter() {
        same(rt, number, &next);
        next = next.saturating_add(1);
    }
    same(rt, &next, &MANY);
}

#[test]
fn logs(rt: HostRuntime) {
    let alloc = rt.alloc();
    let _tally = Tally::new(alloc);
    let old = pushed(&rt, alloc, MANY);
    quiet(alloc);
    reads_log(&rt, &old);
    quiet(alloc);
    mark(alloc);
    let longer = old.pushed(MANY);
    mark(alloc);
    counts(&rt, &old, MANY);
    let longer = match longer {
        Ok(longer) => longer,
        Err(AllocError) => old.pushed(MANY).expect(&rt, "a second call"),
    };
    counts(&rt, &longer, MANY + 1);
}

#[test]
fn items_of_logs(rt: HostRuntime) {
    let alloc = rt.alloc();
    let _tally = Tally::new(alloc);
    let old = pushed(&rt, alloc, MANY);
    assert!(rt; old.len() > 7);
    mark(alloc);
    let other = old.replaced(7, 0);
    mark(alloc);
    counts(&rt, &old, MANY);
    let other = match other {
        Ok(other) => other,
        Err(AllocError) => old.replaced(7, 0).expect(&rt, "a second call"),
    };
    same(&rt, &other.get(7), &Some(&0));
    let front = front_of(&rt, alloc, &old, 68);
    counts(&rt, &front, 68);
    replaces(&rt, alloc, front);
    counts(&rt, &old, MANY);
}

/// The first numbers of a log, though the first call may find no memory.
fn front_of(rt: &impl Abort, alloc: Global, log: &PagedLog<u64>, count: usize) -> PagedLog<u64> {
    mark(alloc);
    let front = log.front(count);
    mark(alloc);
    match front {
        Ok(front) => front,
        Err(AllocError) => log.front(count).expect(rt, "a second call"),
    }
}

/// Replaces 7 by 0 in a log of 68 numbers, which shares its pages, and in another owner of it.
fn replaces(rt: &impl Abort, alloc: Global, mut log: PagedLog<u64>) {
    assert!(rt; log.len() > 7);
    mark(alloc);
    let replaced = log.replace(7, 0);
    mark(alloc);
    if replaced.is_err() {
        counts(rt, &log, 68);
        log.replace(7, 0).expect(rt, "a second call");
    }
    same(rt, &log.get(7), &Some(&0));
    mark(alloc);
    let copy = log.share();
    mark(alloc);
    let copy = match copy {
        Ok(copy) => copy,
        Err(AllocError) => log.share().expect(rt, "a second call"),
    };
    same(rt, &(copy.get(7), copy.len()), &(Some(&0), 68));
}
