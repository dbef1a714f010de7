use super::map::{expect_entries, next_number};
use crate::same::same;
use std::alloc::Global;
use std::collections::BTreeMap;
use std::process::Abort;
use tt_pages::PagedMap;

/// That the map is no deeper than this, and no deeper than its entries are enough for.
fn expect_depth(rt: &impl Abort, map: &PagedMap<u64>, most: usize) {
    let depth = map.depth();
    assert!(rt; depth <= most);
    let mut least: usize = 1;
    for _ in 0..depth {
        least = least.saturating_mul(4);
    }
    assert!(rt; map.is_empty() || least <= map.len());
}

#[derive(Copy, Clone)]
enum Order {
    Rising,
    Falling,
    Mixed,
}

/// The key after this one. None comes twice.
fn key_after(key: i64, order: Order) -> i64 {
    match order {
        Order::Rising => key.wrapping_add(1),
        Order::Falling => key.wrapping_sub(1),
        Order::Mixed => next_number(key.cast_unsigned()).cast_signed(),
    }
}

/// A map of `count` keys in this order, each with its place in it.
fn map_of(rt: &impl Abort, alloc: Global, order: Order, count: u64) -> PagedMap<u64> {
    let mut map = PagedMap::new(alloc);
    let mut key = 0;
    for place in 0..count {
        key = key_after(key, order);
        map.put(key, place).expect(rt, "memory");
    }
    map
}

/// That the map finds each of these keys.
fn expect_keys(rt: &impl Abort, map: &PagedMap<u64>, order: Order, count: u64) {
    let mut key = 0;
    for place in 0..count {
        key = key_after(key, order);
        same(rt, &map.get(key), &Some(&place));
    }
}

/// That the map has `count` entries, in ascending key order.
fn expect_ascending(rt: &impl Abort, map: &PagedMap<u64>, count: u64) {
    let mut seen: u64 = 0;
    let mut last = None;
    for (key, _) in map.iter() {
        if let Some(last) = last {
            assert!(rt; last < *key);
        }
        last = Some(*key);
        seen = seen.wrapping_add(1);
    }
    same(rt, &(map.len() as u64, seen), &(count, count));
}

#[test]
fn maps_are_flat_in_any_order_of_keys(rt: HostRuntime) {
    for order in [Order::Rising, Order::Falling, Order::Mixed] {
        let map = map_of(&rt, rt.alloc(), order, 50_000);
        expect_depth(&rt, &map, 4);
        expect_keys(&rt, &map, order, 50_000);
        expect_ascending(&rt, &map, 50_000);
    }
}

/// Puts 19 keys below this one, in falling order, and removes all of them but the one so far below
/// it.
fn put_and_remove(rt: &impl Abort, map: &mut PagedMap<u64>, above: i64, kept: i64) {
    for step in 1..20i64 {
        map.put(above.wrapping_sub(step), 0).expect(rt, "memory");
    }
    for step in 1..20i64 {
        if step != kept {
            map.remove(above.wrapping_sub(step)).expect(rt, "memory");
        }
    }
}

#[test]
fn puts_and_removals_at_one_end_leave_a_map_flat(rt: HostRuntime) {
    for kept in [1, 10, 19] {
        let mut map = PagedMap::new(rt.alloc());
        map.put(0, 0).expect(&rt, "memory");
        let mut least: i64 = 0;
        for _ in 0..4000 {
            put_and_remove(&rt, &mut map, least, kept);
            least = least.wrapping_sub(19);
        }
        expect_depth(&rt, &map, 4);
        expect_ascending(&rt, &map, 4001);
    }
}

/// Puts or removes a key below 2048, in the map and in the other alike. Of 8 numbers, `removals`
/// remove one.
fn change_both(
    rt: &impl Abort,
    map: &mut PagedMap<u64>,
    reference: &mut BTreeMap<i64, u64>,
    number: u64,
    removals: u64,
) {
    let key = ((number >> 33) % 2048) as i64;
    if (number >> 50) % 8 < removals {
        map.remove(key).expect(rt, "memory");
        reference.remove(&key);
    } else {
        map.put(key, number).expect(rt, "memory");
        let inserted: Result<_, _> = reference.insert(key, number);
        inserted.expect(rt, "memory");
    }
}

#[test]
fn a_map_is_even_from_none_to_many_entries_and_back(rt: HostRuntime) {
    let alloc = rt.alloc();
    let mut map = PagedMap::new(alloc);
    let mut reference = BTreeMap::new(alloc);
    let mut number = 7;
    for removals in [1, 7, 2, 6, 4, 8] {
        for _ in 0..6000 {
            number = next_number(number);
            change_both(&rt, &mut map, &mut reference, number, removals);
            expect_depth(&rt, &map, 4);
        }
        expect_entries(&rt, &map, &reference);
    }
    for key in 0..2048 {
        map.remove(key).expect(&rt, "memory");
        expect_depth(&rt, &map, 4);
    }
    assert!(rt; map.is_empty() && map.depth() == 0);
}
