use crate::same::same;
use std::alloc::{AllocError, Global};
use std::collections::BTreeMap;
use std::process::Abort;
use tt_pages::{Modify, PagedMap};

/// That the map has the entries of the other, in its order.
pub(super) fn expect_entries(rt: &impl Abort, map: &PagedMap<u64>, reference: &BTreeMap<i64, u64>) {
    same(rt, &map.len(), &reference.len());
    let mut entries = map.iter();
    for (key, value) in reference {
        let entry = entries.next().expect(rt, "an entry");
        same(rt, &entry, &(key, value));
        assert!(rt; map.get(*key) == Some(value));
    }
    assert!(rt; entries.next().is_none());
}

fn is_odd(number: u64) -> bool {
    number % 2 == 1
}

/// The numbers 1 to 200, each at the key that is the number itself.
fn numbers(rt: &impl Abort, alloc: Global, only_odd: bool) -> BTreeMap<i64, u64> {
    let mut numbers = BTreeMap::new(alloc);
    for number in 1..201u64 {
        if is_odd(number) || !only_odd {
            let inserted: Result<_, _> = numbers.insert(number as i64, number);
            inserted.expect(rt, "memory");
        }
    }
    numbers
}

/// A map of the numbers 1 to 200, by `with`, in the order that they come in here.
fn map_of(rt: &impl Abort, alloc: Global, order: Order) -> PagedMap<u64> {
    let mut map = PagedMap::new(alloc);
    for place in 0..200u64 {
        let number = match order {
            Order::Rising => place + 1,
            Order::Falling => 200 - place,
            Order::OddFirst => (place % 100) * 2 + place / 100 + 1,
        };
        map = map.with(number as i64, number).expect(rt, "memory");
    }
    map
}

#[derive(Copy, Clone)]
enum Order {
    Rising,
    Falling,
    OddFirst,
}

/// Removes the even keys from a copy. The copy has the odd numbers, and the map still has all.
fn expect_without_even(rt: &impl Abort, map: &PagedMap<u64>, alloc: Global) {
    let mut odd = map.share().expect(rt, "memory");
    for number in 1..201u64 {
        if !is_odd(number) {
            odd = odd.without(number as i64).expect(rt, "memory");
        }
    }
    expect_entries(rt, &odd, &numbers(rt, alloc, true));
    expect_entries(rt, map, &numbers(rt, alloc, false));
    let unchanged = odd.without(2).expect(rt, "memory");
    same(rt, &unchanged.len(), &100);
}

#[test]
fn numbers_come_back_in_order(rt: HostRuntime) {
    let alloc = rt.alloc();
    for order in [Order::Rising, Order::Falling, Order::OddFirst] {
        let map = map_of(&rt, alloc, order);
        expect_entries(&rt, &map, &numbers(&rt, alloc, false));
        expect_without_even(&rt, &map, alloc);
    }
}

#[test]
fn least_and_largest_keys_are_first_and_last(rt: HostRuntime) {
    let mut map = PagedMap::new(rt.alloc());
    for (key, value) in [(i64::MAX, 3), (0, 2), (i64::MIN, 1)] {
        map = map.with(key, value).expect(&rt, "memory");
    }
    assert!(rt; !map.is_empty());
    let mut entries = map.iter();
    for entry in [(&i64::MIN, &1), (&0, &2), (&i64::MAX, &3)] {
        same(&rt, &entries.next(), &Some(entry));
    }
    assert!(rt; entries.next().is_none());
    let mut entries = map.iter_after(0);
    same(&rt, &entries.next(), &Some((&i64::MAX, &3)));
    assert!(rt; entries.next().is_none() && map.iter_after(i64::MAX).next().is_none());
}

/// The next of a row of numbers without an order.
pub(super) fn next_number(number: u64) -> u64 {
    number
        .wrapping_mul(6364136223846793005)
        .wrapping_add(1442695040888963407)
}

/// Puts or removes a key, in the map and in the other alike.
fn change_both(
    rt: &impl Abort,
    map: &mut PagedMap<u64>,
    reference: &mut BTreeMap<i64, u64>,
    number: u64,
) {
    let key = ((number >> 33) % 300) as i64 - 150;
    if (number >> 50) % 3 == 0 {
        map.remove(key).expect(rt, "memory");
        reference.remove(&key);
    } else {
        map.put(key, number).expect(rt, "memory");
        let inserted: Result<_, _> = reference.insert(key, number);
        inserted.expect(rt, "memory");
    }
}

#[test]
fn maps_that_were_shared_stay_while_one_changes(rt: HostRuntime) {
    let alloc = rt.alloc();
    let mut map = PagedMap::new(alloc);
    let mut reference = BTreeMap::new(alloc);
    let mut states = Vec::new(alloc);
    let mut number = 7;
    for step in 0..3000u64 {
        number = next_number(number);
        change_both(&rt, &mut map, &mut reference, number);
        if step % 60 == 0 {
            let share = map.share().expect(&rt, "memory");
            let copy = reference.clone().expect(&rt, "memory");
            states.push((share, copy)).expect(&rt, "memory");
        }
    }
    for (map, reference) in &states {
        expect_entries(&rt, map, reference);
    }
    expect_entries(&rt, &map, &reference);
}

/// Exchanges one value for another, and refuses any other.
#[derive(Drop)]
struct Exchange {
    from: u64,
    to: u64,
}

impl Modify<u64> for Exchange {
    ghost after = { λ exchange _. exchange.to };

    fn apply(self, value: &mut u64) -> Result<(), AllocError> {
        if *value != self.from {
            return Err(AllocError);
        }
        *value = self.to;
        Ok(())
    }
}

/// Changes the value at a key of a copy, in a page that is shared and then in one of its own. The
/// map keeps its value.
fn expect_changes(rt: &impl Abort, map: &PagedMap<u64>, key: i64, value: u64) {
    let mut copy = map.share().expect(rt, "memory");
    for (from, to) in [(value, 1000), (1000, 2000)] {
        copy.get(key).expect(rt, "no entry at the key");
        let change = Exchange { from, to };
        copy.change(key, change).expect(rt, "memory");
        same(rt, &copy.get(key), &Some(&to));
    }
    same(rt, &copy.len(), &map.len());
    same(rt, &map.get(key), &Some(&value));
}

/// The map of these entries.
fn small_map(rt: &impl Abort, alloc: Global, entries: [(i64, u64); 2]) -> PagedMap<u64> {
    let mut map = PagedMap::new(alloc);
    for (key, value) in entries {
        map = map.with(key, value).expect(rt, "memory");
    }
    map
}

#[test]
fn a_change_sees_the_value_at_the_key(rt: HostRuntime) {
    let alloc = rt.alloc();
    let page = small_map(&rt, alloc, [(1, 10), (2, 20)]);
    expect_changes(&rt, &page, 1, 10);
    expect_changes(&rt, &page, 2, 20);
    let tree = map_of(&rt, alloc, Order::OddFirst);
    for number in 1..201u64 {
        expect_changes(&rt, &tree, number as i64, number);
    }
    expect_entries(&rt, &tree, &numbers(&rt, alloc, false));
}

#[test]
fn a_map_prints_as_one(rt: HostRuntime) {
    let alloc = rt.alloc();
    let map = small_map(&rt, alloc, [(2, 20), (1, 10)]);
    let text = format!(in alloc; "{map:?}").expect(&rt, "memory");
    same(&rt, &text.as_str(), &"{1: 10, 2: 20}");
}
