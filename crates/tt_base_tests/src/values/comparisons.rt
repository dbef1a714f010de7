//! Values in their order, and how they compare.
use std::alloc::Global;
use std::process::Abort;
use tt_values::{Comparison, Value};

/// Whether each comparison holds of a value that is less, the same, and greater.
const HOLDS: [(Comparison, [bool; 3]); 6] = [
    (Comparison::Is, [false, true, false]),
    (Comparison::IsNot, [true, false, true]),
    (Comparison::Below, [true, false, false]),
    (Comparison::AtMost, [true, true, false]),
    (Comparison::Above, [false, false, true]),
    (Comparison::AtLeast, [false, true, true]),
];

/// Numbers that rise, with both bounds.
const RISING_NUMBERS: [i64; 7] = [
    i64::MIN,
    -9_223_372_036_854_775_807,
    -1,
    0,
    1,
    9_223_372_036_854_775_806,
    i64::MAX,
];

/// Texts that rise by their bytes. A character has more bytes than those before it.
const RISING_TEXTS: [&str; 10] = [
    "",
    "\0",
    "Z",
    "a",
    "a\0",
    "aa",
    "z",
    "\u{7f}",
    "\u{e9}",
    "\u{1f600}",
];

/// The first of two places lies before the second, at it, or behind it: 0, 1 or 2.
fn side_of(place: usize, other: usize) -> usize {
    if place < other {
        0
    } else if place == other {
        1
    } else {
        2
    }
}

/// Of values that rise each is less than those behind it, and compares so with each.
fn compare_all(rt: &impl Abort, rising: &[Value]) {
    for (place, found) in rising.iter().enumerate() {
        for (other, value) in rising.iter().enumerate() {
            assert_eq!(rt; found.is_less(value), place < other, "{found:?} {value:?}");
            let side = side_of(place, other);
            for (how, wanted) in HOLDS {
                let want = wanted.get(side).copied();
                let holds = Some(how.holds(value, found));
                assert_eq!(rt; holds, want, "{found:?} {how:?} {value:?}");
            }
        }
    }
}

#[test]
fn numbers_with_both_bounds(rt: HostRuntime) {
    let mut rising = Vec::new(rt.alloc());
    for number in RISING_NUMBERS {
        rising.push(Value::Int(number)).expect(&rt, "memory");
    }
    compare_all(&rt, rising.as_slice());
}

#[test]
fn texts_by_their_bytes(rt: HostRuntime) {
    let alloc = rt.alloc();
    let mut rising = Vec::new(alloc);
    for words in RISING_TEXTS {
        let text = Value::text(alloc, words).expect(&rt, "memory");
        rising.push(text).expect(&rt, "memory");
    }
    compare_all(&rt, rising.as_slice());
}

/// A text of so many letters x, with a word behind them.
fn long_text(rt: &impl Abort, alloc: Global, letters: usize, word: &str) -> Value {
    let mut words = String::new(alloc);
    for _ in 0..letters {
        words.push_str("x").expect(rt, "memory");
    }
    words.push_str(word).expect(rt, "memory");
    Value::text(alloc, words.as_str()).expect(rt, "memory")
}

#[test]
fn texts_of_the_greatest_length(rt: HostRuntime) {
    let alloc = rt.alloc();
    let rising = [
        long_text(&rt, alloc, 0, ""),
        long_text(&rt, alloc, 1022, ""),
        long_text(&rt, alloc, 1023, ""),
        long_text(&rt, alloc, 1023, "w"),
        long_text(&rt, alloc, 1024, ""),
        long_text(&rt, alloc, 1023, "y"),
        long_text(&rt, alloc, 0, "y"),
    ];
    compare_all(&rt, &rising);
}

/// Of a number and a text neither is less, and only `IsNot` holds.
#[test]
fn values_of_two_kinds(rt: HostRuntime) {
    let alloc = rt.alloc();
    for number in [Value::Int(i64::MIN), Value::Int(0), Value::Int(i64::MAX)] {
        for words in ["", "0", "z"] {
            let text = Value::text(alloc, words).expect(&rt, "memory");
            assert!(rt; !number.is_less(&text) && !text.is_less(&number));
            for (how, _) in HOLDS {
                let want = how == Comparison::IsNot;
                assert_eq!(rt; how.holds(&number, &text), want, "{how:?}");
                assert_eq!(rt; how.holds(&text, &number), want, "{how:?}");
            }
        }
    }
}
