//! A gate that holds worker 1 at its second new state of a repair, until worker 2 lets it go on.
use super::same;
use std::process::Abort;
use std::sync::atomic::{AtomicU64, Ordering};
use std::thread::yield_now;
use tt_store::{Gate, Point};

/// The most turns for which a thread waits for another thread.
const TURNS: u64 = 10_000_000;

/// How many publishes worker 1 has made before its repair.
const BEFORE: u64 = 5;

/// What a repair that is held and the thread beside it tell each other.
#[derive(Drop)]
pub(super) struct Marks {
    /// How many states worker 1 was about to build.
    built: AtomicU64,
    /// How often worker 1 has published.
    published: AtomicU64,
    /// Whether it was held, as 1, and whether it was let go on.
    held: AtomicU64,
    released: AtomicU64,
    /// How often one of the two waited in vain.
    missed: AtomicU64,
}

impl Marks {
    pub(super) fn new() -> Marks {
        Marks {
            built: AtomicU64::new(0),
            published: AtomicU64::new(0),
            held: AtomicU64::new(0),
            released: AtomicU64::new(0),
            missed: AtomicU64::new(0),
        }
    }

    /// Waits until a mark is set.
    fn wait_for(&self, mark: &AtomicU64) {
        for _ in 0..TURNS {
            if mark.load(Ordering::SeqCst) > 0 {
                return;
            }
            yield_now();
        }
        self.missed.fetch_add(1, Ordering::SeqCst);
    }

    /// Waits until the repair is held.
    pub(super) fn wait_until_held(&self) {
        self.wait_for(&self.held);
    }

    /// Lets the repair go on.
    pub(super) fn release(&self) {
        self.released.fetch_add(1, Ordering::SeqCst);
    }

    /// Asserts that nobody waited in vain, and how often worker 1 has published in its repair.
    pub(super) fn check(&self, rt: &impl Abort, published: u64) {
        same(rt, &self.missed.load(Ordering::SeqCst), &0);
        let publishes = self.published.load(Ordering::SeqCst);
        same(rt, &publishes.checked_sub(BEFORE), &Some(published));
    }
}

/// Holds worker 1 where it is about to build the second new state of its repair.
#[derive(Clone, Copy)]
pub(super) struct Held<'a> {
    pub(super) marks: &'a Marks,
}

impl Gate for Held<'_> {
    fn at(&self, worker: u32, point: Point) {
        if worker != 1 {
            return;
        }
        let marks = self.marks;
        if point == Point::Published {
            marks.published.fetch_add(1, Ordering::SeqCst);
        }
        if point != Point::Building {
            return;
        }
        let built = marks.built.fetch_add(1, Ordering::SeqCst);
        if built == BEFORE + 1 {
            marks.held.fetch_add(1, Ordering::SeqCst);
            marks.wait_for(&marks.released);
        }
    }
}
