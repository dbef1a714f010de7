//! Gates that hold threads until others have come as far.
use super::same;
use std::process::Abort;
use std::sync::atomic::{AtomicU64, Ordering};
use std::thread::yield_now;
use tt_store::{Gate, Point};

/// The most turns for which a thread waits for another thread.
const TURNS: u64 = 10_000_000;

/// What threads that are held tell each other.
#[derive(Drop)]
pub(crate) struct Marks {
    /// How often worker 1 and worker 2 have passed the point that each is held at.
    passed: [AtomicU64; 2],
    /// How many have come as far as the others wait for.
    there: AtomicU64,
    /// How often one has waited in vain.
    missed: AtomicU64,
}

impl Marks {
    pub(crate) fn new() -> Marks {
        Marks {
            passed: [AtomicU64::new(0), AtomicU64::new(0)],
            there: AtomicU64::new(0),
            missed: AtomicU64::new(0),
        }
    }

    /// One more has come as far.
    fn arrive(&self) {
        self.there.fetch_add(1, Ordering::SeqCst);
    }

    /// Waits until this many have come as far.
    fn wait_for(&self, count: u64) {
        for _ in 0..TURNS {
            if self.there.load(Ordering::SeqCst) >= count {
                return;
            }
            yield_now();
        }
        self.missed.fetch_add(1, Ordering::SeqCst);
    }

    /// Asserts that nobody has waited in vain, and that this many have come as far.
    pub(crate) fn check(&self, rt: &impl Abort, count: u64) {
        same(rt, &self.missed.load(Ordering::SeqCst), &0);
        same(rt, &self.there.load(Ordering::SeqCst), &count);
    }
}

/// Holds worker 1 where it builds a state until a call of worker 2 has returned.
#[derive(Clone, Copy)]
pub(crate) struct AfterTheOther<'a> {
    pub(crate) marks: &'a Marks,
}

impl Gate for AfterTheOther<'_> {
    fn at(&self, worker: u32, point: Point) {
        if worker == 2 && point == Point::Answered {
            self.marks.arrive();
        }
        if worker == 1 && point == Point::Building {
            self.marks.wait_for(1);
        }
    }
}

/// Holds each of two workers where its call has returned until the other's has, too.
#[derive(Clone, Copy)]
pub(crate) struct Together<'a> {
    pub(crate) marks: &'a Marks,
}

impl Gate for Together<'_> {
    fn at(&self, _worker: u32, point: Point) {
        if point == Point::Answered {
            self.marks.arrive();
            self.marks.wait_for(2);
        }
    }
}

/// Holds worker 1 at its third answer, and worker 2 where it builds its second state, until the
/// other is there, too.
#[derive(Clone, Copy)]
pub(crate) struct BesideTheRepair<'a> {
    pub(crate) marks: &'a Marks,
}

impl Gate for BesideTheRepair<'_> {
    fn at(&self, worker: u32, point: Point) {
        let marks = self.marks;
        let [first, second] = &marks.passed;
        let is_there = match (worker, point) {
            (1, Point::Answered) => first.fetch_add(1, Ordering::SeqCst) == 2,
            (2, Point::Building) => second.fetch_add(1, Ordering::SeqCst) == 1,
            _ => false,
        };
        if is_there {
            marks.arrive();
            marks.wait_for(2);
        }
    }
}

/// Counts what one worker publishes.
#[derive(Clone, Copy)]
pub(crate) struct Publishes<'a> {
    pub(crate) worker: u32,
    pub(crate) count: &'a AtomicU64,
}

impl Gate for Publishes<'_> {
    fn at(&self, worker: u32, point: Point) {
        if worker == self.worker && point == Point::Published {
            self.count.fetch_add(1, Ordering::SeqCst);
        }
    }
}

/// Holds worker 1 at its third answer until worker 2 builds its second state, and worker 2 there
/// until worker 1 has five answers. Counts what worker 2 publishes.
#[derive(Clone, Copy)]
pub(crate) struct BehindTheCalls<'a> {
    pub(crate) marks: &'a Marks,
    pub(crate) publishes: Publishes<'a>,
}

impl Gate for BehindTheCalls<'_> {
    fn at(&self, worker: u32, point: Point) {
        let marks = self.marks;
        self.publishes.at(worker, point);
        let [first, second] = &marks.passed;
        if worker == 1 && point == Point::Answered {
            match first.fetch_add(1, Ordering::SeqCst) {
                2 => marks.wait_for(1),
                4 => marks.arrive(),
                _ => {}
            }
        }
        if worker == 2 && point == Point::Building && second.fetch_add(1, Ordering::SeqCst) == 1 {
            marks.arrive();
            marks.wait_for(2);
        }
    }
}
