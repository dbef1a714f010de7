//! All calls of `calls` are answered before the repair begins.
use super::replay::is_right;
use super::{document, report_of, same};
use std::alloc::Global;
use std::process::Abort;
use std::sync::Wait;
use std::sync::atomic::{AtomicU64, Ordering};
use std::thread::{Threads, yield_now};
use tt_store::{Gate, Point};

/// Nine calls of three workers, and a repair with no calls beside it.
const THREE_WORKERS: &str =
    r#"{"version":1,"tables":[{"name":"acct","columns":[{"name":"id","kind":"int"},{"name":"owner","kind":"text","partition":true},{"name":"bal","kind":"int"}]}],"workers":3,"calls":[
{"worker":1,"insert":"acct","row":[1,"ann",5]},
{"worker":2,"insert":"acct","row":[2,"ann",6]},
{"worker":3,"insert":"acct","row":[3,"bob",7]},
{"worker":1,"select":"acct","where":[]},
{"worker":2,"update":"acct","change":[["add","bal",1]],"where":[]},
{"worker":3,"delete":"acct","where":[["owner","bob"]]},
{"worker":1,"insert":"acct","row":[4,"dan",8]},
{"worker":2,"select":"acct","where":[["owner","ann"]]},
{"worker":3,"select":"acct","where":[],"at":0}],
"repair":{"edits":[{"cancel":1}]}}"#;

/// How many calls there are.
const CALLS: u64 = 9;

/// The number of the administrator, who makes the repair.
const ADMINISTRATOR: u32 = 4;

/// For how many turns each call that is answered looks whether the repair begins.
const TURNS: u64 = 2_000;

/// What the threads of the workers and of the administrator tell each other.
#[derive(Drop)]
struct Marks {
    /// How many calls were answered, and have looked whether the repair begins.
    answered: AtomicU64,
    /// How many of them there were when the administrator built its first state.
    answered_before: AtomicU64,
    /// How many states the administrator was about to build.
    built: AtomicU64,
}

impl Marks {
    fn new() -> Marks {
        Marks {
            answered: AtomicU64::new(0),
            answered_before: AtomicU64::new(0),
            built: AtomicU64::new(0),
        }
    }

    /// Gives the administrator time to begin its repair, if it is that far, and counts the call.
    fn answer(&self) {
        for _ in 0..TURNS {
            if self.built.load(Ordering::SeqCst) > 0 {
                break;
            }
            yield_now();
        }
        self.answered.fetch_add(1, Ordering::SeqCst);
    }

    /// Notes at the first state of the administrator how many calls were answered.
    fn build(&self) {
        let answered = self.answered.load(Ordering::SeqCst);
        if self.built.fetch_add(1, Ordering::SeqCst) == 0 {
            self.answered_before.fetch_add(answered, Ordering::SeqCst);
        }
    }
}

/// Holds each call that is answered for a while, in which the repair mustn't begin.
#[derive(Clone, Copy)]
struct BeforeTheRepair<'a> {
    marks: &'a Marks,
}

impl Gate for BeforeTheRepair<'_> {
    fn at(&self, worker: u32, point: Point) {
        match (worker, point) {
            (ADMINISTRATOR, Point::Building) => self.marks.build(),
            (_, Point::Answered) => self.marks.answer(),
            _ => (),
        }
    }
}

/// The administrator builds its first state when all nine calls are answered, and the history and
/// the report tell of no call behind the beginning of the repair.
#[test]
fn a_repair_begins_when_all_calls_are_answered(rt: HostRuntime) {
    begins_behind_the_calls(&rt, rt.alloc());
}

fn begins_behind_the_calls<R: Threads + Wait + Abort + Sync>(rt: &R, alloc: Global) {
    let marks = Marks::new();
    let gate = BeforeTheRepair { marks: &marks };
    let document = document(rt, alloc, THREE_WORKERS);
    let report = report_of(rt, alloc, &document, gate);
    same(rt, &marks.answered_before.load(Ordering::SeqCst), &CALLS);
    is_right(rt, alloc, &document, &report);
}
