//! Threads of a run that are held until others have come as far: one thread can't pass. And in how
//! many publishes the administrator makes its repair.
ghost use Rattle.std.specs.Prelude.{◌≤◌};

use super::gates::{AfterTheOther, BehindTheCalls, BesideTheRepair, Marks, Publishes, Together};
use super::{
    FIVE_WRITES, MEANWHILE, TWO_WORKERS, document, ends, prints, report, report_in_rounds, same,
};
use std::alloc::Global;
use std::process::Abort;
use std::sync::Wait;
use std::sync::atomic::{AtomicU64, Ordering};
use std::thread::Threads;

#[test]
fn a_write_waits_for_another_workers_answer(rt: HostRuntime) {
    let alloc = rt.alloc();
    let marks = Marks::new();
    let gate = AfterTheOther { marks: &marks };
    let report = report(&rt, alloc, TWO_WORKERS, gate);
    marks.check(&rt, 1);
    prints(
        &rt,
        alloc,
        &report,
        "call 1 worker 1 slot 1 inserted\ncall 2 worker 2 time 0 rows 0\ntable acct rows 1 [1,\"ann\",10]\nend generation 0 time 1\n",
    );
    assert!(rt; report.fronts.as_slice() == [0, 0].as_slice());
}

#[test]
fn two_workers_wait_for_each_other(rt: HostRuntime) {
    let alloc = rt.alloc();
    let marks = Marks::new();
    let gate = Together { marks: &marks };
    let report = report(&rt, alloc, TWO_WORKERS, gate);
    marks.check(&rt, 2);
    ends(&rt, alloc, &report, "end generation 0 time 1\n");
}

#[test]
fn a_call_is_made_within_the_repair(rt: HostRuntime) {
    let alloc = rt.alloc();
    let marks = Marks::new();
    let gate = BesideTheRepair { marks: &marks };
    let report = report(&rt, alloc, MEANWHILE, gate);
    marks.check(&rt, 2);
    ends(
        &rt,
        alloc,
        &report,
        "table acct rows 1 [1,\"ann\",11]\nend generation 1 time 3\n",
    );
}

/// Begin, the steps of five slots by two, and the switch.
#[test]
fn a_run_steps_in_batches(rt: HostRuntime) {
    let count = AtomicU64::new(0);
    let gate = Publishes {
        worker: 3,
        count: &count,
    };
    let _report = report(&rt, rt.alloc(), FIVE_WRITES, gate);
    same(&rt, &count.load(Ordering::SeqCst), &5);
}

/// Begin, the steps of the slots before it, a round for the write meanwhile, and the switch.
#[test]
fn a_run_catches_up_in_rounds(rt: HostRuntime) {
    same(&rt, &publishes_behind_the_calls(&rt, rt.alloc(), 1), &4);
}

/// Without a round, the step of the write meanwhile is published with the switch.
#[test]
fn a_run_makes_no_more_rounds(rt: HostRuntime) {
    same(&rt, &publishes_behind_the_calls(&rt, rt.alloc(), 0), &3);
}

/// How often the administrator publishes in a run with this number of rounds, where all calls
/// meanwhile are made between its begin and its first step.
fn publishes_behind_the_calls<R: Threads + Wait + Abort + Sync>(
    rt: &R,
    alloc: Global,
    rounds: u32,
) -> u64
    requires { rounds ≤ 1000 }
{
    let marks = Marks::new();
    let count = AtomicU64::new(0);
    let publishes = Publishes {
        worker: 2,
        count: &count,
    };
    let gate = BehindTheCalls {
        marks: &marks,
        publishes,
    };
    let document = document(rt, alloc, MEANWHILE);
    let _report = report_in_rounds(rt, alloc, &document, rounds, gate);
    marks.check(rt, 2);
    count.load(Ordering::SeqCst)
}
