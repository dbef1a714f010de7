//! The lines of runs that no schedule changes.
use super::{FIVE_WRITES, MEANWHILE, STORED, ends, prints, report, same};
use tt_store::NoGate;

#[test]
fn one_worker(rt: HostRuntime) {
    let alloc = rt.alloc();
    let report = report(&rt, alloc, STORED, NoGate);
    prints(
        &rt,
        alloc,
        &report,
        "call 1 worker 1 slot 1 inserted\ncall 2 worker 1 time 1 rows 1 [1,\"ann\",10]\ntable acct rows 1 [1,\"ann\",10]\nend generation 0 time 1\n",
    );
    assert!(rt; report.fronts.as_slice() == [0, 1].as_slice());
}

#[test]
fn five_writes_and_a_repair(rt: HostRuntime) {
    let alloc = rt.alloc();
    let report = report(&rt, alloc, FIVE_WRITES, NoGate);
    ends(&rt, alloc, &report, "end generation 1 time 5\n");
    same(&rt, &report.db.get().events(), &12);
}

#[test]
fn calls_beside_a_repair(rt: HostRuntime) {
    let alloc = rt.alloc();
    let report = report(&rt, alloc, MEANWHILE, NoGate);
    ends(
        &rt,
        alloc,
        &report,
        "table acct rows 1 [1,\"ann\",11]\nend generation 1 time 3\n",
    );
}
