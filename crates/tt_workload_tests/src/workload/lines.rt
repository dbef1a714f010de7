use crate::same::same;
use std::alloc::Global;
use std::process::Abort;
use tt_values::{Items, Reply, Row, Select, Value};
use tt_workload::{After, Changed, Record, What, text_of, text_of_change};

fn one(rt: &impl Abort, alloc: Global, reply: Reply) -> Items<Reply> {
    Items::of(alloc, [reply]).expect(rt, "memory")
}

/// The rows of a reply, which has one row of one value.
fn row_of(rt: &impl Abort, alloc: Global, key: i64) -> Reply {
    let row = Row::of(alloc, [Value::Int(key)]).expect(rt, "memory");
    Reply::Rows(Items::of(alloc, [row]).expect(rt, "memory"))
}

fn everything(rt: &impl Abort, alloc: Global) -> Select {
    Select::all(alloc, 0).expect(rt, "memory")
}

/// The line of what a call was answered, the third one of worker 2.
fn has_line(rt: &impl Abort, alloc: Global, what: What, line: &str) {
    let answered = Record {
        call: 3,
        worker: 2,
        what,
    };
    let text = text_of(alloc, &answered).expect(rt, "memory");
    same(rt, &text.as_slice(), &line.as_bytes());
}

fn has_line_of_write(rt: &impl Abort, alloc: Global, reply: Reply, line: &str) {
    let replies = one(rt, alloc, reply);
    has_line(rt, alloc, What::Write { slot: 7, replies }, line);
}

#[test]
fn writes_have_lines(rt: HostRuntime) {
    let alloc = rt.alloc();
    has_line_of_write(
        &rt,
        alloc,
        Reply::Inserted,
        "call 3 worker 2 slot 7 inserted\n",
    );
    has_line_of_write(
        &rt,
        alloc,
        Reply::Duplicate,
        "call 3 worker 2 slot 7 duplicate\n",
    );
    has_line_of_write(
        &rt,
        alloc,
        Reply::Updated(1),
        "call 3 worker 2 slot 7 updated 1\n",
    );
    has_line_of_write(
        &rt,
        alloc,
        Reply::Deleted(2),
        "call 3 worker 2 slot 7 deleted 2\n",
    );
}

#[test]
fn actions_have_lines(rt: HostRuntime) {
    let alloc = rt.alloc();
    let none = Items::of(alloc, []).expect(&rt, "memory");
    let what = What::Write {
        slot: 7,
        replies: none,
    };
    has_line(&rt, alloc, what, "call 3 worker 2 slot 7 nothing\n");
    let two = Items::of(alloc, [Reply::Inserted, Reply::Updated(0)]).expect(&rt, "memory");
    let what = What::Write {
        slot: 7,
        replies: two,
    };
    has_line(
        &rt,
        alloc,
        what,
        "call 3 worker 2 slot 7 inserted, updated 0\n",
    );
}

#[test]
fn reads_have_lines(rt: HostRuntime) {
    let alloc = rt.alloc();
    let what = What::Read {
        select: everything(&rt, alloc),
        time: 5,
        reply: row_of(&rt, alloc, -4),
    };
    has_line(&rt, alloc, what, "call 3 worker 2 time 5 rows 1 [-4]\n");
    let what = What::Preview {
        done: 4,
        reply: row_of(&rt, alloc, 1),
    };
    has_line(&rt, alloc, what, "call 3 worker 2 preview 4 rows 1 [1]\n");
}

#[test]
fn refused_reads_have_lines(rt: HostRuntime) {
    let alloc = rt.alloc();
    let what = What::Later { now: 9 };
    has_line(&rt, alloc, what, "call 3 worker 2 refused later than 9\n");
    has_line(
        &rt,
        alloc,
        What::NotRepairing,
        "call 3 worker 2 refused not repairing\n",
    );
}

/// The line of a changed call, which is the fourth.
fn has_line_of_change(rt: &impl Abort, alloc: Global, before: Reply, after: After, line: &str) {
    let change = Changed {
        call: 4,
        before: one(rt, alloc, before),
        after,
    };
    let text = text_of_change(alloc, &change).expect(rt, "memory");
    same(rt, &text.as_slice(), &line.as_bytes());
}

#[test]
fn changes_have_lines(rt: HostRuntime) {
    let alloc = rt.alloc();
    let after = After::Replies(one(&rt, alloc, Reply::Deleted(1)));
    let line = "changed call 4 deleted 2 -> deleted 1\n";
    has_line_of_change(&rt, alloc, Reply::Deleted(2), after, line);
    let line = "changed call 4 inserted -> cancelled\n";
    has_line_of_change(&rt, alloc, Reply::Inserted, After::Cancelled, line);
}
