//! Lines of sessions, and their answers.
use std::alloc::Global;
use std::process::Abort;

pub(crate) const OPENING: &str =
    r#"{"version":2,"tables":[{"name":"acct","columns":[{"name":"id","kind":"int"},{"name":"owner","kind":"text","partition":true},{"name":"bal","kind":"int"}]}]}
"#;

/// The answer to the opening.
pub(crate) const OPENED: &str = r#"{"time":0,"generation":0,"oldest":0,"entries":0,"repair":null}
"#;

/// The answer to a `status` right behind the opening.
pub(crate) const STATUS: &str =
    r#"{"call":1,"time":0,"generation":0,"oldest":0,"entries":0,"repair":null}
"#;

/// The lines of a session. Two of them are blank, one is refused, and one is faulty.
pub(crate) const LINES: [&str; 9] = [
    "\n",
    OPENING,
    r#"{"do":[{"insert":"acct","row":[1,"ann",100]},{"insert":"acct","row":[2,"bob",40]}]}
"#,
    " \r\n",
    r#"{"insert":"acct","row":[2,"eve",0]}
"#,
    r#"{"worker":2,"update":"acct","change":[["add","bal",-5]],"where":[]}
"#,
    r#"{"preview":"acct","where":[]}
"#,
    r#"{"select":"acct","where":[]}
"#,
    r#"{"step":"two"}
"#,
];

/// Their answers, which `tests/session_model.py` gives, too.
pub(crate) const ANSWERS: [&str; 9] = [
    "",
    OPENED,
    r#"{"call":1,"slot":1,"replies":["inserted","inserted"]}
"#,
    "",
    r#"{"call":2,"slot":2,"replies":["duplicate"]}
"#,
    r#"{"call":3,"slot":3,"replies":[{"updated":2}]}
"#,
    r#"{"call":4,"refused":"not repairing"}
"#,
    r#"{"call":5,"time":3,"rows":[[1,"ann",95],[2,"bob",35]]}
"#,
    r#"{"call":6,"fault":{"path":"$.step","cause":"wrong type"}}
"#,
];

/// The texts one after another.
pub(crate) fn joined(rt: &impl Abort, alloc: Global, texts: &[&str]) -> String {
    texts.concat(alloc).expect(rt, "memory")
}

/// The answers to the lines that end within the first bytes of the session.
pub(crate) fn answers_to(rt: &impl Abort, alloc: Global, bytes: usize) -> String {
    let mut answers = String::new(alloc);
    let mut left = bytes;
    for (line, answer) in LINES.into_iter().zip(ANSWERS) {
        if left < line.len() {
            return answers;
        }
        left -= line.len();
        answers.push_str(answer).expect(rt, "memory");
    }
    answers
}

/// Lines that one read gives, and whose answers are handed over in two parts: the first one has a
/// MiB.
pub(crate) fn lines_with_long_answers(rt: &impl Abort, alloc: Global) -> String {
    let owner = "x".repeat(alloc, 1_000).expect(rt, "memory");
    let owner = owner.as_str();
    let mut lines = String::from_str(alloc, OPENING).expect(rt, "memory");
    for id in 0..20 {
        let line = format!(in alloc; "{{\"insert\":\"acct\",\"row\":[{id},\"{owner}\",0]}}\n");
        let line = line.expect(rt, "memory");
        lines.push_str(line.as_str()).expect(rt, "memory");
    }
    let selects = "{\"select\":\"acct\",\"where\":[]}\n".repeat(alloc, 56);
    let selects = selects.expect(rt, "memory");
    lines.push_str(selects.as_str()).expect(rt, "memory");
    lines
}
