//! What runs of the program don't show: readers and writers that are slow, interrupted or broken.
mod devices;
mod ends;
mod failures;
mod lines;
mod runs;

const EMPTY: &str = r#"{"version":1,"tables":[],"workers":1,"calls":[]}"#;

const STORED: &str =
    r#"{"version":1,"tables":[{"name":"acct","columns":[{"name":"id","kind":"int"},{"name":"owner","kind":"text","partition":true},{"name":"bal","kind":"int"}]}],"workers":1,"calls":[
{"worker":1,"insert":"acct","row":[1,"ann",10]},
{"worker":1,"select":"acct","where":[["owner","ann"]]}]}"#;

/// The report of the stored document.
const REPORT: &str =
    "call 1 worker 1 slot 1 inserted\ncall 2 worker 1 time 1 rows 1 [1,\"ann\",10]\ntable acct rows 1 [1,\"ann\",10]\nend generation 0 time 1\n";

/// The same report as JSON.
const JSON_REPORT: &str = r#"{"call":1,"worker":1,"slot":1,"replies":["inserted"]}
{"call":2,"worker":1,"time":1,"rows":[[1,"ann",10]]}
{"table":"acct","rows":[[1,"ann",10]]}
{"generation":0,"time":1}
"#;
