use std::fmt::Debug;
use std::process::Abort;

/// Asserts that two values are equal. An `assert_eq!` in a test makes the test longer to prove.
pub(crate) fn same<T: PartialEq + Debug>(rt: &impl Abort, got: &T, want: &T) {
    assert_eq!(rt; *got, *want);
}
