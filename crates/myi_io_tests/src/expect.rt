//! `expect`, which compares two values.
use std::fmt::Debug;
use std::process::Abort;

/// Stops the test where the value is not the expected one. A function, so that a test that compares twenty
/// values is proved in the time of twenty calls.
pub(crate) fn expect<T: PartialEq + Debug + Drop>(rt: &impl Abort, value: T, expected: T) {
    assert_eq!(rt; value, expected);
}
