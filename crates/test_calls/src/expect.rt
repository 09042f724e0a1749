// Assertions as calls, so that each is proved once and not in every test.
use std::fmt::Debug;
use std::process::Abort;

/// Fails the test if `holds` is false.
pub(crate) fn expect<R: Abort>(rt: &R, holds: bool) {
    assert!(rt; holds);
}

/// Fails the test and prints both values if they differ.
pub(crate) fn expect_eq<T: PartialEq + Debug + Drop, R: Abort>(rt: &R, found: T, wanted: T) {
    assert_eq!(rt; found, wanted);
}
