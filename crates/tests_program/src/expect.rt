//! Assertions as functions. A test with many assertions is proved faster with calls of these than with macros.
use std::fmt::Debug;
use std::process::Abort;

// Fails the test if what was found isn't what was wanted.
pub fn same<T: PartialEq + Debug>(rt: &impl Abort, found: &T, wanted: &T) {
    assert_eq!(rt; *found, *wanted);
}
