//! What tests expect. A proof grows by each assertion that tells both values, so there is one.
use std::fmt::Debug;
use std::process::Abort;

/// Both are the same.
pub(crate) fn expect_same<T: Debug + Drop + PartialEq>(rt: &impl Abort, found: T, wanted: T) {
    assert_eq!(rt; found, wanted);
}
