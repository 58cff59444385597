//! What tests expect. A proof grows faster than the length of its function, and most by assertions, so these stand here.
ghost use Rattle.std.specs.Prelude.{IsTrue};

use std::fmt::Debug;
use std::process::Abort;

pub(crate) fn expect(rt: &impl Abort, holds: bool)
    ensures { IsTrue holds }
{
    assert!(rt; holds);
}

/// Both are the same; where not, both are told.
pub(crate) fn expect_same<T: Debug + Drop + PartialEq>(rt: &impl Abort, found: T, wanted: T) {
    assert_eq!(rt; found, wanted);
}
