// Each assertion is proved anew, and a call of this is not. What was found is not printed: few types can be.
use std::process::Abort;

/// Ends the test if what was found is not what was wanted.
pub fn same<R: Abort, T: PartialEq>(rt: &R, found: &T, wanted: &T) {
    assert!(rt; *found == *wanted);
}
