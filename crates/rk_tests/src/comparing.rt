// Each assertion is proved anew, and a call of these is not. What was found is not printed: few types can be.
use std::process::Abort;

/// Ends the test if what was found is not what was wanted.
pub fn same<R: Abort, T: PartialEq>(rt: &R, found: &T, wanted: &T) {
    assert!(rt; *found == *wanted);
}

/// Ends the test if what was found in a row of a table is not what was wanted.
pub fn same_in<R: Abort, T: PartialEq>(rt: &R, row: usize, found: &T, wanted: &T) {
    assert!(rt; *found == *wanted, "in row {row}");
}
