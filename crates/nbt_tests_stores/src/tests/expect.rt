//! What a row expects, as calls: an `assert!` is written out in each place where it stands, and the prover goes through all of it each
//! time. A library may not end a process, so these stand among the tests.

ghost use Rattle.std.specs.Prelude.{◌≡◌, true};

use std::fmt::Debug;
use std::process::Abort;

/// Stops the test unless this is so.
pub fn expect(rt: &impl Abort, is: bool)
    ensures { is ≡ true }
{
    assert!(rt; is);
}

/// Stops the test unless this is so, and prints the row.
pub fn expect_in(rt: &impl Abort, row: &impl Debug, is: bool)
    ensures { is ≡ true }
{
    assert!(rt; is, "{row:?}");
}

/// Stops the test unless the two are equal, and prints both.
pub fn expect_eq<T: PartialEq + Debug>(rt: &impl Abort, got: &T, wanted: &T) {
    assert_eq!(rt; got, wanted);
}

/// Stops the test unless the two are equal, and prints both and the row.
pub fn expect_eq_in<T: PartialEq + Debug>(rt: &impl Abort, row: &impl Debug, got: &T, wanted: &T) {
    assert_eq!(rt; got, wanted, "{row:?}");
}
