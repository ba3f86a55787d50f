//! What the tests of all modules check by.

ghost use Rattle.std.specs.Prelude.{◌≡◌, true};

use std::fmt::Debug;
use std::process::Abort;

/// Stops unless what was seen is what was expected. An `assert_eq!` is proved anew at each place,
/// beside all that is alive there.
pub fn check_equal<T: Debug + PartialEq + Drop>(rt: &impl Abort, seen: T, expected: T)
    ensures { T.eq seen expected ≡ true }
{
    assert_eq!(rt; seen, expected);
}
