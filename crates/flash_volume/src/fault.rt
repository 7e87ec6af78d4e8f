//! A fault is an error, for who lets go of the device.
ghost use Rattle.std.specs.Prelude.{◌≡◌};

use crate::leave::LeaveFault;
use geometry::Error;

impl<M: Drop, B: Drop> From<LeaveFault<M, B>> for Error {
    ghost from_gives = { λ fault error. error ≡ fault.error };

    fn from(fault: LeaveFault<M, B>) -> Error {
        fault.error
    }
}
