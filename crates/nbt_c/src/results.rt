//! What any call returns beside the numbers of the crates' faults (our profile).

/// A `CName` holds no name.
pub(crate) const NO_NAME: u8 = 255;

/// The caller's buffer is too small.
pub(crate) const NO_ROOM: u8 = 254;

/// A time is above 2^60 milliseconds.
pub(crate) const NO_MOMENT: u8 = 253;

/// A kind is neither 0 nor 1.
pub(crate) const NO_KIND: u8 = 252;

/// A place is above the number of the octets.
pub(crate) const NO_PLACE: u8 = 251;

/// No more leases live.
pub(crate) const NO_LEASE: u8 = 250;

/// A poll sends nothing, at whatever time.
pub(crate) const NOTHING_DUE: u8 = 249;

/// What C passes, where it is right; else the call returns the number of what is wrong.
macro_rules! given {
    ($name:ident = $passed:expr, else $number:expr) => {
        let Some($name) = $passed else {
            return $number;
        };
    };
}

pub(crate) use given;
