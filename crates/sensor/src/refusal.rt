//! Why a field or one of its sensors refuses an act, and the number that a host sees for it.
ghost use Rattle.std.specs.Prelude.{◌≡◌};
ghost use Rattle.sensor.specs.Codes.{code_of};

use thiserror::Error;

/// Why an act on a field or a sensor is refused. A refused act leaves field and sensor as they were.
#[derive(Clone, Copy, Debug, PartialEq, Eq, Error)]
pub enum FieldRefusal {
    /// The channel is above 7, or it has no sensor.
    #[error("the channel is above 7, or has no sensor")]
    Channel = 3,
    /// The position does not fit the sensor's data bits, or a constant of a new sensor is out of range.
    #[error("the position does not fit the data bits, or a constant is out of range")]
    Value = 4,
}

impl FieldRefusal {
    /// The number that a host sees.
    // A name of its own for the cast, since it says which number that is.
    pub fn code(self) -> u8
        ensures { result ≡ code_of self }
    {
        self as u8
    }
}
