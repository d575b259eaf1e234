//! The sensor that keeps its position as a number.
ghost use Rattle.std.specs.Prelude.{◌^◌, ◌<◌};

use crate::shift_register::ShiftRegister;

/// A sensor that keeps its position as a number.
#[derive(Clone, Copy)]
pub struct NumberSensor {
    pub(crate) register: ShiftRegister,
    pub(crate) position: u32,
    ghost below: { position < 2 ^ register.constants.format.data_bits },
}
