//! The sensor that keeps the Gray word of its position.
ghost use Rattle.std.specs.Prelude.{◌^◌, ◌<◌};

use crate::shift_register::ShiftRegister;

/// A sensor that keeps the Gray word of its position, as the track of a coded disc does.
#[derive(Clone, Copy)]
pub struct GraySensor {
    pub(crate) register: ShiftRegister,
    pub(crate) word: u32,
    ghost below: { word < 2 ^ register.constants.format.data_bits },
}
