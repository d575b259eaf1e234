//! The shift register of a sensor: what sends its frames.
ghost use Rattle.std.specs.Prelude.{◌≡◌, ◌≤◌, true};
ghost use Rattle.frame.specs.Layout.{frame_bits};
ghost use Rattle.sensor.specs.Model.{rises_in};
ghost use Rattle.sensor.specs.Range.{in_range};

use crate::constants::Constants;
use crate::phase::Phase;

/// What sends a sensor's frames.
#[derive(Clone, Copy)]
pub struct ShiftRegister {
    pub(crate) constants: Constants,
    pub(crate) phase: Phase,
    /// The clock level last seen.
    pub(crate) clock: bool,
    ghost ranged: { in_range constants ≡ true },
    ghost within: { rises_in phase ≤ frame_bits constants.format },
}
