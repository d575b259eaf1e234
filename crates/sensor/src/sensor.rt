//! What every kind of sensor does.
ghost use Rattle.std.specs.Prelude.{◌≡◌};
ghost use Rattle.sensor.specs.Model.{Model, Sound, advanced, level_of, reset_to, turn_answer, turned};

use crate::refusal::FieldRefusal;

/// A position sensor with a synchronous serial line.
// Two types implement it, one for each kind that docs/DECISIONS.md names; what both do alike is ShiftRegister's.
pub trait Sensor {
    /// What the sensor is, whatever it keeps.
    ghost meaning: { Self → Model };

    /// The level that it shows.
    fn level(&self) -> bool
        ensures { result ≡ level_of (meaning self.now) };

    /// Sets the position, if it fits the data bits.
    fn turn(&mut self, position: u32) -> Result<(), FieldRefusal>
        ensures answer { result ≡ turn_answer (meaning self.old) position }
        ensures after { meaning self.new ≡ turned (meaning self.old) position };

    /// One tick with the clock at a level.
    fn advance(&mut self, clock: bool)
        ensures { meaning self.new ≡ advanced (meaning self.old) clock };

    /// Makes it idle with its clock last seen high; the position stays.
    fn reset(&mut self)
        ensures { meaning self.new ≡ reset_to (meaning self.old) };

    /// Constants, position and phase are in range in every state.
    ghost sound: { (s : Self) → Sound (meaning s) };
}
