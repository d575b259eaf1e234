//! What the sensor that keeps a number does.
#![tactic(auto, unfolding(crate::specs::Model::advanced, crate::specs::Model::level_of, crate::specs::Model::reset_to, crate::specs::Model::turned, crate::specs::Model::turn_answer))]

ghost use Rattle.std.specs.Prelude.{◌≡◌};
ghost use Rattle.std.specs.Result.{result_map_both};
ghost use Rattle.sensor.specs.Kinds.{number_model};
ghost use Rattle.sensor.specs.Model.{made};
ghost use Rattle.sensor.specs.KindsSound.{number_sound};

use crate::constants::Constants;
use crate::number::NumberSensor;
use crate::refusal::FieldRefusal;
use crate::sensor::Sensor;
use crate::shift_register::ShiftRegister;

impl NumberSensor {
    /// A sensor with these constants, at position 0; refused if one is out of range.
    pub fn new(constants: Constants) -> Result<NumberSensor, FieldRefusal>
        ensures { result_map_both number_model (λ e. e) result ≡ made constants }
    {
        Ok(NumberSensor {
            register: ShiftRegister::new(constants)?,
            position: 0,
        })
    }
}

impl Sensor for NumberSensor {
    ghost meaning = { number_model };

    ghost sound = { number_sound };

    fn level(&self) -> bool {
        self.register.level()
    }

    fn turn(&mut self, position: u32) -> Result<(), FieldRefusal> {
        self.register.admit(position)?;
        self.position = position;
        Ok(())
    }

    fn advance(&mut self, clock: bool) {
        let position = self.position;
        self.register.advance(clock, || position);
    }

    fn reset(&mut self) {
        self.register.reset();
    }
}
