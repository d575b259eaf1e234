//! What the sensor that keeps a Gray word does.
#![tactic(auto, unfolding(crate::specs::Model::advanced, crate::specs::Model::level_of, crate::specs::Model::reset_to, crate::specs::Model::turned, crate::specs::Model::turn_answer), using(crate::proofs::KindLaws::gray_fits, crate::proofs::KindLaws::gray_back, crate::proofs::KindLaws::gray_zero))]

ghost use Rattle.std.specs.Prelude.{◌≡◌};
ghost use Rattle.std.specs.Result.{result_map_both};
ghost use Rattle.sensor.specs.Kinds.{gray_model};
ghost use Rattle.sensor.specs.Model.{made};
ghost use Rattle.sensor.specs.KindsSound.{gray_sound};

use crate::constants::Constants;
use crate::gray::GraySensor;
use crate::refusal::FieldRefusal;
use crate::sensor::Sensor;
use crate::shift_register::ShiftRegister;
use frame::gray::{from_gray, to_gray};

impl GraySensor {
    /// A sensor with these constants, at position 0; refused if one is out of range.
    pub fn new(constants: Constants) -> Result<GraySensor, FieldRefusal>
        ensures { result_map_both gray_model (λ e. e) result ≡ made constants }
    {
        Ok(GraySensor {
            register: ShiftRegister::new(constants)?,
            word: 0,
        })
    }
}

impl Sensor for GraySensor {
    ghost meaning = { gray_model };

    ghost sound = { gray_sound };

    fn level(&self) -> bool {
        self.register.level()
    }

    fn turn(&mut self, position: u32) -> Result<(), FieldRefusal> {
        self.register.admit(position)?;
        self.word = to_gray(position);
        Ok(())
    }

    fn advance(&mut self, clock: bool) {
        let word = self.word;
        self.register.advance(clock, || from_gray(word));
    }

    fn reset(&mut self) {
        self.register.reset();
    }
}
