//! The field without a sensor.
#![tactic(auto, using(crate::proofs::FieldLaws::none_acts))]

ghost use Rattle.field.specs.Wiring.{none_wired};
ghost use Rattle.field.specs.FieldsSound.{none_sounds};

use crate::field::Field;
use sensor::refusal::FieldRefusal;

/// A field without a sensor.
#[derive(Clone, Copy)]
pub struct EmptyField;

impl Field for EmptyField {
    ghost wired = { λ _. none_wired };

    ghost sound = { λ _. none_sounds };

    fn level(&self, channel: u32) -> Option<bool> {
        None
    }

    fn turn(&mut self, channel: u32, position: u32) -> Result<(), FieldRefusal> {
        Err(FieldRefusal::Channel)
    }

    fn advance(&mut self, channel: u32, clock: bool) {}
}
