//! What a plug does as a field, and how a sensor is plugged.
#![tactic(auto, using(crate::proofs::FieldLaws::acts_here, crate::proofs::FieldLaws::acts_below, crate::proofs::FieldLaws::plug_here, crate::specs::FieldsSound::plug_below))]

ghost use Rattle.std.specs.Prelude.{◌≡◌, ◌<◌, ◌≤◌, MatchResult};
ghost use Rattle.sensor.specs.Model.{reset_to};
ghost use Rattle.field.specs.Plugging.{plug_model, not_plugged};
ghost use Rattle.field.specs.Wiring.{plugged};
ghost use Rattle.field.specs.FieldsSound.{plug_sounds};

use crate::field::{CHANNELS, Field};
use crate::plug::Plug;
use sensor::refusal::FieldRefusal;
use sensor::sensor::Sensor;

impl<S: Sensor, F: Field> Field for Plug<S, F> {
    ghost wired = { plug_model S.Sensor.meaning F.Field.wired };

    ghost sound = { λ p. plug_sounds _ _ _ p.within (S.Sensor.sound p.sensor) (F.Field.sound p.below) };

    fn level(&self, channel: u32) -> Option<bool> {
        if channel == self.channel {
            Some(self.sensor.level())
        } else {
            self.below.level(channel)
        }
    }

    fn turn(&mut self, channel: u32, position: u32) -> Result<(), FieldRefusal> {
        if channel == self.channel {
            self.sensor.turn(position)
        } else {
            self.below.turn(channel, position)
        }
    }

    fn advance(&mut self, channel: u32, clock: bool) {
        if channel == self.channel {
            self.sensor.advance(clock);
        } else {
            self.below.advance(channel, clock);
        }
    }
}

/// A sensor and a field that were not plugged, given back with the reason.
#[derive(Drop)]
pub struct NotPlugged<S, F> {
    pub refusal: FieldRefusal,
    pub sensor: S,
    pub below: F,
}

// By hand: `?` keeps the refusal and lets sensor and field go.
impl<S: Drop, F: Drop> From<NotPlugged<S, F>> for FieldRefusal {
    ghost from_gives = { λ e r. r ≡ e.refusal };

    fn from(no: NotPlugged<S, F>) -> FieldRefusal {
        no.refusal
    }
}

/// Resets a sensor and puts it over a field, at a channel up to 7.
pub fn plug<S: Sensor, F: Field>(
    channel: u32,
    mut sensor: S,
    below: F,
) -> Result<Plug<S, F>, NotPlugged<S, F>>
    ensures { MatchResult result (λ p. (channel < 8) × (plug_model S.Sensor.meaning F.Field.wired p ≡ plugged channel (reset_to (S.Sensor.meaning sensor)) (F.Field.wired below))) (λ e. (8 ≤ channel) × (e ≡ not_plugged sensor below)) }
{
    if channel >= CHANNELS {
        return Err(NotPlugged {
            refusal: FieldRefusal::Channel,
            sensor,
            below,
        });
    }
    sensor.reset();
    Ok(Plug {
        channel,
        sensor,
        below,
    })
}
