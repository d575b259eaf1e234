//! What every field does.
ghost use Rattle.std.specs.Prelude.{◌≡◌};
ghost use Rattle.field.specs.Wiring.{FieldModel, Sounds, advanced_at, level_at, turn_answer_at, turned_at};

use sensor::refusal::FieldRefusal;

/// How many channels there are.
pub const CHANNELS: u32 = 8;

/// The sensors of eight channels, one or none at each.
pub trait Field {
    /// What is wired to each channel.
    ghost wired: { Self → FieldModel };

    /// The level that a channel's sensor shows, if there is one.
    fn level(&self, channel: u32) -> Option<bool>
        ensures { result ≡ level_at (wired self.now) channel };

    /// Turns a channel's sensor to a position.
    fn turn(&mut self, channel: u32, position: u32) -> Result<(), FieldRefusal>
        ensures answer { result ≡ turn_answer_at (wired self.old) channel position }
        ensures after { wired self.new ≡ turned_at (wired self.old) channel position };

    /// Gives a channel's sensor, if there is one, a tick with its clock at a level.
    fn advance(&mut self, channel: u32, clock: bool)
        ensures { wired self.new ≡ advanced_at (wired self.old) channel clock };

    /// Each sensor is sound in every state, and there is none above channel 7.
    ghost sound: { (f : Self) → Sounds (wired f) };
}
