//! Power-on and time.
ghost use Rattle.std.specs.Prelude.{◌≡◌};
ghost use Rattle.card.specs.Calls.{powered_on, tick_done, tick_levels};

use crate::shared::Shared;
use crate::{Card, Levels};
use channel::channel::Channel;
use table::{CHANNELS, tick_all};

impl Card {
    /// A card that has just been switched on.
    #[tactic(auto, unfolding(crate::specs::Calls::powered_on))]
    pub fn power_on() -> Card
        ensures { result ≡ powered_on }
    {
        Card {
            channels: [Channel::power_on(); CHANNELS],
            shared: Shared::power_on(),
        }
    }

    // Two words and no struct of both: a line of a script, a call of a list and a host have them one after the other.
    /// One tick of 10 ns with the levels of the encoder lines, in bits 23 to 0, and of the 24 V inputs.
    #[tactic(auto, unfolding(crate::specs::Calls::tick_done, crate::specs::Calls::tick_levels))]
    pub fn tick(&mut self, lines: u32, inputs: u8) -> Levels
        ensures answer { result ≡ tick_levels lines inputs self.old }
        ensures after { self.new ≡ tick_done lines inputs self.old }
    {
        let expired = self.shared.tick();
        tick_all(&mut self.channels, lines, u32::from(inputs), expired);
        self.trigger_by_timer(expired);
        self.levels()
    }
}
