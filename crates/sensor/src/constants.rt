//! The constants of a sensor, and whether they are in range.
ghost use Rattle.std.specs.Prelude.{◌≡◌};
ghost use Rattle.sensor.specs.Range.{data_bits_fit, extra_bits_fit, in_range, recovery_fits};

use frame::format::Format;

/// What never changes about a sensor.
#[derive(Clone, Copy)]
pub struct Constants {
    /// The format of its frames: 1 to 32 data bits, 0 to 7 extra bits.
    pub format: Format,
    /// The extra bits as a number that fits them.
    pub extra: u32,
    /// How many ticks it recovers after a frame, 1,000 to 3,000.
    pub recovery: u32,
}

impl Constants {
    fn data_bits_in_range(self) -> bool
        ensures { result ≡ data_bits_fit self }
    {
        (1..=32).contains(&self.format.data_bits)
    }

    fn extra_bits_in_range(self) -> bool
        ensures { result ≡ extra_bits_fit self }
    {
        self.format.extra_bits <= 7 && self.extra < 1 << self.format.extra_bits
    }

    fn recovery_in_range(self) -> bool
        ensures { result ≡ recovery_fits self }
    {
        (1000..=3000).contains(&self.recovery)
    }

    /// Whether a sensor can have these constants.
    #[tactic(auto, unfolding(crate::specs::Range::in_range))]
    pub fn in_range(self) -> bool
        ensures { result ≡ in_range self }
    {
        self.data_bits_in_range() && self.extra_bits_in_range() && self.recovery_in_range()
    }
}
