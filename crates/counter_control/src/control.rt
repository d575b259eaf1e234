//! The Counter Mode Control word: decoded when written, put together when read.
ghost use Rattle.std.specs.Prelude.{◌≡◌};
ghost use Rattle.counter_control.specs.Words.{control_of, word_of_control, decoded, Kept, power_on_control};

use crate::modes::{BaseClock, IndexMode, InputMode, SpecialMode};
use bits::{field, flag, setting_at, with_bit, with_field, with_setting};
use refusal::Refusal;

/// The settings of a counter.
#[derive(Clone, Copy, Default)]
pub struct Control {
    pub input: InputMode,
    pub clock: BaseClock,
    pub special: SpecialMode,
    pub index: IndexMode,
    pub invert_a: bool,
    pub invert_b: bool,
    pub invert_i: bool,
}

impl Control {
    /// The settings at power-on: those of word 0.
    pub fn power_on() -> Control
        ensures { result ≡ power_on_control }
    {
        Control::default()
    }

    // the settings of a word beside its index mode
    fn with_index(index: IndexMode, word: u32) -> Control
        ensures { result ≡ control_of index word }
    {
        Control {
            input: setting_at(word, 0),
            clock: setting_at(word, 3),
            special: setting_at(word, 6),
            index,
            invert_a: flag(word, 11),
            invert_b: flag(word, 12),
            invert_i: flag(word, 13),
        }
    }
}

/// The settings of a written word, refused where the card lacks its index mode.
impl TryFrom<u32> for Control {
    type Error = Refusal;

    ghost try_from_gives = { λ word r. (r ≡ decoded word) × Kept word r };

    #[tactic(auto, using(crate::proofs::ReadBack::kept_at), unfolding(crate::specs::Words::decoded))]
    fn try_from(word: u32) -> Result<Control, Refusal> {
        let index = IndexMode::try_from(field(word, 8, 3))?;
        Ok(Control::with_index(index, word))
    }
}

/// The word as it is read back.
impl From<Control> for u32 {
    ghost from_gives = { λ control word. word ≡ word_of_control control };

    #[tactic(auto, unfolding(crate::specs::Words::word_of_control))]
    fn from(control: Control) -> u32 {
        let word = with_setting(0, 0, control.input);
        let word = with_setting(word, 3, control.clock);
        let word = with_setting(word, 6, control.special);
        let word = with_field(word, 8, 3, control.index as u32);
        let word = with_bit(word, 11, control.invert_a);
        let word = with_bit(word, 12, control.invert_b);
        with_bit(word, 13, control.invert_i)
    }
}
