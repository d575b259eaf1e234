//! The fields DEB BASE and DEB TIME of a debouncing register.
ghost use Rattle.std.specs.Prelude.{◌≡◌, ◌^◌, ◌<◌, refl};
ghost use Rattle.filter.specs.Debounces.{base_at, base_ticks, base_word, debounce_of, word_of_debounce, period_of, reset};
ghost use Rattle.filter.specs.declared.debounce.TimeBase.TheVariants.{Ns30, Ns100, Us1, Ms1};

use bits::{Setting, field, setting_at, with_setting};

/// The time base of a filter.
#[derive(Clone, Copy)]
pub enum TimeBase {
    Ns30 = 0,
    Ns100 = 1,
    Us1 = 2,
    Ms1 = 3,
}

/// How long a filter's period is: DEB TIME times its base.
#[derive(Clone, Copy)]
pub struct Debounce {
    pub base: TimeBase,
    pub time: u16,
}

/// DEB BASE.
impl Setting for TimeBase {
    const WIDTH: u32 = 2;

    ghost WIDTH = { 2 };

    ghost named = { base_at };

    ghost number_of = { base_word };

    ghost reads_back = { elim [ Ns30 ↦ refl | Ns100 ↦ refl | Us1 ↦ refl | Ms1 ↦ refl ] };

    fn from_number(number: u32) -> TimeBase {
        match number {
            0 => TimeBase::Ns30,
            1 => TimeBase::Ns100,
            2 => TimeBase::Us1,
            _ => TimeBase::Ms1,
        }
    }

    fn number(self) -> u32 {
        self as u32
    }
}

impl TimeBase {
    // Each register has clocks of its own, so there is no one table of them.
    fn ticks(self) -> u64
        ensures { result ≡ base_ticks self }
    {
        match self {
            TimeBase::Ns30 => 3,
            TimeBase::Ns100 => 10,
            TimeBase::Us1 => 100,
            TimeBase::Ms1 => 100_000,
        }
    }
}

impl Debounce {
    /// The setting at power-on: a period of three ticks.
    pub fn power_on() -> Debounce
        ensures { result ≡ reset }
    {
        Debounce {
            base: TimeBase::Ns30,
            time: 1,
        }
    }

    /// Ticks between samples.
    pub fn period(self) -> u64
        ensures { result ≡ period_of self }
    {
        if self.time == 0 {
            1
        } else {
            u64::from(self.time) * self.base.ticks()
        }
    }
}

/// The fields of a word that is written.
impl From<u32> for Debounce {
    ghost from_gives = { λ word debounce. debounce ≡ debounce_of word };

    fn from(word: u32) -> Debounce {
        Debounce {
            base: setting_at(word, 16),
            time: field(word, 0, 16) as u16,
        }
    }
}

/// The fields as a register shows them.
impl From<Debounce> for u32 {
    ghost from_gives = { λ debounce word. (word ≡ word_of_debounce debounce) × (word < 2 ^ 18) };

    fn from(debounce: Debounce) -> u32 {
        with_setting(u32::from(debounce.time), 16, debounce.base)
    }
}
