//! The interval timer.
#![tactic(auto)]

ghost use Rattle.std.specs.Prelude.{◌≡◌, refl};
ghost use Rattle.timer.specs.Timers.{base_at, base_ticks, base_word, word_of_control, control_written, expires, loaded, new_timer, period_ended, preload_written, reloads, ticked};
ghost use Rattle.timer.specs.declared.Base.TheVariants.{Ns100, Us1, Ms1, S1};
ghost use Rattle.timer.specs.Intervals.{KeepsInterval};

use bits::{Setting, flag, setting_at, with_bit, with_setting};

/// The timer's time base, ITTB.
#[derive(Clone, Copy, Default, PartialEq, Eq)]
pub enum Base {
    #[default]
    Ns100 = 0,
    Us1 = 1,
    Ms1 = 2,
    S1 = 3,
}

/// The interval timer: it expires each ITPRE periods of its base.
#[derive(Clone, Copy, Default)]
pub struct Timer {
    /// ITEN.
    pub enabled: bool,
    /// ITTB.
    pub base: Base,
    /// ITPRE, which acts at the next load.
    pub preload: u32,
    /// The periods left, which the Data Register shows; 0 never expires.
    // The number of the register and no Option of it: 0 is what the register shows then.
    pub left: u32,
    /// The ticks left of the present base period.
    pub wait: u32,
}

impl Setting for Base {
    const WIDTH: u32 = 2;

    ghost WIDTH = { 2 };

    ghost named = { base_at };

    ghost number_of = { base_word };

    ghost reads_back = { elim [ Ns100 ↦ refl | Us1 ↦ refl | Ms1 ↦ refl | S1 ↦ refl ] };

    fn from_number(number: u32) -> Base {
        match number {
            0 => Base::Ns100,
            1 => Base::Us1,
            2 => Base::Ms1,
            _ => Base::S1,
        }
    }

    fn number(self) -> u32 {
        self as u32
    }
}

impl Base {
    // Each register has clocks of its own, so there is no one table of them.
    fn ticks(self) -> u32
        ensures { result ≡ base_ticks self }
    {
        match self {
            Base::Ns100 => 10,
            Base::Us1 => 100,
            Base::Ms1 => 100_000,
            Base::S1 => 100_000_000,
        }
    }
}

impl Timer {
    /// Disabled, with nothing left.
    pub fn power_on() -> Timer
        ensures { result ≡ new_timer }
    {
        Timer::default()
    }

    /// All of the preload is left, and a base period starts.
    fn load(&mut self)
        ensures { self.new ≡ loaded self.old }
    {
        self.left = self.preload;
        self.wait = self.base.ticks();
    }

    /// The last tick of a base period; whether the timer expired.
    fn end_period(&mut self) -> bool
        ensures { (self.new, result) ≡ period_ended self.old }
    {
        if self.left > 1 {
            self.left -= 1;
            self.wait = self.base.ticks();
            false
        } else {
            self.load();
            true
        }
    }

    /// One tick; whether the timer expired.
    pub fn tick(&mut self) -> bool
        ensures answer { result ≡ expires self.old }
        ensures after { self.new ≡ ticked self.old }
        ensures interval { KeepsInterval }
    {
        if !self.enabled || self.left == 0 {
            return false;
        }
        if self.wait > 1 {
            self.wait -= 1;
            return false;
        }
        self.end_period()
    }

    /// Whether a write that gives these settings loads the timer.
    fn loads(&self, enabled: bool, base: Base) -> bool
        ensures { result ≡ reloads enabled base self.now }
    {
        enabled && (!self.enabled || self.base != base)
    }

    /// Interval Timer Control: it loads when ITEN rises, and when ITTB changes while ITEN stays 1.
    pub fn write_control(&mut self, word: u32)
        ensures { self.new ≡ control_written word self.old }
    {
        let enabled = flag(word, 0);
        let base = setting_at(word, 1);
        let loads = self.loads(enabled, base);
        self.enabled = enabled;
        self.base = base;
        if loads {
            self.load();
        }
    }

    pub fn control_word(&self) -> u32
        ensures { result ≡ word_of_control self.now }
    {
        let word = with_bit(0, 0, self.enabled);
        with_setting(word, 1, self.base)
    }

    pub fn write_preload(&mut self, value: u32)
        ensures { self.new ≡ preload_written value self.old }
    {
        self.preload = value;
    }
}
