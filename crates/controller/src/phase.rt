//! The phases of the controller, each tick by what is due in it.
ghost use Rattle.std.specs.Prelude.{◌≡◌};
ghost use Rattle.controller.specs.Phase.{active_in, busy_in, clock_of, due_of, fell, pushed, rose, stepped, toggled};
ghost use Rattle.controller.specs.declared.phase.Phase.TheVariants.{Waiting};

use frame::format::Format;

/// Ticks from the last rise of the clock to completion.
const SETTLING: u32 = 500;

/// Ticks from completion to the end of recovery, 3,100 ticks after the last rise.
const RECOVERY: u32 = 2_600;

/// A transmission under way, with the settings that it was started with.
#[derive(Clone, Copy)]
pub struct Transmission {
    /// Ticks from one toggle of the clock to the next.
    pub half: u32,
    /// The format of the frame.
    pub format: Format,
    /// The level of the clock.
    pub high: bool,
    /// How often the clock has risen.
    pub rises: u32,
    /// Ticks that pass before the next toggle, or before completion.
    pub wait: u32,
    /// The bits taken so far.
    pub word: u64,
    /// The line was low when the clock first fell.
    pub fault: bool,
}

/// What the controller is doing.
// Waiting is a phase by its name, and every tick matches all three with what is due, so it is no None.
#[derive(Clone, Copy)]
pub enum Phase {
    /// Ready for a request.
    Waiting,
    /// A transmission is under way, up to its completion.
    Clocking(Transmission),
    /// The sensor recovers; so many ticks pass before the last one.
    Recovering { left: u32 },
}

/// What may be due for the controller in a tick; where nothing is, the tick only passes.
#[derive(Clone, Copy)]
pub enum Due {
    /// The clock toggles.
    Toggle,
    /// The phase completes.
    Completion,
    /// The channel leaves SSI mode.
    Drop,
}

/// A word with one more bit at its low end.
fn push_bit(word: u64, bit: bool) -> u64
    ensures { result ≡ pushed word bit }
{
    (word << 1) + u64::from(bit)
}

impl Transmission {
    /// The clock falls: the first time the idle line is checked, and then a bit is taken.
    fn fall(&mut self, level: bool)
        ensures { self.new ≡ fell level self.old }
    {
        self.high = false;
        self.wait = self.half.saturating_sub(1);
        if self.rises == 0 {
            self.fault = !level;
        } else {
            self.word = push_bit(self.word, level);
        }
    }

    /// The clock rises; the rise after the last bit leaves it high until completion.
    fn rise(&mut self)
        ensures { self.new ≡ rose self.old }
    {
        self.high = true;
        self.wait = if self.rises < self.format.bits() {
            self.half.saturating_sub(1)
        } else {
            SETTLING - 1
        };
        self.rises = self.rises.wrapping_add(1);
    }

    fn toggle(&mut self, level: bool)
        ensures { self.new ≡ toggled level self.old }
    {
        if self.high {
            self.fall(level);
        } else {
            self.rise();
        }
    }
}

impl Phase {
    /// What the next tick brings.
    pub(crate) fn due(&self) -> Option<Due>
        ensures { result ≡ due_of self.now }
    {
        match self {
            Phase::Clocking(t) if t.wait > 0 => None,
            Phase::Clocking(t) if t.rises > t.format.bits() => Some(Due::Completion),
            Phase::Clocking(_) => Some(Due::Toggle),
            Phase::Recovering { left: 0 } => Some(Due::Completion),
            Phase::Waiting | Phase::Recovering { .. } => None,
        }
    }

    /// The phase after what is due, with the filtered data line at `level`.
    pub(crate) fn step(&mut self, due: Option<Due>, level: bool)
        ensures { self.new ≡ stepped due level self.old }
    {
        match (&mut *self, due) {
            (Phase::Clocking(t), None) => t.wait = t.wait.saturating_sub(1),
            (Phase::Clocking(t), Some(Due::Toggle)) => t.toggle(level),
            (Phase::Clocking(_), Some(Due::Completion)) => *self = Phase::Recovering {
                left: RECOVERY - 1,
            },
            (Phase::Recovering { left }, None) => *left = left.saturating_sub(1),
            (Phase::Recovering { .. }, Some(Due::Completion)) => *self = Phase::Waiting,
            (_, Some(Due::Drop)) => *self = Phase::Waiting,
            _ => {}
        }
    }

    /// Leaving SSI mode drops what is under way; answers whether a transmission was.
    pub fn leave(&mut self) -> bool
        ensures answer { result ≡ busy_in self.old }
        ensures after { self.new ≡ Waiting }
    {
        let busy = self.busy();
        self.step(Some(Due::Drop), true);
        busy
    }

    /// The level of the SSI clock.
    pub fn clock(&self) -> bool
        ensures { result ≡ clock_of self.now }
    {
        match self {
            Phase::Clocking(t) => t.high,
            _ => true,
        }
    }

    /// BSY: a transmission is under way.
    pub fn busy(&self) -> bool
        ensures { result ≡ busy_in self.now }
    {
        matches!(self, Phase::Clocking(_))
    }

    /// SENSOR STATUS: a transmission or the sensor's recovery is under way.
    pub fn active(&self) -> bool
        ensures { result ≡ active_in self.now }
    {
        !matches!(self, Phase::Waiting)
    }
}
