//! The fields of a Counter Mode Control word: each by its number, and back to it.
ghost use Rattle.std.specs.Prelude.{◌≡◌, ◌≤◌};
ghost use Rattle.counter_control.specs.Modes.{clock_at, clock_code, clock_reads_back, index_answer, input_at, input_code, input_reads_back, special_at, special_code, special_reads_back, ticks_of};

use bits::Setting;
use refusal::Refusal;

/// How the lines, or the internal clock, make steps.
// Disabled is INPUT 000, one of the field's eight names, so that no Option of the other seven is plainer.
#[derive(Clone, Copy, Default, PartialEq, Eq)]
pub enum InputMode {
    #[default]
    Disabled = 0,
    TimerUp = 1,
    TimerDown = 2,
    Direction = 3,
    UpDown = 4,
    Quadrature1 = 5,
    Quadrature2 = 6,
    Quadrature4 = 7,
}

/// The internal clock of the timer modes.
#[derive(Clone, Copy, Default)]
pub enum BaseClock {
    #[default]
    Mhz1 = 0,
    Mhz2 = 1,
    Mhz4 = 2,
    Mhz5 = 3,
    Mhz10 = 4,
    Mhz20 = 5,
    Mhz50 = 6,
    Mhz100 = 7,
}

/// What becomes of a step that wraps.
#[derive(Clone, Copy, Default, PartialEq, Eq)]
pub enum SpecialMode {
    #[default]
    Cycling = 0,
    DivideByN = 1,
    SingleCycle = 2,
    /// The second number of the cycling counter.
    CyclingAlternate = 3,
}

/// What an event on I does.
// Ignore is ICM 000, a name of the field as the other four are.
#[derive(Clone, Copy, Default, PartialEq, Eq)]
pub enum IndexMode {
    #[default]
    Ignore = 0,
    Load = 1,
    Latch = 2,
    Gate = 3,
    Reset = 4,
}

impl Setting for InputMode {
    const WIDTH: u32 = 3;

    ghost WIDTH = { 3 };

    ghost named = { input_at };

    ghost number_of = { input_code };

    ghost reads_back = { input_reads_back };

    fn from_number(number: u32) -> InputMode {
        match number {
            0 => InputMode::Disabled,
            1 => InputMode::TimerUp,
            2 => InputMode::TimerDown,
            3 => InputMode::Direction,
            4 => InputMode::UpDown,
            5 => InputMode::Quadrature1,
            6 => InputMode::Quadrature2,
            _ => InputMode::Quadrature4,
        }
    }

    fn number(self) -> u32 {
        self as u32
    }
}

impl Setting for BaseClock {
    const WIDTH: u32 = 3;

    ghost WIDTH = { 3 };

    ghost named = { clock_at };

    ghost number_of = { clock_code };

    ghost reads_back = { clock_reads_back };

    fn from_number(number: u32) -> BaseClock {
        match number {
            0 => BaseClock::Mhz1,
            1 => BaseClock::Mhz2,
            2 => BaseClock::Mhz4,
            3 => BaseClock::Mhz5,
            4 => BaseClock::Mhz10,
            5 => BaseClock::Mhz20,
            6 => BaseClock::Mhz50,
            _ => BaseClock::Mhz100,
        }
    }

    fn number(self) -> u32 {
        self as u32
    }
}

impl BaseClock {
    /// The ticks of 10 ns in a period of this clock.
    // Each register has clocks of its own, so there is no one table of them.
    pub fn ticks(self) -> u32
        ensures answer { result ≡ ticks_of self }
        ensures some { 1 ≤ result }
        ensures few { result ≤ 100 }
    {
        match self {
            BaseClock::Mhz1 => 100,
            BaseClock::Mhz2 => 50,
            BaseClock::Mhz4 => 25,
            BaseClock::Mhz5 => 20,
            BaseClock::Mhz10 => 10,
            BaseClock::Mhz20 => 5,
            BaseClock::Mhz50 => 2,
            BaseClock::Mhz100 => 1,
        }
    }
}

impl Setting for SpecialMode {
    const WIDTH: u32 = 2;

    ghost WIDTH = { 2 };

    ghost named = { special_at };

    ghost number_of = { special_code };

    ghost reads_back = { special_reads_back };

    fn from_number(number: u32) -> SpecialMode {
        match number {
            0 => SpecialMode::Cycling,
            1 => SpecialMode::DivideByN,
            2 => SpecialMode::SingleCycle,
            _ => SpecialMode::CyclingAlternate,
        }
    }

    fn number(self) -> u32 {
        self as u32
    }
}

/// The card lacks an index mode for some numbers, so this field is no `Setting`.
impl TryFrom<u32> for IndexMode {
    type Error = Refusal;

    ghost try_from_gives = { λ number r. r ≡ index_answer number };

    fn try_from(number: u32) -> Result<IndexMode, Refusal> {
        match number {
            0 => Ok(IndexMode::Ignore),
            1 => Ok(IndexMode::Load),
            2 => Ok(IndexMode::Latch),
            3 => Ok(IndexMode::Gate),
            4 => Ok(IndexMode::Reset),
            _ => Err(Refusal::Setting),
        }
    }
}
