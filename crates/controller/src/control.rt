//! The SSI Mode Control word, decoded once when it is written.
ghost use Rattle.std.specs.Prelude.{◌≡◌, refl};
ghost use Rattle.controller.specs.Control.{control_of, decoded, format_of, start_at, start_number, word_of_control};
ghost use Rattle.controller.specs.declared.control.Start.TheVariants.{Request, Timer};

use bits::{Setting, field, flag, setting_at, with_bit, with_field, with_setting};
use frame::format::{Code, Format, Parity, Span};
use refusal::Refusal;

/// START: what makes a request.
#[derive(Clone, Copy, PartialEq, Eq)]
pub enum Start {
    /// A write to the Data Register, or a snapshot.
    Request = 0,
    /// The interval timer.
    Timer = 1,
}

/// What the SSI Mode Control Register holds.
#[derive(Clone, Copy)]
pub struct SsiControl {
    /// CR: the clock rate in kHz.
    pub rate: u32,
    /// DB + 1: how many data bits a frame has.
    pub data_bits: u32,
    /// ZB: how many extra bits it has.
    pub extra_bits: u32,
    /// PAR: the bits for which parity errors are detected; without them a frame has no parity bit.
    pub check: Option<Span>,
    /// EO: odd parity, which reads back as written where PAR is 00 too.
    pub odd: bool,
    /// CODE.
    pub code: Code,
    /// START.
    pub start: Start,
    /// SSI DELAY, kept and not used.
    pub delay: u32,
}

// One bit of the two: START 10 and 11 are refused before, with the listen-only mode.
impl Setting for Start {
    const WIDTH: u32 = 1;

    ghost WIDTH = { 1 };

    ghost named = { start_at };

    ghost number_of = { start_number };

    fn from_number(number: u32) -> Start {
        if number == 1 {
            Start::Timer
        } else {
            Start::Request
        }
    }

    fn number(self) -> u32 {
        self as u32
    }

    ghost reads_back = { elim [ Request ↦ refl | Timer ↦ refl ] };
}

impl TryFrom<u32> for SsiControl {
    type Error = Refusal;

    ghost try_from_gives = { λ word settings. settings ≡ decoded word };

    /// The settings of a written word; refused are listen-only mode and START 10 and 11.
    fn try_from(word: u32) -> Result<SsiControl, Refusal> {
        if flag(word, 24) || field(word, 25, 2) > 1 {
            return Err(Refusal::Setting);
        }
        Ok(SsiControl::in_word(word))
    }
}

impl Default for SsiControl {
    ghost is_default = { λ settings. settings ≡ control_of 0 };

    /// The settings of the word 0.
    fn default() -> SsiControl {
        SsiControl::in_word(0)
    }
}

impl From<SsiControl> for u32 {
    ghost from_gives = { λ settings word. word ≡ word_of_control settings };

    /// The word that the register reads.
    fn from(settings: SsiControl) -> u32 {
        let w = field(settings.rate, 0, 12);
        let w = with_field(w, 12, 5, field(settings.data_bits.saturating_sub(1), 0, 5));
        let w = with_field(w, 17, 3, field(settings.extra_bits, 0, 3));
        let w = with_field(w, 20, 2, settings.check.map_or(0, Span::number));
        let w = with_bit(w, 22, settings.odd);
        let w = with_setting(w, 23, settings.code);
        let w = with_setting(w, 25, settings.start);
        with_field(w, 27, 5, field(settings.delay, 0, 5))
    }
}

impl SsiControl {
    /// What the fields of a word set.
    fn in_word(word: u32) -> SsiControl
        ensures { result ≡ control_of word }
    {
        SsiControl {
            rate: field(word, 0, 12),
            data_bits: field(word, 12, 5) + 1,
            extra_bits: field(word, 17, 3),
            check: Span::from_number(field(word, 20, 2)),
            odd: flag(word, 22),
            code: setting_at(word, 23),
            start: setting_at(word, 25),
            delay: field(word, 27, 5),
        }
    }

    /// The format of the frames that the settings ask for.
    pub fn format(&self) -> Format
        ensures { result ≡ format_of self.now }
    {
        Format {
            data_bits: self.data_bits,
            extra_bits: self.extra_bits,
            parity: self.check.map(|span| Parity {
                span,
                odd: self.odd,
            }),
            code: self.code,
        }
    }
}
