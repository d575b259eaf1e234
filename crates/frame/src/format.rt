//! What a frame is made of: how many bits, in which code, and what its parity bit covers.
ghost use Rattle.std.specs.Prelude.{◌≡◌, ◌<◌, ◌≤◌, Some};
ghost use Rattle.frame.specs.Layout.{data_bit_count, extra_bit_count, frame_bits, parity_bits};
ghost use Rattle.frame.specs.Numbers.{code_at, code_number, code_reads_back, span_at, span_number};

use crate::widths::Widths;
use bits::Setting;

/// How a position is written in the data bits.
#[derive(Clone, Copy)]
pub enum Code {
    /// As a binary number.
    Binary = 0,
    /// As a Gray word.
    Gray = 1,
}

/// The bits that a parity bit covers.
#[derive(Clone, Copy)]
pub enum Span {
    /// The data bits.
    Data = 1,
    /// The extra bits.
    Extra = 2,
    /// Data bits and extra bits.
    Both = 3,
}

/// The parity bit of a frame.
#[derive(Clone, Copy)]
pub struct Parity {
    /// The bits that it covers.
    pub span: Span,
    /// The ones among these and the parity bit are odd in number, or else even.
    pub odd: bool,
}

/// The format of a frame: data bits first, then extra bits, then the parity bit.
#[derive(Clone, Copy)]
pub struct Format {
    /// 1 to 32; more count as 32.
    pub data_bits: u32,
    /// 0 to 7; more count as 7.
    pub extra_bits: u32,
    /// The parity bit, if there is one.
    pub parity: Option<Parity>,
    /// The code of the data bits.
    pub code: Code,
}

impl Setting for Code {
    const WIDTH: u32 = 1;

    ghost WIDTH = { 1 };

    ghost named = { code_at };

    ghost number_of = { code_number };

    ghost reads_back = { code_reads_back };

    fn from_number(number: u32) -> Code {
        if number == 1 {
            Code::Gray
        } else {
            Code::Binary
        }
    }

    fn number(self) -> u32 {
        self as u32
    }
}

impl Span {
    /// The bits that a field of two bits names: 0 none, 1 the data bits, 2 the extra bits, and any other number both.
    pub fn from_number(number: u32) -> Option<Span>
        ensures { result ≡ span_at number }
    {
        match number {
            0 => None,
            1 => Some(Span::Data),
            2 => Some(Span::Extra),
            _ => Some(Span::Both),
        }
    }

    /// The number that names these bits.
    pub fn number(self) -> u32
        ensures answer { result ≡ span_number self }
        ensures below { result < 4 }
        ensures back { span_at result ≡ Some self }
    {
        self as u32
    }
}

impl Format {
    /// How many data bits and extra bits a frame has.
    pub(crate) fn widths(self) -> Widths
        ensures data_bits { result.data_bits ≡ data_bit_count self }
        ensures extra_bits { result.extra_bits ≡ extra_bit_count self }
    {
        Widths {
            data_bits: self.data_bits.min(32),
            extra_bits: self.extra_bits.min(7),
        }
    }

    /// How many parity bits a frame has.
    pub(crate) fn parity_bits(self) -> u32
        ensures answer { result ≡ parity_bits self.parity }
        ensures most { result ≤ 1 }
    {
        u32::from(self.parity.is_some())
    }

    /// How many bits a frame has in all.
    pub fn bits(self) -> u32
        ensures answer { result ≡ frame_bits self }
        ensures most { result ≤ 40 }
    {
        let widths = self.widths();
        widths.data_bits + widths.extra_bits + self.parity_bits()
    }
}
