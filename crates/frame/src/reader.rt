//! What a frame word that came in says.
ghost use Rattle.std.specs.Prelude.{◌≡◌};
ghost use Rattle.frame.specs.Layout.{is_parity_wrong, reading_of, shown_parity};

use crate::format::Format;
use bits::{field, flag};

/// What was read from a frame.
#[derive(Clone, Copy)]
pub struct Reading {
    /// The position that the data bits carry.
    pub number: u32,
    /// The extra bits as a number.
    pub extra: u32,
    /// The parity bit, 0 where there is none.
    pub parity_bit: bool,
    /// Whether the parity bit and the bits that it covers disagree.
    pub parity_error: bool,
}

/// The parity bit of a frame word, 0 where there is none.
fn parity_shown(format: Format, word: u64) -> bool
    ensures { result ≡ shown_parity format.parity word }
{
    format.parity.is_some() && flag(word, 0)
}

/// Whether the ones that take part in parity are wrong in number.
fn parity_fails(format: Format, word: u64) -> bool
    ensures { result ≡ is_parity_wrong format word }
{
    format
        .parity
        .is_some_and(|parity| format.widths().parity_off(parity, word) == 1)
}

/// What a frame word says.
#[tactic(auto, unfolding(crate::specs::Layout::reading_of))]
pub fn read_frame(format: Format, word: u64) -> Reading
    ensures { result ≡ reading_of format word }
{
    let widths = format.widths();
    let parity = format.parity_bits();
    let data = field(word, widths.extra_bits + parity, widths.data_bits);
    Reading {
        number: format.code.decode(data),
        extra: field(word, parity, widths.extra_bits),
        parity_bit: parity_shown(format, word),
        parity_error: parity_fails(format, word),
    }
}
