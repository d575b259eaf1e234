//! How many data bits and extra bits a frame has, and the bits of its word that a parity bit covers.
ghost use Rattle.std.specs.Prelude.{◌≡◌, ◌^◌, ◌<◌, ◌≤◌};
ghost use Rattle.frame.specs.Layout.{covered_bits, parity_mask, parity_off, parity_ones};

use crate::format::{Parity, Span};

/// How many data bits and extra bits a frame has.
#[derive(Clone, Copy)]
pub(crate) struct Widths {
    pub(crate) data_bits: u32,
    pub(crate) extra_bits: u32,
    ghost data_most: { data_bits ≤ 32 },
    ghost extra_most: { extra_bits ≤ 7 },
}

impl Widths {
    /// The covered bits among data bits and extra bits.
    fn covered(self, span: Span) -> u64
        ensures answer { result ≡ covered_bits span self.data_bits self.extra_bits }
        ensures below { result < 2 ^ 39 }
    {
        match span {
            Span::Data => ((1 << self.data_bits) - 1) << self.extra_bits,
            Span::Extra => (1 << self.extra_bits) - 1,
            Span::Both => (1 << (self.data_bits + self.extra_bits)) - 1,
        }
    }

    /// The bits of a frame word that take part in parity, the parity bit among them.
    fn mask(self, span: Span) -> u64
        ensures { result ≡ parity_mask span self.data_bits self.extra_bits }
    {
        self.covered(span) * 2 + 1
    }

    /// The ones of a frame word that take part in parity.
    fn ones(self, span: Span, word: u64) -> u32
        ensures answer { result ≡ parity_ones span self.data_bits self.extra_bits word }
        ensures most { result ≤ 64 }
    {
        (word & self.mask(span)).count_ones()
    }

    /// These ones, with one more where parity is odd, modulo 2: 0 where the parity is right.
    // A number and no bool: the sender puts it in the frame as the parity bit.
    pub(crate) fn parity_off(self, parity: Parity, word: u64) -> u32
        ensures answer { result ≡ parity_off parity self.data_bits self.extra_bits word }
        ensures below { result < 2 }
    {
        (self.ones(parity.span, word) + u32::from(parity.odd)) % 2
    }
}
