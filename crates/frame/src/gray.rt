//! Gray words and binary numbers of up to 32 bits.
ghost use Rattle.std.specs.Prelude.{◌≡◌};
ghost use Rattle.frame.specs.Gray.{gray_word, ungray};
ghost use Rattle.frame.specs.Layout.{coded_as, decoded_as};

use crate::format::Code;

/// The Gray word of a number.
pub fn to_gray(number: u32) -> u32
    ensures { result ≡ gray_word number }
{
    number ^ number >> 1
}

/// The number of a Gray word.
pub fn from_gray(word: u32) -> u32
    ensures { result ≡ ungray 32 word }
{
    let mut number = 0;
    let mut rest = word;
    // a turn for each bit of the word: nothing is indexed
    for _i in 0..32u32 {
        number ^= rest;
        rest >>= 1;
    }
    number
}

impl Code {
    /// A position as the data bits carry it.
    pub(crate) fn encode(self, position: u32) -> u32
        ensures { result ≡ coded_as self position }
    {
        match self {
            Code::Binary => position,
            Code::Gray => to_gray(position),
        }
    }

    /// The position that data bits carry.
    pub(crate) fn decode(self, word: u32) -> u32
        ensures { result ≡ decoded_as self word }
    {
        match self {
            Code::Binary => word,
            Code::Gray => from_gray(word),
        }
    }
}
