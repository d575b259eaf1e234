//! Why the card refuses an access, and the number that a host sees for it.
#![tactic(auto)]

ghost use Rattle.std.specs.Prelude.{◌≡◌};
ghost use Rattle.refusal.specs.Codes.{code_of};

use thiserror::Error;

/// Why the card refuses an access. A refused access leaves the card as it was.
#[derive(Clone, Copy, Debug, PartialEq, Eq, Error)]
pub enum Refusal {
    /// The offset is not a multiple of 4, or it is above 0x1FC.
    #[error("the card has no register at this offset")]
    Offset = 1,
    /// The written word asks for a setting that the card does not have.
    #[error("the card does not have the setting that this word asks for")]
    Setting = 2,
}

impl Refusal {
    /// The number that a host sees.
    // A name of its own for the cast, since it says which number that is.
    pub fn code(self) -> u8
        ensures { result ≡ code_of self }
    {
        self as u8
    }
}
