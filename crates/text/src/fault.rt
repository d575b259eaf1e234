// Why a script stops, and the number that a host sees for it.
ghost use Rattle.std.specs.Prelude.{◌≡◌};
ghost use Rattle.text.specs.Faults.{fault_code};
ghost use Rattle.text.specs.declared.fault.Fault.TheVariants.{Access};

use refusal::Refusal;
use thiserror::Error;

/// Why a line is not run, or a script not begun.
#[derive(Clone, Copy, Debug, PartialEq, Eq, Error)]
pub enum Fault {
    /// The card refuses the access.
    #[error(transparent)]
    Access(Refusal),
    /// The script has more bytes than one run takes.
    #[error("the script is too long")]
    Length,
    /// The kind of the line is unknown, or it has too few or too many fields.
    #[error("the line has an unknown kind, or the wrong number of fields")]
    Form,
    /// A field is badly written.
    #[error("a field is badly written")]
    Field,
    /// The output cannot hold the next line whole.
    #[error("the output has no room for the next line")]
    Full,
}

impl Fault {
    /// The number that a host sees; a refusal of the card keeps its own.
    pub fn code(self) -> u8
        ensures { result ≡ fault_code self }
    {
        // A match, since a variant that holds a refusal has no discriminant to cast.
        match self {
            Fault::Access(refusal) => refusal.code(),
            Fault::Length => 5,
            Fault::Form => 6,
            Fault::Field => 7,
            Fault::Full => 8,
        }
    }
}

/// Lets `?` carry a refusal of the card up through a run.
// By hand, since a derived one has no `from_gives` for a clause to cite.
impl From<Refusal> for Fault {
    ghost from_gives = { λ x r. r ≡ Access x };

    fn from(value: Refusal) -> Fault {
        Fault::Access(value)
    }
}
