//! The law of counts over whole lists of calls on a card.
#![tactic(auto)]

ghost use Rattle.counts.specs.Laws.{Counts, CountsRead, Wraps};

/// After every list of calls on a new card, each channel's count is its last load plus the signed steps since,
/// modulo 2^32, as a tally of the calls alone has them.
#[tactic(auto, using(crate::proofs::Counted::counts_stand_lem))]
pub fn counts_stand()
    ensures { Counts }
{}

/// In Counter Mode, but for Latch on I, that is what a read of the channel's Data Register then answers.
#[tactic(auto, using(crate::proofs::Shown::counts_read_lem))]
pub fn counts_read()
    ensures { CountsRead }
{}

/// Two lists of calls that count through a wrap, one up and one down, with their loads, sums and counts.
pub fn wraps_counted()
    ensures { Wraps }
{}
