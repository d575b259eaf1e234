//! Laws on the card's accesses: what they leave alone.
#![tactic(auto)]

ghost use Rattle.card_laws.specs.Laws.{AltersOneRecord, QuietReads, RefusedLeaves};

/// An access to a register of one channel alters no other channel and nothing that is shared; a refused one alters nothing.
pub fn accesses_keep_apart()
    ensures apart { AltersOneRecord }
    ensures refused { RefusedLeaves }
{}

/// Only reads of a counting channel's Data Register, of an MCR Data Register and, with IRQ ACK CONFIG, of an interrupt
/// status register alter the card.
pub fn reads_keep()
    ensures { QuietReads }
{}
