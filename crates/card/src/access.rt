//! Register accesses: where an offset leads, and what is refused there.
ghost use Rattle.std.specs.Prelude.{◌≡◌};
ghost use Rattle.card.specs.Calls.{accepted, card_after_read, card_after_write, allowed, read_done, value_of, write_done};
ghost use Rattle.card.specs.Registers.{edges_read, interrupts_read, offset_checked};
ghost use Rattle.card.specs.Words.{status_of_interrupts, register_word};

use crate::Card;
use channel::act::Act;
use refusal::Refusal;
use table::act_on_all;

/// Whether the card has a register at the offset.
fn check_offset(offset: u32) -> Result<(), Refusal>
    ensures { result ≡ offset_checked offset }
{
    if offset % 4 != 0 || offset > 0x1FC {
        return Err(Refusal::Offset);
    }
    Ok(())
}

impl Card {
    /// Whether a read of the offset would be refused; it alters nothing.
    #[tactic(auto, unfolding(crate::specs::Calls::read_done))]
    pub fn read_refused(&self, offset: u32) -> Result<(), Refusal>
        ensures { result ≡ allowed (read_done self.now offset) }
    {
        check_offset(offset)
    }

    /// With IRQ ACK CONFIG a read of Interrupt Status clears what it shows.
    fn read_interrupts(&mut self) -> u32
        ensures answer { result ≡ status_of_interrupts self.old }
        ensures after { self.new ≡ interrupts_read self.old }
    {
        let word = self.interrupt_status();
        if self.shared.clear_on_read {
            self.acknowledge(0xFFFF_FFFF);
        }
        word
    }

    /// And so does a read of 24 V Input Interrupt Status.
    fn read_edges(&mut self) -> u32
        ensures answer { result ≡ register_word 396 self.old }
        ensures after { self.new ≡ edges_read self.old }
    {
        let word = self.register(0x18C);
        if self.shared.clear_on_read {
            act_on_all(
                &mut self.channels,
                Act::AcknowledgeEdges { word: 0xFFFF_FFFF },
            );
        }
        word
    }

    /// Reads a register.
    #[tactic(auto, unfolding(crate::specs::Calls::read_done))]
    pub fn read(&mut self, offset: u32) -> Result<u32, Refusal>
        ensures answer { result ≡ value_of (read_done self.old offset) }
        ensures after { self.new ≡ card_after_read self.old (read_done self.old offset) }
    {
        check_offset(offset)?;
        match offset {
            0x010..0x150 => {
                let place = offset - 0x010;
                Ok(self.channels[(place / 0x28) as usize].read(place % 0x28))
            }
            0x188 => Ok(self.read_interrupts()),
            0x18C => Ok(self.read_edges()),
            0x190..0x1B0 => Ok(
                self.channels[((offset - 0x190) / 4) as usize]
                    .snapshot
                    .read(),
            ),
            _ => Ok(self.register(offset)),
        }
    }

    /// Writes a register.
    #[tactic(auto, unfolding(crate::specs::Calls::write_done))]
    pub fn write(&mut self, offset: u32, value: u32) -> Result<(), Refusal>
        ensures answer { result ≡ accepted (write_done self.old offset value) }
        ensures after { self.new ≡ card_after_write self.old (write_done self.old offset value) }
    {
        check_offset(offset)?;
        match offset {
            0x010..0x150 => {
                let place = offset - 0x010;
                self.channels[(place / 0x28) as usize].write(place % 0x28, value)?;
            }
            _ => self.write_shared(offset, value),
        }
        Ok(())
    }
}
