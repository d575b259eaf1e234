//! Writes of shared registers, and the reads that clear one.
ghost use Rattle.std.specs.Prelude.{◌≡◌};
ghost use Rattle.card.specs.SharedRegisters.{acknowledged_all, control_written, inputs_debounced, interrupts_enabled, shared_written};

use crate::Card;
use channel::act::Act;
use table::act_on_all;

impl Card {
    /// Global Control.
    fn write_control(&mut self, word: u32)
        ensures { self.new ≡ control_written word self.old }
    {
        self.shared.write_control(word);
        act_on_all(&mut self.channels, Act::Control { word });
    }

    /// 24 V Input Debouncing, which restarts every input's filter.
    fn debounce_inputs(&mut self, word: u32)
        ensures { self.new ≡ inputs_debounced word self.old }
    {
        self.shared.write_input_debounce(word);
        let period = self.shared.input_debounce.period();
        act_on_all(&mut self.channels, Act::DebounceInput { word, period });
    }

    /// Interrupt Enable.
    fn enable_interrupts(&mut self, word: u32)
        ensures { self.new ≡ interrupts_enabled word self.old }
    {
        self.shared.enable_interrupts(word);
        act_on_all(&mut self.channels, Act::EnableInterrupts { word });
    }

    /// Interrupt Status: ones acknowledge.
    pub(crate) fn acknowledge(&mut self, word: u32)
        ensures { self.new ≡ acknowledged_all word self.old }
    {
        self.shared.acknowledge(word);
        act_on_all(&mut self.channels, Act::AcknowledgeInterrupts { word });
    }

    /// A write to an offset outside the channels' spans; what no register takes is ignored.
    pub(crate) fn write_shared(&mut self, offset: u32, value: u32)
        ensures { self.new ≡ shared_written offset value self.old }
    {
        match offset {
            0x000 => self.write_control(value),
            0x004 => self.command(value),
            0x154 => self.debounce_inputs(value),
            0x160 => self.shared.enable_outputs(value),
            0x164 => act_on_all(&mut self.channels, Act::Output { word: value }),
            0x170 => self.shared.timer.write_control(value),
            0x174 => self.shared.timer.write_preload(value),
            0x180 => self.enable_interrupts(value),
            0x184 => act_on_all(&mut self.channels, Act::EnableEdges { word: value }),
            0x188 if !self.shared.clear_on_read => self.acknowledge(value),
            0x18C if !self.shared.clear_on_read => act_on_all(
                &mut self.channels,
                Act::AcknowledgeEdges { word: value },
            ),
            0x1F0 => act_on_all(&mut self.channels, Act::TestOutput { word: value }),
            0x1F8 => self.shared.scratchpad = value,
            _ => {}
        }
    }
}
