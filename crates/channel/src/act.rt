//! What an access to a shared register means for one channel.

/// What a write of a shared register asks of each channel; a word has one place for each channel.
// Acts and bits by name, and no closures at the table's loops: the laws over runs speak of any act as a value, and with
// closures (tried) each of the 23 places wants an answer by hand that its closure is the definition's function.
#[derive(Clone, Copy)]
pub enum Act {
    /// Global Control: MODE in bits 15 to 0, the snapshot enables in bits 23 to 16.
    Control { word: u32 },
    /// Global Command: LCNT in bits 7 to 0.
    Load { word: u32 },
    /// MCR CLR.
    ClearSnapshot,
    /// A snapshot trigger.
    Snapshot,
    /// 24 V Input Debouncing: ADE in bits 31 to 24, and the period of its time.
    DebounceInput { word: u32, period: u64 },
    /// 24 V Output: DO in bits 7 to 0.
    Output { word: u32 },
    /// Interrupt Enable: VCM EN in bits 7 to 0, FCM EN in bits 15 to 8.
    EnableInterrupts { word: u32 },
    /// Interrupt Status: ones acknowledge, at the same places.
    AcknowledgeInterrupts { word: u32 },
    /// 24 V Input Interrupt Enable: rising edges in bits 7 to 0, falling edges in bits 15 to 8.
    EnableEdges { word: u32 },
    /// 24 V Input Interrupt Status: ones acknowledge, at the same places.
    AcknowledgeEdges { word: u32 },
    /// Test Register: OUT in bits 31 to 24.
    TestOutput { word: u32 },
}

/// A bit that each channel has in a shared register, or in what a tick answers.
#[derive(Clone, Copy)]
pub enum Bit {
    /// MCR enable.
    SnapshotEnabled,
    /// Whether the snapshot word is still collected.
    Collecting,
    /// Whether the snapshot word waits to be read.
    Unread,
    /// The level of the 24 V input.
    Input,
    /// ADE.
    InputDebounced,
    /// DO.
    Output,
    /// VCM EN.
    ValidEnabled,
    /// VCM STA.
    ValidPending,
    /// FCM EN.
    FaultEnabled,
    /// FCM STA.
    FaultPending,
    /// RIRQ.
    RisingEnabled,
    /// RI STA.
    RisingPending,
    /// FIRQ.
    FallingEnabled,
    /// FI STA.
    FallingPending,
    /// OUT.
    TestOutput,
    /// The level of the SSI clock.
    Clock,
}

/// A channel's share of a shared word: each channel has as many bits, one after the other.
#[derive(Clone, Copy)]
pub enum Share {
    /// MODE: two bits.
    Mode,
    /// The filtered levels of the lines: three bits, A lowest.
    Lines,
    /// One bit.
    Single(Bit),
}
