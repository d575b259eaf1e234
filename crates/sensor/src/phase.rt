//! What a sensor is doing.

/// What a sensor is doing.
// Idle is a phase by its name, in which an edge begins a frame, so it is no None.
#[derive(Clone, Copy)]
pub enum Phase {
    /// It waits for a fall of its clock.
    Idle,
    /// It sends a frame; its clock has risen so many times since the frame began.
    Sending { frame: u64, rises: u32 },
    /// It recovers after a frame, for so many ticks more.
    Recovering { left: u32 },
}
