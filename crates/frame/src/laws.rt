//! The laws of frames: what is sent is read back.
ghost use Rattle.frame.specs.Gray.{GrayOfNine, GrayTurnsBack};
ghost use Rattle.frame.specs.ReadBack.{FrameFits, ReadsBack};

/// Sender and reader agree: Gray words turn back, and every frame is read as it was sent, with no parity error.
pub fn frames_read_back()
    ensures gray { GrayTurnsBack }
    ensures nine { GrayOfNine }
    ensures fits { FrameFits }
    ensures back { ReadsBack }
{}
