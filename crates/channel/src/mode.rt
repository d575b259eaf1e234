//! A channel's working part: off, counter, or SSI with the controller's phase.
use controller::phase::Phase;

/// The two codes of MODE that disable a channel; each reads back as written.
#[derive(Clone, Copy)]
pub enum OffCode {
    Zeros = 0,
    Ones = 3,
}

/// What a channel works as.
// Off is the working part of two of MODE's codes, so it is no None.
#[derive(Clone, Copy)]
pub enum Mode {
    Off(OffCode),
    Counter,
    Ssi(Phase),
}
