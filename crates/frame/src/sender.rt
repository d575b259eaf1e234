//! The frame word that a sensor sends.
ghost use Rattle.std.specs.Prelude.{◌≡◌, ◌^◌, ◌<◌};
ghost use Rattle.frame.specs.Layout.{body_of, sent_parity, word_of_frame};

use crate::format::Format;

/// Data bits, then extra bits.
fn body(format: Format, position: u32, extra: u32) -> u64
    ensures answer { result ≡ body_of format position extra }
    ensures below { result < 2 ^ 40 }
{
    let data = u64::from(format.code.encode(position));
    (data << format.widths().extra_bits) + u64::from(extra)
}

/// The parity bit that a body is sent with, 0 where there is none.
fn parity_bit(format: Format, body: u64) -> u64
    requires { body < 2 ^ 40 }
    ensures answer { result ≡ sent_parity format body }
    ensures below { result < 2 }
{
    // A match, since the product in a closure wants the bound on the body as a clause of the closure.
    match format.parity {
        None => 0,
        Some(parity) => u64::from(format.widths().parity_off(parity, body * 2)),
    }
}

/// The frame word of a position and extra bits, sent highest bit first.
#[tactic(auto, unfolding(crate::specs::Layout::word_of_frame))]
pub fn frame_word(format: Format, position: u32, extra: u32) -> u64
    ensures { result ≡ word_of_frame format position extra }
{
    let body = body(format, position, extra);
    (body << format.parity_bits()) + parity_bit(format, body)
}
