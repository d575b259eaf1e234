// The line that names what stopped a script.
ghost use Rattle.std.specs.Prelude.{◌≡◌, IfOk, string_bytes};
ghost use Rattle.script.specs.Refusals.{refusal_bytes};

use crate::export::RunAnswer;
use std::alloc::{AllocError, Global};
use text::Fault;

/// The last line that a program prints: `E,line,code` where a run was stopped, and no byte where it was not.
pub fn refusal_line(heap: Global, answer: RunAnswer) -> Result<String, AllocError>
    ensures { IfOk result (λ s. string_bytes s ≡ refusal_bytes answer) }
{
    // By the numbers of the C record, which it has always taken: a `Run` has fewer of them.
    let code = answer.code;
    if code == 0 {
        return Ok(String::new(heap));
    }
    // A script that is too long is refused before its first line.
    let line = if code == Fault::Length.code() {
        0
    } else {
        u64::from(answer.lines) + 1
    };
    format!(in heap; "E,{line},{code}\n")
}
