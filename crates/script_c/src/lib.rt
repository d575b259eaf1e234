//! What host programs in C call, as a static library.
#![tactic(auto)]

ghost use Rattle.std.specs.Prelude.{◌≡◌, length};
ghost use Rattle.script.specs.Runs.{script_ran, answer_of, output_of};

use script::RunAnswer;

// The export stands here as well as in the library that it calls: a crate is a library or a static library, and never both.
/// Runs a script on a new card, for a host program in C.
#[unsafe(no_mangle)]
pub extern "C" fn card_run(script: &[u8], out: &mut [u8]) -> RunAnswer
    ensures answer { result ≡ answer_of (script_ran script.now (length out.old)) }
    ensures output { out.new ≡ output_of (script_ran script.now (length out.old)) out.old }
{
    script::card_run(script, out)
}
