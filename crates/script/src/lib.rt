//! Scripts of register accesses and ticks, run on a new card.
#![tactic(auto)]

mod export;
mod output;
mod refused;
mod run;

pub use export::{RunAnswer, card_run};
pub use refused::refusal_line;
pub use run::{MAX_SCRIPT, Run, run_script};
