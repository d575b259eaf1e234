//! Laws on what scripts do, each the contract of a function.
#![tactic(auto)]

ghost use Rattle.script_laws.specs.Laws.{LinesReadBack, CommandsReadBack, AccessesPerformed, PrefixStands};

/// Lines that are written one after the other, each with its byte 10, are read back; so is a last line without it.
#[tactic(auto, using(crate::proofs::Lines::read_back))]
pub fn lines_read_back()
    ensures { LinesReadBack }
{}

/// A command that is written out as a line is read back as that command.
#[tactic(auto, using(crate::proofs::Texts::command_back))]
pub fn commands_read_back()
    ensures { CommandsReadBack }
{}

/// A script of accesses that the card takes makes just these accesses, in their order, and writes what they read.
#[tactic(auto, using(crate::proofs::Accesses::accesses))]
pub fn accesses_performed()
    ensures { AccessesPerformed }
{}

/// Of a script that is run to its end, the first lines alone are run to their end too, and write the first part of the output.
#[tactic(auto, using(crate::proofs::Prefixes::prefix_stands_lem))]
pub fn prefix_stands()
    ensures { PrefixStands }
{}
