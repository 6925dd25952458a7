//! Programs.

ghost use Rattle.boogie_tree.specs.View.{program as tree};
ghost use Rattle.boogie_parse.specs.Spelling.PrintedTokens.{IsSpellableProgram};

use boogie_parse::parse;
use boogie_tree::Program;
use boogie_types::resolve;
use std::alloc::Global;
use typed_tree::typing_rules::Typed;

/// The most bytes of a program.
const MOST_BYTES: usize = 1_048_576;

fn name_resolved(alloc: Global, program: Program) -> Option<Typed>
    requires spellable { IsSpellableProgram (tree program) }
{
    resolve(alloc, program, "main").ok()
}

/// The program of a text.
pub(crate) fn program_of(alloc: Global, text: &str) -> Option<Typed> {
    if text.len() > MOST_BYTES {
        return None;
    }
    match parse(alloc, text.as_bytes()) {
        Ok(program) => name_resolved(alloc, program),
        Err(_) => None,
    }
}
