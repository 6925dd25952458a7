//! The table of what the places of a program choose.

ghost use Rattle.std.specs.Prelude.{◌≡◌, ◌++◌, IfOk, OnOk, slice_get};
ghost use Rattle.typed_tree.specs.TypingRules.TypedParts.{typed_program};
ghost use Rattle.lowered_graph.specs.Lowered.{lowered};
ghost use Rattle.trace_replay.specs.ToldChoices.Kinds.{place_kinds};
ghost use Rattle.trace_replay.specs.ToldChoices.Ties.Walks as walks;
ghost use Rattle.trace_replay.specs.ToldChoices.Ties.Views.{plain_kinds};

use crate::told_choices::frames::columns_of;
use crate::told_choices::kinds::{Kind, add_silent};
use crate::told_choices::statements::add_procedure;
use boogie_run::boogie_points::counts::demanded;
use boogie_run::boogie_points::procedure_at;
use letter_acts::Icfg;
use std::alloc::{AllocError, Global};
use typed_tree::typing_rules::Typed;

/// The conditions that are assumed at the start.
fn add_start(kinds: &mut Vec<Kind>, program: &Typed) -> Result<(), AllocError>
    ensures { OnOk result (plain_kinds kinds.new.items ≡ plain_kinds kinds.old.items ++ walks.start_kinds (typed_program program.now) (slice_get (typed_program program.now).procs (typed_program program.now).entry)) }
{
    let Some(entry) = procedure_at(program.procs(), program.entry()) else {
        return Ok(());
    };
    add_silent(kinds, program.axioms().len())?;
    add_silent(kinds, demanded(&entry.specs))?;
    Ok(())
}

/// What each place of the program chooses, in the order of their numbers, which count from 1.
pub(crate) fn kinds_of(alloc: Global, program: &Typed, icfg: &Icfg) -> Result<Vec<Kind>, AllocError>
    requires { icfg.now ≡ lowered (typed_program program.now) }
    ensures { IfOk result (λ kinds. plain_kinds kinds.items ≡ place_kinds (typed_program program.now)) }
{
    let procs = program.procs();
    let mut kinds = Vec::new(alloc);
    add_start(&mut kinds, program)?;
    for proc in 0..procs.len() {
        add_procedure(
            &mut kinds,
            procs,
            columns_of(icfg, program, proc),
            &procs[proc],
        )?;
    }
    Ok(kinds)
}
