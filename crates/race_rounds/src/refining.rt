//! Automata of infeasible words, from refutations of the rows of one.

ghost use Rattle.std.specs.Prelude.{◌≡◌, ◌≤◌, ℕ, None, IfOk, IfSome};
ghost use Rattle.typed_tree.specs.TypedTree.{TypedProgram};
ghost use Rattle.lowered_graph.specs.Lowered.{lowered};
ghost use Rattle.path_rows.specs.Paths.{IsPathOf};
ghost use Rattle.path_decide.specs.Decided.{IsRefutation};
ghost use Rattle.nested_itp.specs.NestedPredicates.Interpolants.{RefutesRows, HasCutsUpTo};
ghost use Rattle.nested_itp.specs.NestedRefutations.Numbers.{NumbersFit};
ghost use Rattle.race_rounds.specs.Rounds.{IsEvidence, IsRefined};

use crate::choosing::chosen;
use crate::limits::Limits;
use crate::plans::Choice;
use farkas_check::Refutation;
use int_decide::{Answer, DecideFault};
use itp_automaton::{BuildFault, Certified, build};
use letter_acts::Icfg;
use nested_itp::{ItpFault, interpolants};
use path_decide::plain_path;
use path_rows::PathSystem;
use race_core::Cause;
use std::alloc::{AllocError, Global};
use std::thread::Threads;

/// What is made of a word whose rows are refuted.
#[derive(Drop)]
pub enum Refined {
    /// An automaton of infeasible words that accepts it.
    Evidence(Certified),
    /// Why there is none.
    Unknown(Cause),
}

/// The automaton under a refutation of the word's rows; `None` only where a number of the prefix predicates, of the systems of their
/// triples or of the refutations of these does not fit.
fn automaton_under<R: Threads + Sync>(
    rt: &R,
    alloc: Global,
    icfg: &Icfg,
    path: &PathSystem,
    refutation: &Refutation,
) -> Result<Option<Certified>, AllocError>
    requires path { IsPathOf icfg.now path.now }
    requires refutes { RefutesRows refutation.now path.now.rows }
    requires cuts { HasCutsUpTo 64 refutation.now }
    ensures evidence { IfOk result (λ o. IfSome o (IsEvidence icfg.now path.now.word)) }
    ensures passes { IfOk result (λ o. o ≡ None → NumbersFit icfg.now path.now.word refutation.now → ⊥) }
{
    let itp = match interpolants(alloc, icfg, path, refutation) {
        Ok(itp) => itp,
        Err(ItpFault::Past) => return Ok(None),
        Err(ItpFault::Memory) => return Err(AllocError),
    };
    match build(rt, alloc, icfg, path.word(), &itp) {
        Ok(automaton) => Ok(Some(automaton)),
        Err(BuildFault::Memory) => Err(AllocError),
    }
}

/// The automaton under the refutation that is chosen.
fn automaton_chosen<R: Threads + Sync>(
    rt: &R,
    alloc: Global,
    icfg: &Icfg,
    path: &PathSystem,
    refutation: &Refutation,
    depth: u32,
    choice: Choice,
) -> Result<Option<Certified>, AllocError>
    requires path { IsPathOf icfg.now path.now }
    requires refutation { IsRefutation icfg.now depth path.now.word refutation.now }
    requires depth { depth ≤ 64 }
    ensures { IfOk result (λ o. IfSome o (IsEvidence icfg.now path.now.word)) }
{
    let first = chosen(alloc, icfg, path, refutation, depth, choice)?;
    automaton_under(rt, alloc, icfg, path, &first)
}

/// The automaton under the refutation that is chosen, else under the one that was found.
fn automaton_found<R: Threads + Sync>(
    rt: &R,
    alloc: Global,
    icfg: &Icfg,
    path: &PathSystem,
    refutation: &Refutation,
    depth: u32,
    choice: Choice,
) -> Result<Option<Certified>, AllocError>
    requires path { IsPathOf icfg.now path.now }
    requires refutation { IsRefutation icfg.now depth path.now.word refutation.now }
    requires depth { depth ≤ 64 }
    ensures { IfOk result (λ o. IfSome o (IsEvidence icfg.now path.now.word)) }
{
    match automaton_chosen(rt, alloc, icfg, path, refutation, depth, choice)? {
        Some(automaton) => Ok(Some(automaton)),
        None => automaton_under(rt, alloc, icfg, path, refutation),
    }
}

/// The automaton under the refutation that is chosen, else under the one that was found, else under Decide's own, else why there is
/// none.
pub(crate) fn refine<R: Threads + Sync>(
    rt: &R,
    alloc: Global,
    icfg: &Icfg,
    path: &PathSystem,
    refutation: &Refutation,
    limits: Limits,
    choice: Choice,
) -> Result<Refined, AllocError>
    requires path { IsPathOf icfg.now path.now }
    requires refutation { IsRefutation icfg.now limits.depth path.now.word refutation.now }
    requires depth { limits.depth ≤ 64 }
    ensures { (t : TypedProgram) → icfg.now ≡ lowered t → IfOk result (λ r. (n : ℕ) → IsRefined t limits n path.now.word r) }
{
    let depth = limits.depth;
    if let Some(automaton) = automaton_found(rt, alloc, icfg, path, refutation, depth, choice)? {
        return Ok(Refined::Evidence(automaton));
    }
    match plain_path(alloc, path, depth) {
        Ok(Answer::Refuted(own)) => match automaton_under(rt, alloc, icfg, path, &own)? {
            Some(automaton) => Ok(Refined::Evidence(automaton)),
            None => Ok(Refined::Unknown(Cause::Number)),
        },
        Ok(Answer::Whole(_)) => unreachable!(),
        Err(DecideFault::Gap) => Ok(Refined::Unknown(Cause::Whole)),
        Err(DecideFault::Past) => Ok(Refined::Unknown(Cause::Number)),
        Err(DecideFault::Memory) => Err(AllocError),
    }
}
