//! The system of a triple in two halves, which triples with the same sources, or with the same letter and target, share.

ghost use Rattle.std.specs.Prelude.{◌≡◌, ◌+◌, Err, true, IfOk, OnOk, length};
ghost use Rattle.letter_acts.specs.Acts.{frame_of};
ghost use Rattle.letter_acts.specs.Invariant.{alphabet_of};
ghost use Rattle.triple_rows.specs.Predicates.{formula_of};
ghost use Rattle.triple_rows.specs.Systems.{PlainFits, IsSystem, both_systems, said};
ghost use Rattle.triple_rows.specs.Ties.Drafts.{Adds};
ghost use Rattle.triple_rows.specs.Triples.{Agrees, IsScoped, truth_of};
ghost use Rattle.triple_rows.specs.Halves.{said_before, said_after};
ghost use Rattle.triple_rows.specs.Ties.Tables.{IsTable};

use crate::adding::add_pred;
use crate::drafts::Draft;
use crate::making::pred;
use crate::predicates::PredNode;
use crate::systems::{back_system, call_system, inside_system};
use crate::tables::shifted_columns;
use crate::triples::{Scoped, Triple};
use letter_acts::Icfg;
use lin_rows::{RowFault, System};
use std::alloc::{AllocError, Global};

/// True of a procedure.
fn true_of(alloc: Global, proc: u32) -> Result<Scoped, AllocError>
    ensures { IfOk result (λ s. s ≡ truth_of proc true) }
{
    let nodes = vec![in alloc; PredNode::Truth(true)]?;
    let Some(pred) = pred(nodes) else {
        unreachable!()
    };
    Ok(Scoped { proc, pred })
}

/// The table of the columns of a procedure, which stand from those of other ones on. Columns have 32 bits.
fn columns_at(alloc: Global, icfg: &Icfg, first: usize, proc: u32) -> Result<Vec<u32>, AllocError>
    ensures { IfOk result (λ v. IsTable (length (frame_of (alphabet_of icfg.now) proc)) (λ c. first + c) v.items) }
{
    let count = icfg.columns(proc).len();
    let Some(end) = first.checked_add(count) else {
        return Err(AllocError);
    };
    let Ok(_) = u32::try_from(end) else {
        return Err(AllocError);
    };
    shifted_columns(alloc, first, count)
}

/// What a predicate says of the columns of its procedure, which stand from a number on.
fn said_of(
    alloc: Global,
    icfg: &Icfg,
    first: usize,
    scoped: &Scoped,
    draft: &mut Draft,
) -> Result<(), RowFault>
    requires { IsScoped (alphabet_of icfg.now) scoped.now.proc scoped.now }
    ensures adds { OnOk result (Adds (said (λ c. first + c) (formula_of scoped.now.pred)) draft.old draft.new) }
    ensures fits { OnOk result (PlainFits (said (λ c. first + c) (formula_of scoped.now.pred))) }
    ensures past { result ≡ Err RowFault.Past → PlainFits (said (λ c. first + c) (formula_of scoped.now.pred)) → ⊥ }
{
    let columns = columns_at(alloc, icfg, first, scoped.proc)?;
    add_pred(alloc, &scoped.pred, &columns, false, draft)
}

/// What the sources of a triple say. `Past` comes exactly where a number of it does not fit.
pub fn source_system(alloc: Global, icfg: &Icfg, triple: &Triple) -> Result<System, RowFault>
    requires { Agrees (alphabet_of icfg.now) triple.now }
    ensures value { IfOk result (IsSystem (said_before (alphabet_of icfg.now) triple.now)) }
    ensures fits { OnOk result (PlainFits (said_before (alphabet_of icfg.now) triple.now)) }
    ensures past { result ≡ Err RowFault.Past → PlainFits (said_before (alphabet_of icfg.now) triple.now) → ⊥ }
{
    match triple {
        Triple::Inside { from, .. } => said_once(alloc, icfg, from),
        Triple::Call { from, .. } => said_once(alloc, icfg, from),
        Triple::Back { exit, before, .. } => said_twice(alloc, icfg, exit, before),
    }
}

/// What a predicate says of the columns of its procedure, from number 0 on.
fn said_once(alloc: Global, icfg: &Icfg, from: &Scoped) -> Result<System, RowFault>
    requires { IsScoped (alphabet_of icfg.now) from.now.proc from.now }
    ensures value { IfOk result (IsSystem (said (λ c. c) (formula_of from.now.pred))) }
    ensures fits { OnOk result (PlainFits (said (λ c. c) (formula_of from.now.pred))) }
    ensures past { result ≡ Err RowFault.Past → PlainFits (said (λ c. c) (formula_of from.now.pred)) → ⊥ }
{
    let mut draft = Draft::new(alloc);
    said_of(alloc, icfg, 0, from, &mut draft)?;
    Ok(draft.finish())
}

/// What two predicates say, of which the columns of the second stand behind those of the first.
fn said_twice(
    alloc: Global,
    icfg: &Icfg,
    exit: &Scoped,
    before: &Scoped,
) -> Result<System, RowFault>
    requires exit { IsScoped (alphabet_of icfg.now) exit.now.proc exit.now }
    requires before { IsScoped (alphabet_of icfg.now) before.now.proc before.now }
    ensures value { IfOk result (IsSystem (both_systems (said (λ c. c) (formula_of exit.now.pred)) (said (λ c. length (frame_of (alphabet_of icfg.now) exit.now.proc) + c) (formula_of before.now.pred)))) }
    ensures fits { OnOk result (PlainFits (both_systems (said (λ c. c) (formula_of exit.now.pred)) (said (λ c. length (frame_of (alphabet_of icfg.now) exit.now.proc) + c) (formula_of before.now.pred)))) }
    ensures past { result ≡ Err RowFault.Past → PlainFits (both_systems (said (λ c. c) (formula_of exit.now.pred)) (said (λ c. length (frame_of (alphabet_of icfg.now) exit.now.proc) + c) (formula_of before.now.pred))) → ⊥ }
{
    let mut draft = Draft::new(alloc);
    said_of(alloc, icfg, 0, exit, &mut draft)?;
    let first = icfg.columns(exit.proc).len();
    said_of(alloc, icfg, first, before, &mut draft)?;
    Ok(draft.finish())
}

/// What a triple's letter, its denied target and the bounds say. `Past` comes exactly where a number of it does not fit.
pub fn target_system(alloc: Global, icfg: &Icfg, triple: &Triple) -> Result<System, RowFault>
    requires { Agrees (alphabet_of icfg.now) triple.now }
    ensures value { IfOk result (IsSystem (said_after (alphabet_of icfg.now) triple.now)) }
    ensures fits { OnOk result (PlainFits (said_after (alphabet_of icfg.now) triple.now)) }
    ensures past { result ≡ Err RowFault.Past → PlainFits (said_after (alphabet_of icfg.now) triple.now) → ⊥ }
{
    match triple {
        Triple::Inside { from, letter, to } => {
            let before = true_of(alloc, from.proc)?;
            inside_system(alloc, icfg, *letter, &before, to)
        }
        Triple::Call { from, letter, to } => {
            let before = true_of(alloc, from.proc)?;
            call_system(alloc, icfg, *letter, &before, to)
        }
        Triple::Back {
            exit,
            before,
            letter,
            to,
        } => {
            let at_exit = true_of(alloc, exit.proc)?;
            let at_call = true_of(alloc, before.proc)?;
            back_system(alloc, icfg, *letter, &at_exit, &at_call, to)
        }
    }
}
