//! Decide of the rows of a word.

ghost use Rattle.std.specs.Prelude.{◌+◌, ◌<◌, ◌^◌, IfOk, IsTrue, SomeIff};
ghost use Rattle.std.specs.List.{AllByRecursion};
ghost use Rattle.lin_rows.specs.Rows.{IsRow};
ghost use Rattle.lin_rows.specs.Systems.{rows_of};
ghost use Rattle.letter_acts.specs.Invariant.{Graph};
ghost use Rattle.path_rows.specs.Paths.{IsPathOf};
ghost use Rattle.path_decide.specs.Decided.{IsAnswer, IsOwn, IsRowsRefutation};

use crate::calls::returned_calls;
use crate::late_refutations::{Calls, late, lemmas};
use farkas_check::Refutation;
use int_decide::difference_rows::laws::differences_are_decided;
use int_decide::{Answer, DecideFault, decide, plain};
use lin_rows::System;
use path_rows::PathSystem;
use std::alloc::{AllocError, Global};

/// Decide of the rows of a word, with at most `depth` cuts on a branch of a refutation, which need not be Decide's own: it refutes
/// the rows, so the word is not feasible; or a point, a value for each column, meets them, so it is.
///
/// # Errors
///
/// `Gap` comes only where Decide finds neither, `Past` only where a number of Decide does not fit. A word of 2^32 columns, or of so
/// many rows and cuts, is want of memory.
pub fn decide_path(alloc: Global, path: &PathSystem, depth: u32) -> Result<Answer, DecideFault>
    ensures { (g : Graph) → IsPathOf g path.now → IsAnswer g depth path.now.word result }
{
    decided(alloc, path, depth, false)
}

/// The same by Decide itself, whose refutation is its own.
pub fn plain_path(alloc: Global, path: &PathSystem, depth: u32) -> Result<Answer, DecideFault>
    ensures answer { (g : Graph) → IsPathOf g path.now → IsAnswer g depth path.now.word result }
    ensures own { (g : Graph) → IsPathOf g path.now → IsOwn g depth path.now.word result }
{
    decided(alloc, path, depth, true)
}

/// Decide of the rows of a word, whose refutation is Decide's own where it is to be.
fn decided(
    alloc: Global,
    path: &PathSystem,
    depth: u32,
    is_own: bool,
) -> Result<Answer, DecideFault>
    ensures answer { (g : Graph) → IsPathOf g path.now → IsAnswer g depth path.now.word result }
    ensures own { IsTrue is_own → (g : Graph) → IsPathOf g path.now → IsOwn g depth path.now.word result }
{
    let system = path.system();
    know_rows(system);
    differences_are_decided();
    let Some(columns) = measured(path.column_at().len(), system.rows.as_slice().len(), depth) else {
        return Err(DecideFault::Memory);
    };
    if is_own {
        plain(alloc, system, columns, depth)
    } else {
        decide(alloc, system, columns, depth)
    }
}

/// A refutation of the rows of a word by late ones, with at most `depth` cuts on a branch, from another; or that one again.
pub fn late_path(
    alloc: Global,
    path: &PathSystem,
    refutation: &Refutation,
    depth: u32,
) -> Result<Refutation, AllocError>
    requires { IsRowsRefutation depth path.now.rows refutation.now }
    ensures { IfOk result (IsRowsRefutation depth path.now.rows) }
{
    let Ok(columns) = u32::try_from(path.column_at().len()) else {
        return refutation.copy();
    };
    late(alloc, path.system(), columns, refutation, depth)
}

/// A refutation of the rows of a word with lemmas on its returned calls, with at most `depth` cuts on a branch, from another; the late
/// one where there is none. The lemmas are bounds of parameters and old values and, where exits are said, of what the callees have
/// where they return.
pub fn lemma_path(
    alloc: Global,
    path: &PathSystem,
    refutation: &Refutation,
    depth: u32,
    with_exits: bool,
) -> Result<Refutation, AllocError>
    requires { IsRowsRefutation depth path.now.rows refutation.now }
    ensures { IfOk result (IsRowsRefutation depth path.now.rows) }
{
    let Ok(columns) = u32::try_from(path.column_at().len()) else {
        return refutation.copy();
    };
    let returned = returned_calls(alloc, path, with_exits)?;
    let calls = Calls {
        depths: &returned.depths,
        candidates: &returned.candidates,
        is_by_depth: with_exits,
    };
    lemmas(alloc, path.system(), columns, refutation, depth, calls)
}

/// The number of columns in 32 bits, which it has to fit, as has the number of rows and cuts.
fn measured(columns: usize, rows: usize, depth: u32) -> Option<u32>
    ensures { SomeIff result ((columns < 2 ^ 32) × (rows + depth < 2 ^ 32)) columns }
{
    let columns = u32::try_from(columns).ok()?;
    u32::try_from(rows).ok()?.checked_add(depth)?;
    Some(columns)
}

/// Reads the rows of a system, whose contracts then say what every row keeps.
fn know_rows(system: &System)
    ensures { AllByRecursion IsRow (rows_of system.now) }
{
    for row in &system.rows {
        let _terms = row.terms();
    }
}
