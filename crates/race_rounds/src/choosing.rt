//! Refutations as chosen.

ghost use Rattle.std.specs.Prelude.{◌≤◌, IfOk};
ghost use Rattle.path_rows.specs.Paths.{IsPathOf};
ghost use Rattle.path_decide.specs.Decided.{IsRowsRefutation};

use crate::plans::Choice;
use crate::recursion::is_recursive;
use crate::sizes::size_under;
use farkas_check::Refutation;
use letter_acts::Icfg;
use path_decide::{late_path, lemma_path};
use path_rows::PathSystem;
use std::alloc::{AllocError, Global};

/// Of two refutations the one under which the predicates are smaller; the first where they are as large.
fn smaller_of(
    alloc: Global,
    icfg: &Icfg,
    path: &PathSystem,
    first: Refutation,
    second: Refutation,
    depth: u32,
) -> Result<Refutation, AllocError>
    requires path { IsPathOf icfg.now path.now }
    requires first { IsRowsRefutation depth path.now.rows first }
    requires second { IsRowsRefutation depth path.now.rows second }
    requires depth { depth ≤ 64 }
    ensures { IfOk result (IsRowsRefutation depth path.now.rows) }
{
    let size = size_under(alloc, icfg, path, &first, depth)?;
    if size_under(alloc, icfg, path, &second, depth)? < size {
        Ok(second)
    } else {
        Ok(first)
    }
}

/// Of the refutations with lemmas on entries, with lemmas on exits, too, and by late rows the one under which the predicates are
/// smallest; the first of them.
fn smallest(
    alloc: Global,
    icfg: &Icfg,
    path: &PathSystem,
    refutation: &Refutation,
    depth: u32,
) -> Result<Refutation, AllocError>
    requires path { IsPathOf icfg.now path.now }
    requires refutation { IsRowsRefutation depth path.now.rows refutation.now }
    requires depth { depth ≤ 64 }
    ensures { IfOk result (IsRowsRefutation depth path.now.rows) }
{
    let by_entries = lemma_path(alloc, path, refutation, depth, false)?;
    let by_exits = lemma_path(alloc, path, refutation, depth, true)?;
    let by_lemmas = smaller_of(alloc, icfg, path, by_entries, by_exits, depth)?;
    let late = late_path(alloc, path, refutation, depth)?;
    smaller_of(alloc, icfg, path, by_lemmas, late, depth)
}

/// A refutation of the rows of a word as it is chosen, from another. Where the word goes through a recursion and back it is the one
/// with the smallest predicates, whatever the choice: predicates that grow with each call of a recursion would never be enough.
pub(crate) fn chosen(
    alloc: Global,
    icfg: &Icfg,
    path: &PathSystem,
    refutation: &Refutation,
    depth: u32,
    choice: Choice,
) -> Result<Refutation, AllocError>
    requires path { IsPathOf icfg.now path.now }
    requires refutation { IsRowsRefutation depth path.now.rows refutation.now }
    requires depth { depth ≤ 64 }
    ensures { IfOk result (IsRowsRefutation depth path.now.rows) }
{
    if is_recursive(alloc, icfg, path.word())? {
        return smallest(alloc, icfg, path, refutation, depth);
    }
    match choice {
        Choice::Late => late_path(alloc, path, refutation, depth),
        Choice::Entries => lemma_path(alloc, path, refutation, depth, false),
        Choice::Exits => lemma_path(alloc, path, refutation, depth, true),
    }
}
