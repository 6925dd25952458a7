//! The prefix predicates of a word.

ghost use Rattle.std.specs.Prelude.{◌≡◌, IfOk};
ghost use Rattle.farkas_check.specs.Trees.{Tree};
ghost use Rattle.triple_rows.specs.Predicates.{Formula, prefix_of};
ghost use Rattle.nested_itp.specs.NestedPredicates.Joins.{simplified};
ghost use Rattle.nested_itp.specs.NestedPredicates.Interpolants.{prefix_predicates};
ghost use Rattle.nested_itp.specs.NestedPredicates.Layouts.{IsLayout};
ghost use Rattle.nested_itp.specs.NestedPredicates.Ties.Spelled.{SpellsAt, CanSpell, IsTableOf};

use crate::nested_predicates::joins::without_truth;
use crate::nested_predicates::layout::Layout;
use crate::nested_predicates::tables::nodes_at;
use letter_acts::Icfg;
use path_rows::PathSystem;
use std::alloc::{AllocError, Global};
use triple_rows::{Pred, PredNode, Scoped, pred};

/// The predicate at a position, without truth values in it.
fn predicate(alloc: Global, table: &[Vec<PredNode>], position: usize) -> Result<Pred, AllocError>
    requires { (f : Formula) × SpellsAt table.now position f × CanSpell f }
    ensures { IfOk result (λ p. (f : Formula) → SpellsAt table.now position f → CanSpell f → p ≡ prefix_of (simplified f)) }
{
    let nodes = nodes_at(alloc, table, position)?;
    let simple = without_truth(alloc, nodes)?;
    let Some(found) = pred(simple) else {
        unreachable!()
    };
    Ok(found)
}

/// The predicates, one for each position.
pub(crate) fn predicates(
    alloc: Global,
    icfg: &Icfg,
    path: &PathSystem,
    layout: &Layout,
    table: &[Vec<PredNode>],
) -> Result<Vec<Scoped>, AllocError>
    requires layout { IsLayout icfg.now path.now.word layout.now }
    requires table { (t : Tree) × IsTableOf icfg.now path.now.word t table.now }
    ensures { IfOk result (λ v. (t : Tree) → IsTableOf icfg.now path.now.word t table.now → v.items ≡ prefix_predicates icfg.now path.now.word t) }
{
    let spots = layout.spots.as_slice();
    let mut preds = Vec::with_capacity(alloc, spots.len())?;
    for position in 0..spots.len() {
        preds.push(Scoped {
            proc: spots[position].proc,
            pred: predicate(alloc, table, position)?,
        })?;
    }
    Ok(preds)
}
