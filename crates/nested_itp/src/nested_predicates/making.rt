//! Prefix predicates made from a refutation.

ghost use Rattle.std.specs.Prelude.{◌≡◌, suc, [], ◌∷◌, Err, IfOk, map, length};
ghost use Rattle.farkas_check.specs.Trees.{Tree, prefix_of};
ghost use Rattle.path_rows.specs.Paths.{IsPathOf};
ghost use Rattle.nested_itp.specs.NestedPredicates.Stamps.{stamps_of};
ghost use Rattle.nested_itp.specs.NestedPredicates.Positions.{positions_of};
ghost use Rattle.nested_itp.specs.NestedPredicates.Sums.{root_of};
ghost use Rattle.nested_itp.specs.NestedPredicates.Fitting.{SumsFit};
ghost use Rattle.nested_itp.specs.NestedPredicates.Tables.{table_along};
ghost use Rattle.nested_itp.specs.NestedPredicates.Interpolants.{ArePredicates, RefutesRows, HasCutsUpTo, BeginsTrue, EndsFalse};
ghost use Rattle.nested_itp.specs.NestedPredicates.Walking.{return_tests};

use crate::nested_predicates::faults::ItpFault;
use crate::nested_predicates::layout::Layout;
use crate::nested_predicates::preds::predicates;
use crate::nested_predicates::tables::node_table;
use farkas_check::Refutation;
use letter_acts::Icfg;
use path_rows::PathSystem;
use std::alloc::Global;
use triple_rows::{PredNode, Scoped};

/// The prefix predicates of a word, and what they are made of.
#[derive(Drop)]
pub struct PrefixSums {
    /// The predicates, one for each position.
    pub preds: Vec<Scoped>,
    /// For each node of the refutation the node that stands for it at each position: a leaf's sum, or at a cut `Or` where it
    /// is counted and else `And`.
    pub table: Vec<Vec<PredNode>>,
    /// For each letter whether a call in its place has a return in the word.
    pub returned: Vec<bool>,
}

/// The prefix predicates of a word under a refutation of its rows, no branch of which has more than 64 cuts, with what they
/// are made of. `Past` only where a coefficient or a bound of a leaf's sum at a position does not fit. Each leaf costs the time of
/// its rows and of the frames' widths along the word.
pub fn prefix_sums(
    alloc: Global,
    icfg: &Icfg,
    path: &PathSystem,
    proof: &Refutation,
) -> Result<PrefixSums, ItpFault>
    requires path { IsPathOf icfg.now path.now }
    requires refutes { RefutesRows proof.now path.now.rows }
    requires cuts { HasCutsUpTo 64 proof.now }
    ensures value { IfOk result (λ s. ArePredicates icfg.now path.now.word proof.now s.preds.items) }
    ensures first { IfOk result (λ s. BeginsTrue s.preds.items) }
    ensures last { IfOk result (λ s. EndsFalse s.preds.items) }
    ensures predicates { IfOk result (λ s. length s.preds.items ≡ suc (length path.now.word)) }
    ensures returned { IfOk result (λ s. s.returned.items ≡ return_tests path.now.word) }
    ensures table { IfOk result (λ s. map (λ v. v.items) s.table.items ≡ table_along (stamps_of icfg.now path.now.word).columns (positions_of icfg.now path.now.word) proof.now (root_of icfg.now path.now.word ∷ [])) }
    ensures past { result ≡ Err ItpFault.Past → (t : Tree) → prefix_of t ≡ proof.now → SumsFit (stamps_of icfg.now path.now.word).columns (positions_of icfg.now path.now.word) (root_of icfg.now path.now.word) t → ⊥ }
{
    let layout = Layout::of(alloc, icfg, path)?;
    let table = node_table(alloc, icfg, path, &layout, proof.nodes())?;
    let preds = predicates(alloc, icfg, path, &layout, &table)?;
    Ok(PrefixSums {
        preds,
        table,
        returned: layout.returned,
    })
}

/// The prefix predicates of a word under a refutation of its rows, no branch of which has more than 64 cuts, one for each
/// position. Each leaf costs the time of its rows and of the frames' widths along the word.
pub fn prefix_predicates(
    alloc: Global,
    icfg: &Icfg,
    path: &PathSystem,
    proof: &Refutation,
) -> Result<Vec<Scoped>, ItpFault>
    requires path { IsPathOf icfg.now path.now }
    requires refutes { RefutesRows proof.now path.now.rows }
    requires cuts { HasCutsUpTo 64 proof.now }
    ensures value { IfOk result (λ v. ArePredicates icfg.now path.now.word proof.now v.items) }
    ensures first { IfOk result (λ v. BeginsTrue v.items) }
    ensures last { IfOk result (λ v. EndsFalse v.items) }
    ensures predicates { IfOk result (λ v. length v.items ≡ suc (length path.now.word)) }
    ensures past { result ≡ Err ItpFault.Past → (t : Tree) → prefix_of t ≡ proof.now → SumsFit (stamps_of icfg.now path.now.word).columns (positions_of icfg.now path.now.word) (root_of icfg.now path.now.word) t → ⊥ }
{
    Ok(prefix_sums(alloc, icfg, path, proof)?.preds)
}
