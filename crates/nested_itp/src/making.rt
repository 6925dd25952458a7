//! Nested interpolants made from a refutation.

ghost use Rattle.std.specs.Prelude.{◌≡◌, ◌↔◌, suc, Err, IsTrue, IfOk, length};
ghost use Rattle.std.specs.List.{AllByRecursion};
ghost use Rattle.farkas_check.specs.Nodes.{plain, plain_nodes, is_tree};
ghost use Rattle.farkas_check.specs.Trees as trees;
ghost use Rattle.letter_acts.specs.Invariant.{alphabet_of};
ghost use Rattle.path_rows.specs.Paths.{IsPathOf};
ghost use Rattle.nested_itp.specs.NestedPredicates.Stamps.{stamps_of};
ghost use Rattle.nested_itp.specs.NestedPredicates.Positions.{positions_of};
ghost use Rattle.nested_itp.specs.NestedPredicates.Sums.{root_of};
ghost use Rattle.nested_itp.specs.NestedPredicates.Interpolants.{AreInterpolants, RefutesRows, HasCutsUpTo, BeginsTrue, EndsFalse};
ghost use Rattle.nested_itp.specs.NestedRefutations.Numbers.{NumbersFit, StepNumbersFit, steps_of};
ghost use Rattle.triple_rows.specs.Cuts.{IsCutWithin};
ghost use Rattle.triple_rows.specs.Triples.{Agrees};
ghost use Rattle.nested_itp.specs.TripleSteps.Steps.{FitColumns, AreSteps};
ghost use Rattle.nested_itp.specs.TripleWalks.Spots.{IsTree};
ghost use Rattle.hoare_check.specs.Decided.{IsProofFor};
ghost use Rattle.nested_itp.specs.Ties.Proofs.{AreTriplesOf, AreProofsOf, IsNoProof};

use crate::nested_predicates::{ItpFault, prefix_sums, triples_of};
use crate::proved::Interpolants;
use crate::triple_steps::{Step, steps};
use crate::triple_walks::{Tree, refutation};
use farkas_check::{Node, Refutation, tree};
use hoare_check::are_cuts_within;
use letter_acts::Icfg;
use path_rows::PathSystem;
use std::alloc::Global;
use triple_rows::{Proof, Triple, proof};

/// The prefix predicates of a word under a refutation of its rows, no branch of which has more than 64 cuts, with a proved
/// triple for each letter. `Past` only where a cut is at no column of the word, or a number of the definition does not fit: of the
/// predicates, of the systems of their triples, or of the refutations of these.
pub fn interpolants(
    alloc: Global,
    icfg: &Icfg,
    path: &PathSystem,
    proof: &Refutation,
) -> Result<Interpolants, ItpFault>
    requires path { IsPathOf icfg.now path.now }
    requires refutes { RefutesRows proof.now path.now.rows }
    requires cuts { HasCutsUpTo 64 proof.now }
    ensures value { IfOk result (AreInterpolants icfg.now path.now.word proof.now) }
    ensures first { IfOk result (λ i. BeginsTrue i.preds) }
    ensures last { IfOk result (λ i. EndsFalse i.preds) }
    ensures predicates { IfOk result (λ i. length i.preds ≡ suc (length path.now.word)) }
    ensures triples { IfOk result (λ i. length i.proofs ≡ length path.now.word) }
    ensures proved { IfOk result (λ i. AllByRecursion (IsProofFor (alphabet_of icfg.now)) i.proofs) }
    ensures past { result ≡ Err ItpFault.Past → NumbersFit icfg.now path.now.word proof.now → ⊥ }
{
    let nodes = proof.nodes();
    let sums = prefix_sums(alloc, icfg, path, proof)?;
    if !are_cuts_within_columns(nodes, path.column_at().len()) {
        return Err(ItpFault::Past);
    }
    let triples = triples_of(alloc, path.word(), &sums.preds)?;
    let steps = steps(alloc, icfg, path, &sums.returned)?;
    let tree = Tree::of(alloc, nodes, sums.table)?;
    let proofs = proofs(alloc, icfg, path, proof, &tree, &steps, &triples)?;
    Ok(Interpolants::new(sums.preds, proofs))
}

/// Whether each cut is at one of so many columns.
fn are_cuts_within_columns(nodes: &[Node], columns: usize) -> bool
    ensures { IsTrue result ↔ AllByRecursion (IsCutWithin columns) (plain_nodes nodes.now) }
{
    for node in nodes {
        if !is_cut_within(node, columns) {
            return false;
        }
    }
    true
}

/// Whether the node is no cut, or one at one of so many columns.
fn is_cut_within(node: &Node, columns: usize) -> bool
    ensures { IsTrue result ↔ IsCutWithin columns (plain node.now) }
{
    match node {
        Node::Cut { col, .. } => (*col as usize) < columns,
        Node::Leaf(_) | Node::Cases(_) => true,
    }
}

/// The proofs of the triples of a word's letters, put down along the tree of a refutation of its rows, which cuts at columns of the
/// word alone. `Past` only where a number of a triple's system, or of its refutation, does not fit.
fn proofs(
    alloc: Global,
    icfg: &Icfg,
    path: &PathSystem,
    proof: &Refutation,
    tree: &Tree,
    steps: &[Step],
    triples: &[Triple],
) -> Result<Vec<Proof>, ItpFault>
    requires path { IsPathOf icfg.now path.now }
    requires refutes { RefutesRows proof.now path.now.rows }
    requires cuts { AllByRecursion (IsCutWithin (length (stamps_of icfg.now path.now.word).columns)) proof.now }
    requires tree { (t : trees.Tree) → trees.prefix_of t ≡ proof.now → IsTree (stamps_of icfg.now path.now.word).columns (positions_of icfg.now path.now.word) (root_of icfg.now path.now.word) t proof.now tree.now }
    requires steps { (t : trees.Tree) → AreSteps icfg.now path.now.word t (steps_of icfg.now path.now.word t) steps.now }
    requires fit { AllByRecursion (λ s. FitColumns (length (stamps_of icfg.now path.now.word).columns) s.columns) steps.now }
    requires triples { AreTriplesOf icfg.now path.now.word proof.now triples.now }
    ensures proofs { IfOk result (λ v. AreProofsOf (alphabet_of icfg.now) triples.now v.items) }
    ensures count { IfOk result (λ v. length v.items ≡ length steps.now) }
    ensures past { result ≡ Err ItpFault.Past → ((t : trees.Tree) → trees.prefix_of t ≡ proof.now → AllByRecursion (StepNumbersFit icfg.now path.now.word t) (steps_of icfg.now path.now.word t)) → ⊥ }
{
    let _states = icfg.nwa().states();
    let nodes = proof.nodes();
    let rows = path.row_at().len();
    let mut proofs = Vec::with_capacity(alloc, triples.len())?;
    for at in 0..triples.len() {
        let refuting = refutation(alloc, nodes, tree, &steps[at], rows)?;
        proofs.push(proved(alloc, icfg, &triples[at], refuting)?)?;
    }
    Ok(proofs)
}

/// The proof of a triple that agrees with its letter, by the tree with these nodes. `Past` only where that is no proof of it.
fn proved(alloc: Global, icfg: &Icfg, triple: &Triple, nodes: Vec<Node>) -> Result<Proof, ItpFault>
    requires agrees { Agrees (alphabet_of icfg.now) triple.now }
    requires tree { IsTrue (is_tree (plain_nodes nodes.items)) }
    ensures triple { IfOk result (λ p. p.triple ≡ triple.now) }
    ensures proved { IfOk result (IsProofFor (alphabet_of icfg.now)) }
    ensures past { result ≡ Err ItpFault.Past → IsNoProof (alphabet_of icfg.now) triple.now (plain_nodes nodes.items) }
{
    let Some(refutation) = tree(nodes) else {
        unreachable!()
    };
    if !are_cuts_within(icfg, triple, &refutation) {
        return Err(ItpFault::Past);
    }
    match proof(alloc, icfg, triple.copy()?, refutation)? {
        Some(found) => Ok(found),
        None => Err(ItpFault::Past),
    }
}
