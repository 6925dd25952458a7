//! The refutations of rankings.

ghost use Rattle.std.specs.Prelude.{◌≡◌, map, IfOk, is_some};
ghost use Rattle.std.specs.List.{list_all};
ghost use Rattle.proof_form.specs.Refutations.{plain_refutation_node, refutation_text};
ghost use Rattle.proof_names.specs.Numbers as numbers;
ghost use Rattle.rank_lasso.specs.RankingText as spec;
ghost use Rattle.rank_lasso.specs.RankingText.{IsProofForm};
ghost use Rattle.rank_lasso.specs.Lines.{ReadsAll};

use proof_form::{Numeral, RNode, read_ref};
use proof_names::short_in;
use std::alloc::{AllocError, Global};

/// The refutation that the bytes are, behind a space. Its rows and the columns of its cuts have 32 bits.
pub(crate) fn tree_of(alloc: Global, bytes: &[u8]) -> Result<Option<Vec<RNode>>, AllocError>
    ensures { IfOk result (ReadsAll (λ v. map plain_refutation_node v.items) IsProofForm refutation_text bytes.now) }
{
    let Some(text) = bytes.strip_prefix(b" ") else {
        return Ok(None);
    };
    let Some(nodes) = read_ref(alloc, text)? else {
        return Ok(None);
    };
    if are_short(&nodes) {
        Ok(Some(nodes))
    } else {
        Ok(None)
    }
}

/// Whether all rows of leaves and columns of cuts have 32 bits.
fn are_short(nodes: &[RNode]) -> bool
    ensures { result ≡ list_all (λ n. spec.rows_are_short (plain_refutation_node n)) nodes.now }
{
    nodes.iter().all(rows_are_short)
}

fn rows_are_short(node: &RNode) -> bool
    ensures { result ≡ spec.rows_are_short (plain_refutation_node node.now) }
{
    match node {
        RNode::Leaf(parts) => parts_are_short(parts),
        RNode::Cut { col, .. } => short_in(col).is_some(),
        RNode::Cases(_) => true,
    }
}

fn parts_are_short(parts: &[(Numeral, Numeral)]) -> bool
    ensures { result ≡ list_all (λ p. is_some (numbers.short_in p.0)) parts.now }
{
    parts.iter().all(|part| short_in(&part.0).is_some())
}
