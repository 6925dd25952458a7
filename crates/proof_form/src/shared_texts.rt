//! Texts that other formats share with annotations: refutations, and the names of columns.

ghost use Rattle.std.specs.Prelude.{◌≡◌, ◌∷◌, List, None, map, IfOk, IfSome, IsTrue};
ghost use Rattle.proof_form.specs.Names as names;
ghost use Rattle.proof_form.specs.Refutations as spec;
ghost use Rattle.proof_form.specs.Refutations.{RefutationNode};

use crate::refusal::Refusal;
use crate::refutations::{RNode, is_refutation, push_refutation, refutation_of};
use crate::spelling::is_column;
use std::alloc::{AllocError, Global};

/// The nodes, as a prefix list, of the refutation that the text is, from its first parenthesis to its last. `None` exactly where the text is
/// no refutation, as where a numeral has a zero in front. An error comes only where memory ran out.
#[tactic(auto, using(crate::proofs::RefutationLaws::refutation_spells, crate::proofs::RefutationLaws::refutation_reads))]
pub fn read_ref(alloc: Global, text: &[u8]) -> Result<Option<Vec<RNode>>, AllocError>
    ensures valid { IfOk result (λ o. IfSome o (λ v. IsTrue (spec.is_refutation (map spec.plain_refutation_node v.items)))) }
    ensures value { IfOk result (λ o. IfSome o (λ v. spec.refutation_text (map spec.plain_refutation_node v.items) ≡ 32 ∷ text.now)) }
    ensures none { IfOk result (λ o. o ≡ None → (ns : List RefutationNode) → IsTrue (spec.is_refutation ns) → spec.refutation_text ns ≡ 32 ∷ text.now → ⊥) }
{
    let spaced = with_space(alloc, text)?;
    match refutation_of(alloc, &spaced) {
        Ok(nodes) if is_refutation(&nodes) => Ok(Some(nodes)),
        Ok(_) | Err(Refusal::Form) => Ok(None),
        Err(Refusal::Memory) => Err(AllocError),
    }
}

/// The text behind a space, as a refutation stands in a line.
fn with_space(alloc: Global, text: &[u8]) -> Result<Vec<u8>, AllocError>
    ensures { IfOk result (λ v. v.items ≡ 32 ∷ text.now) }
{
    let mut spaced = Vec::with_capacity(alloc, text.len().saturating_add(1))?;
    spaced.push(b' ')?;
    spaced.extend_from_slice(text)?;
    Ok(spaced)
}

/// The text of the refutation with these nodes, without a space before it. `read_ref` reads it as these nodes again. An error comes only where
/// memory ran out.
#[tactic(auto, using(crate::proofs::SharedLaws::begins_with_space))]
pub fn write_ref(alloc: Global, nodes: &[RNode]) -> Result<Vec<u8>, AllocError>
    requires { IsTrue (spec.is_refutation (map spec.plain_refutation_node nodes.now)) }
    ensures { IfOk result (λ v. spec.refutation_text (map spec.plain_refutation_node nodes.now) ≡ 32 ∷ v.items) }
{
    let mut text = Vec::new(alloc);
    push_refutation(&mut text, nodes)?;
    text.remove(0);
    Ok(text)
}

/// Whether the text names a column: `g:`, `o:` or `l:`, and a name behind it. It takes no memory.
pub fn is_col(text: &[u8]) -> bool
    ensures { result ≡ names.is_column text.now }
{
    is_column(text)
}
