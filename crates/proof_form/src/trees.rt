//! Trees are read as flat lists of pieces, and their nodes are put together from the last piece to the first.

ghost use Rattle.std.specs.Prelude.{◌≡◌, [], ◌∷◌, ◌++◌, IfOk, List, ℕ, reverse};
ghost use Rattle.proof_form.specs.Outcomes.{Gives};
ghost use Rattle.proof_form.specs.TreeReading.{opened};
ghost use Rattle.proof_form.specs.Ties.TreeWriting.{total, closing};

use crate::refusal::Refusal;
use std::alloc::AllocError;

/// A piece of the text of a tree.
#[derive(Drop)]
pub(crate) enum Piece<T> {
    /// A node without its parts.
    Opens(T),
    /// A closing parenthesis.
    Closes,
}

/// The innermost open node opens here: how many parts it has. It is one more part of the next one.
pub(crate) fn open(counts: &mut Vec<u32>) -> Result<u32, Refusal>
    ensures { Gives (λ n. (n, reverse counts.new.items)) result (opened (reverse counts.old.items)) }
{
    let Some(count) = counts.pop() else {
        return Err(Refusal::Form);
    };
    let Some(outer) = counts.pop() else {
        return Err(Refusal::Form);
    };
    let Some(outer) = outer.checked_add(1) else {
        return Err(Refusal::Form);
    };
    counts.push(outer)?;
    Ok(count)
}

/// Closes each node of which no part is left, where so many are left of the innermost. It answers how many are left
/// of the one that is the innermost then.
pub(crate) fn close(out: &mut Vec<u8>, left: u32, outer: &mut Vec<u32>) -> Result<u32, AllocError>
    // What is written, with the texts of the parts that are left, is as before.
    ensures same { IfOk result (λ c. (ts : List (List ℕ)) →
        out.new.items ++ closing (c ∷ reverse outer.new.items) ts ≡ out.old.items ++ closing (left ∷ reverse outer.old.items) ts) }
    ensures kept { IfOk result (λ c. total (c ∷ reverse outer.new.items) ≡ total (left ∷ reverse outer.old.items)) }
    ensures ready { IfOk result (λ c. c ≡ 0 → outer.new.items ≡ []) }
{
    let mut left = left;
    while left == 0 {
        match outer.pop() {
            None => return Ok(0),
            Some(count) => {
                out.push(b')')?;
                left = count;
            }
        }
    }
    Ok(left)
}
