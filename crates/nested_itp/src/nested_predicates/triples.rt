//! The triples of a word's letters, with the predicates of its positions.

ghost use Rattle.std.specs.Prelude.{◌≡◌, ◌<◌, suc, [], ◌∷◌, IfOk, OnOk, length, reverse};
ghost use Rattle.std.specs.List.{AllByRecursion};
ghost use Rattle.nested_itp.specs.NestedPredicates.Interpolants.{letter_triple, triples_along};
ghost use Rattle.nested_itp.specs.NestedPredicates.Ties.Saved.{scoped_in, saved_at, calls_after, FindsCall};

use nwa_base::{Kind, Letter, Word};
use std::alloc::{AllocError, Global};
use triple_rows::{Scoped, Triple};

/// The triples of a word's letters, in order, with one predicate for each position: of a return also with the predicate
/// before its call.
pub fn triples_of(alloc: Global, word: &Word, preds: &[Scoped]) -> Result<Vec<Triple>, AllocError>
    requires { length preds.now ≡ suc (length word.now) }
    ensures { IfOk result (λ v. v.items ≡ triples_along word.now preds.now []) }
{
    let letters = word.letters();
    let mut triples = Vec::with_capacity(alloc, letters.len())?;
    let mut calls = Vec::new(alloc);
    for at in 0..letters.len() {
        triples.push(triple_at(letters[at], preds, at, &calls)?)?;
        step(&mut calls, letters[at].kind, at)?;
    }
    Ok(triples)
}

/// The triple of the letter behind a position, where the open calls stand at these positions, the innermost last.
fn triple_at(
    letter: Letter,
    preds: &[Scoped],
    at: usize,
    calls: &[usize],
) -> Result<Triple, AllocError>
    requires next { suc at < length preds.now }
    requires calls { AllByRecursion (λ k. k < length preds.now) calls.now }
    requires finds { FindsCall letter.kind (reverse calls.now) }
    ensures { IfOk result (λ t. t ∷ [] ≡ letter_triple letter.kind letter.id (scoped_in preds.now at) (saved_at preds.now (reverse calls.now)) (scoped_in preds.now (suc at))) }
{
    let from = preds[at].copy()?;
    let to = preds[at + 1].copy()?;
    let id = letter.id;
    match letter.kind {
        Kind::Inside => Ok(Triple::Inside {
            from,
            letter: id,
            to,
        }),
        Kind::Call => Ok(Triple::Call {
            from,
            letter: id,
            to,
        }),
        Kind::Back => {
            let Some(call) = calls.last() else {
                unreachable!()
            };
            Ok(Triple::Back {
                exit: from,
                before: preds[*call].copy()?,
                letter: id,
                to,
            })
        }
    }
}

/// The open calls after a letter of this kind behind a position.
fn step(calls: &mut Vec<usize>, kind: Kind, at: usize) -> Result<(), AllocError>
    ensures { OnOk result (reverse calls.new.items ≡ calls_after kind at (reverse calls.old.items)) }
{
    match kind {
        Kind::Inside => {}
        Kind::Call => {
            calls.push(at)?;
        }
        Kind::Back => {
            let _ = calls.pop();
        }
    }
    Ok(())
}
