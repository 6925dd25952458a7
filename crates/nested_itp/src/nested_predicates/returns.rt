//! Which calls of a word have a return in it.

ghost use Rattle.std.specs.Prelude.{◌≡◌, ◌<◌, ◌^◌, IfOk};
ghost use Rattle.nested_itp.specs.NestedPredicates.Walking.{unmatched_before, return_tests};

use nwa_base::{Kind, Letter};
use std::alloc::{AllocError, Global};

/// For each letter whether a call in its place has a return in the word.
pub(crate) fn returns(alloc: Global, letters: &[Letter]) -> Result<Vec<bool>, AllocError>
    ensures { IfOk result (λ v. v.items ≡ return_tests letters.now) }
{
    let mut tests = Vec::with_capacity(alloc, letters.len())?;
    let mut unmatched = 0;
    for i in 0..letters.len() {
        tests.push(unmatched > 0)?;
        unmatched = unmatched_before(letters[letters.len() - 1 - i].kind, unmatched);
    }
    tests.as_mut_slice().reverse();
    Ok(tests)
}

/// How many returns are not matched from a letter of this kind on, where so many are behind it.
fn unmatched_before(kind: Kind, behind: u64) -> u64
    requires { behind < 2 ^ 63 }
    ensures { result ≡ unmatched_before kind behind }
{
    match kind {
        Kind::Inside => behind,
        Kind::Call => behind.saturating_sub(1),
        Kind::Back => behind + 1,
    }
}
