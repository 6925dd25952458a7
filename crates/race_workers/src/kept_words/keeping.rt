//! The words that are left.

ghost use Rattle.std.specs.Prelude.{IfOk};
ghost use Rattle.nwa_reduce.specs.Lean.{IsLean};
ghost use Rattle.race_workers.specs.KeptWords.Without.{IsWithout};

use nwa_base::Nwa;
use nwa_difference::difference;
use nwa_reduce::reduce;
use std::alloc::{AllocError, Global};

/// An automaton of the words that `kept` accepts and `removed` does not, from which no state can be taken away.
pub fn without(alloc: Global, kept: &Nwa, removed: &Nwa) -> Result<Nwa, AllocError>
    ensures words { IfOk result (λ n. IsWithout kept.now removed.now n) }
    ensures lean { IfOk result IsLean }
{
    let left = difference(alloc, kept, removed)?;
    reduce(alloc, &left)
}
