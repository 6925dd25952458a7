//! How much work an earlier annotation may make. It comes from outside and may be made large; past these it is want of memory.

ghost use Rattle.std.specs.Prelude.{◌≤◌, ◌-◌, ◌≡◌, IfOk, OnOk};

use std::alloc::AllocError;

/// How many predicates are found at most; each is looked for among the others.
pub(crate) const MOST_PREDICATES: usize = 4096;

/// How many candidates are tried at most.
pub(crate) const MOST_CANDIDATES: usize = 1_048_576;

/// Refuses more candidates by one letter than are tried at all.
pub(crate) fn bounded(candidates: usize) -> Result<(), AllocError>
    ensures { OnOk result (candidates ≤ MOST_CANDIDATES) }
{
    if candidates > MOST_CANDIDATES {
        return Err(AllocError);
    }
    Ok(())
}

/// How many candidates are left of so many, when some are tried.
pub(crate) fn left_of(left: usize, candidates: usize) -> Result<usize, AllocError>
    ensures { IfOk result (λ rest. (candidates ≤ left) × (rest ≡ left - candidates)) }
{
    match left.checked_sub(candidates) {
        Some(rest) => Ok(rest),
        None => Err(AllocError),
    }
}
