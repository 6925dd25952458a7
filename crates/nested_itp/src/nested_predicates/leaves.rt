//! A leaf's sums at the positions of a word.

ghost use Rattle.std.specs.Prelude.{◌≡◌, ◌<◌, ℕ, nat_eq, IfOk, length};
ghost use Rattle.std.specs.HashMap.{get};
ghost use Rattle.std.specs.List.{AllByRecursion};
ghost use Rattle.nwa_base.specs.Groups.{grouped};
ghost use Rattle.nested_itp.specs.NestedPredicates.Runnings.{parts_at};

use nwa_base::Groups;
use std::alloc::{AllocError, Global};

/// The parts of a leaf by the stamps of their rows.
pub(crate) fn parts_by_stamp(
    alloc: Global,
    stamps: &[u64],
    parts: &[(u32, i128)],
) -> Result<Groups<u64, (u32, i128)>, AllocError>
    requires { AllByRecursion (λ t. t.0 < length stamps.now) parts.now }
    ensures { IfOk result (λ g. (s : ℕ) → grouped (get nat_eq g.by_key s) ≡ parts_at stamps.now s parts.now) }
{
    let mut groups = Groups::new(alloc);
    for &part in parts {
        groups.add(stamps[part.0 as usize], part)?;
    }
    Ok(groups)
}
