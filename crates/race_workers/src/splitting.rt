//! Passes for workers.

ghost use Rattle.std.specs.Prelude.{◌≡◌, ◌+◌, length, IfOk, OnOk};
ghost use Rattle.std.specs.List.{AllByRecursion};
ghost use Rattle.version_cell.specs.Passes.{IsPassOf};
ghost use Rattle.race_workers.specs.Ties.Parts.{IsFresh, with_one_share};

use itp_automaton::Certified;
use std::alloc::{AllocError, Global};
use version_cell::{Pass, VersionCell};

/// A pass for each worker, split from one that keeps a share.
pub(crate) fn split_all(
    alloc: Global,
    cell: &VersionCell<Certified>,
    pass: &mut Pass<Certified>,
    workers: u32,
) -> Result<Vec<Pass<Certified>>, AllocError>
    requires { IsPassOf cell.now pass.old × (pass.old.shares ≡ workers + 1) }
    ensures pass { OnOk result (pass.new ≡ with_one_share pass.old) }
    ensures of_cell { OnOk result (IsPassOf cell.now pass.new) }
    ensures parts { IfOk result (λ v. (length v.items ≡ workers) × AllByRecursion (IsFresh cell.now 1) v.items) }
{
    let mut parts = Vec::new(alloc);
    'parts: while parts.len() < workers as usize {
        let part = cell.split(pass);
        parts.push(part)?;
    }
    Ok(parts)
}
