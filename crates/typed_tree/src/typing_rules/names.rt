//! Names that differ.

ghost use Rattle.std.specs.Prelude.{◌≡◌, map, IfOk};
ghost use Rattle.std.specs.List.{list_all};
ghost use Rattle.std.specs.Str.{bytes_eq};
ghost use Rattle.boogie_tree.specs.Names as spec;
ghost use Rattle.typed_tree.specs.TypedView as view;
ghost use Rattle.typed_tree.specs.TypingRules.Rules.{all_differ};
ghost use Rattle.typed_tree.specs.TypingRules.Shape.{are_names};
ghost use Rattle.typed_tree.specs.TypingRules.Ties.Texts.{texts};

use crate::TProc;
use boogie_tree::VarInfo;
use boogie_tree::names::is_spelled;
use std::alloc::{AllocError, Global};
use std::collections::BTreeMap;

/// Whether no two names are the same.
fn names_differ(alloc: Global, names: &[&[u8]]) -> Result<bool, AllocError>
    ensures { IfOk result (λ differ. differ ≡ all_differ bytes_eq (texts names.now)) }
{
    let mut found = BTreeMap::new(alloc);
    for name in names {
        if found.insert(*name, true)?.is_some() {
            return Ok(false);
        }
    }
    Ok(true)
}

fn all_spelled(names: &[&[u8]]) -> bool
    ensures { result ≡ list_all spec.is_spelled (texts names.now) }
{
    for name in names {
        if !is_spelled(*name) {
            return false;
        }
    }
    true
}

/// Whether the names differ, each spelled as a name may be.
fn named(alloc: Global, names: &[&[u8]]) -> Result<bool, AllocError>
    ensures { IfOk result (λ named. named ≡ are_names (texts names.now)) }
{
    if all_spelled(names) {
        names_differ(alloc, names)
    } else {
        Ok(false)
    }
}

/// Whether the names of the variables differ, each spelled as a name may be.
pub(crate) fn variables_named(alloc: Global, variables: &[VarInfo]) -> Result<bool, AllocError>
    ensures { IfOk result (λ named. named ≡ are_names (map (λ v. v.name) variables.now)) }
{
    let mut names = Vec::with_capacity(alloc, variables.len())?;
    for variable in variables {
        names.push(variable.name.bytes())?;
    }
    named(alloc, &names)
}

/// Whether the names of the procedures differ, each spelled as a name may be.
pub(crate) fn procedures_named(alloc: Global, procs: &[TProc]) -> Result<bool, AllocError>
    ensures { IfOk result (λ named. named ≡ are_names (map (λ p. p.name) (map view.procedure procs.now))) }
{
    let mut names = Vec::with_capacity(alloc, procs.len())?;
    for listed in procs {
        names.push(listed.name.bytes())?;
    }
    named(alloc, &names)
}
