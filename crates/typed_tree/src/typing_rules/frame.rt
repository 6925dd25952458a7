//! What a statement stands under.

ghost use Rattle.std.specs.Prelude.{◌≡◌, None, Some, MatchOption};
ghost use Rattle.typed_tree.specs.Scope.{seen, variable_at};

use crate::typing_rules::labels::Labels;
use crate::typing_rules::numbers::Numbers;
use crate::{Scope, TProc};
use boogie_tree::{Column, VarInfo};
use std::alloc::Global;

/// What is seen, the procedures, the globals that may be written, the labels that a goto may name, and the number of loops around.
#[derive(Drop)]
pub(crate) struct Frame<'a> {
    pub(crate) alloc: Global,
    pub(crate) scope: Scope<'a>,
    pub(crate) procs: &'a [TProc],
    pub(crate) modifies: Numbers<'a>,
    pub(crate) labels: Labels,
    pub(crate) loops: u64,
}

/// What stands in a column, where it is seen.
pub(crate) fn variable<'a>(scope: &Scope<'a>, column: Column) -> Option<&'a VarInfo>
    ensures { MatchOption result (variable_at (seen scope.now) column ≡ None) (λ v. variable_at (seen scope.now) column ≡ Some v.now) }
{
    match column {
        Column::Global(number) => {
            let found = scope.globals.get(number as usize)?;
            if scope.variables || found.constant {
                Some(found)
            } else {
                None
            }
        }
        Column::Old(_) => None,
        Column::Local(number) => scope.locals.get(number as usize),
    }
}
