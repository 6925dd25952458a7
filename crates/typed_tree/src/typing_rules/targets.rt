//! What a statement writes.

ghost use Rattle.std.specs.Prelude.{◌≡◌, map, IfOk};
ghost use Rattle.std.specs.List.{list_all};
ghost use Rattle.typed_tree.specs.Scope.{seen};
ghost use Rattle.typed_tree.specs.TypingRules.Rules.{is_writable, are_targets, same_column, all_differ};
ghost use Rattle.typed_tree.specs.TypingRules.BrokenTyping.{IsTargetBroken, AreTargetsBroken};
ghost use Rattle.typed_tree.specs.TypingRules.Ties.Judged.{Judges, IsOneBroken, context};
ghost use Rattle.typed_tree.specs.TypingRules.Ties.ColumnKey.{column_key};

use crate::TypeFault;
use crate::typing_rules::frame::{Frame, variable};
use crate::typing_rules::numbers::differ;
use boogie_tree::{Column, Span};
use std::alloc::{AllocError, Global};

/// Whether a statement there may write the column.
fn target(frame: &Frame, at: Span, column: Column) -> Result<(), TypeFault>
    ensures { Judges result (is_writable (context frame.now) column) (IsTargetBroken (context frame.now) at column) }
{
    let Some(found) = variable(&frame.scope, column) else {
        return Err(TypeFault::Unknown(at));
    };
    if found.constant {
        return Err(TypeFault::NotAssignable(at));
    }
    match column {
        Column::Global(number) => {
            if frame.modifies.has(number) {
                Ok(())
            } else {
                Err(TypeFault::NotModified(at))
            }
        }
        Column::Old(_) => Err(TypeFault::Unknown(at)),
        Column::Local(_) => Ok(()),
    }
}

/// Whether a statement there may write each of the columns.
fn writable(frame: &Frame, at: Span, columns: &[Column]) -> Result<(), TypeFault>
    ensures { Judges result (list_all (is_writable (context frame.now)) columns.now) (IsOneBroken columns.now (IsTargetBroken (context frame.now) at)) }
{
    for column in columns {
        target(frame, at, *column)?;
    }
    Ok(())
}

/// A number for each column, unlike that of every other.
fn column_key(column: Column) -> u64
    ensures { result ≡ column_key column }
{
    match column {
        Column::Global(number) => 3 * number as u64,
        Column::Old(number) => 3 * number as u64 + 1,
        Column::Local(number) => 3 * number as u64 + 2,
    }
}

fn column_keys(alloc: Global, columns: &[Column]) -> Result<Vec<u64>, AllocError>
    ensures { IfOk result (λ keys. keys.items ≡ map column_key columns.now) }
{
    let mut keys = Vec::with_capacity(alloc, columns.len())?;
    for column in columns {
        keys.push(column_key(*column))?;
    }
    Ok(keys)
}

/// Whether no two columns are the same.
fn columns_differ(alloc: Global, columns: &[Column]) -> Result<bool, AllocError>
    ensures { IfOk result (λ b. b ≡ all_differ same_column columns.now) }
{
    let keys = column_keys(alloc, columns)?;
    differ(alloc, &keys)
}

/// Whether a statement there may write the columns, none twice.
pub(crate) fn targets(frame: &Frame, at: Span, columns: &[Column]) -> Result<(), TypeFault>
    ensures { Judges result (are_targets (context frame.now) columns.now) (AreTargetsBroken (context frame.now) at columns.now) }
{
    writable(frame, at, columns)?;
    if columns_differ(frame.alloc, columns)? {
        Ok(())
    } else {
        Err(TypeFault::Twice(at))
    }
}
