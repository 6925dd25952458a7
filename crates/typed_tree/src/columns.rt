//! The order of columns, and which of them a form names.

ghost use Rattle.std.specs.Prelude.{◌≡◌};
ghost use Rattle.typed_tree.specs.AffineForm.{is_before, form_column};
ghost use Rattle.typed_tree.specs.Scope.{is_constant_column};

use boogie_tree::{Column, VarInfo};

/// Whether the first column stands before the second: globals, old values, locals, each by number.
pub fn is_before(first: Column, second: Column) -> bool
    ensures { result ≡ is_before first second }
{
    match (first, second) {
        (Column::Global(a), Column::Global(b)) => a < b,
        (Column::Global(_), _) => true,
        (Column::Old(_), Column::Global(_)) => false,
        (Column::Old(a), Column::Old(b)) => a < b,
        (Column::Old(_), Column::Local(_)) => true,
        (Column::Local(a), Column::Local(b)) => a < b,
        (Column::Local(_), _) => false,
    }
}

/// The column by which a form names one that is read at the procedure's entry or now: `old` changes nothing of constants.
pub fn form_column(globals: &[VarInfo], old: bool, column: Column) -> Column
    ensures { result ≡ form_column (is_constant_column globals.now) old column }
{
    match column {
        Column::Global(n) if old && !is_constant_column(globals, column) => Column::Old(n),
        _ => column,
    }
}

/// Whether the column is that of a constant.
fn is_constant_column(globals: &[VarInfo], column: Column) -> bool
    ensures { result ≡ is_constant_column globals.now column }
{
    match column {
        Column::Global(n) => match globals.get(n as usize) {
            Some(variable) => variable.constant,
            None => false,
        },
        _ => false,
    }
}
