//! The texts that name procedures and columns.

ghost use Rattle.std.specs.Prelude.{◌≡◌, [], ◌∷◌, IfOk};
ghost use Rattle.proof_names.specs.Columns as spec;

use boogie_tree::{Column, Text, VarInfo};
use std::alloc::{AllocError, Global};

/// The letter before the colon that stands before the name of a column.
fn mark(column: Column) -> u8
    ensures { spec.mark column ≡ result ∷ 58 ∷ [] }
{
    match column {
        Column::Global(_) => b'g',
        Column::Old(_) => b'o',
        Column::Local(_) => b'l',
    }
}

/// The text that names a column: `g:`, `o:` or `l:` for a constant or global, an old value or a local, and its name. In a
/// frame where no two columns are named alike it names this one. An error comes only where memory ran out.
pub fn column_text(alloc: Global, column: &(Column, VarInfo)) -> Result<Text, AllocError>
    ensures { IfOk result (λ t. t ≡ spec.column_text column.now) }
{
    let mut text = Vec::new(alloc);
    text.push(mark(column.0))?;
    text.push(b':')?;
    text.extend_from_slice(column.1.name.bytes())?;
    Ok(Text::new(text))
}
