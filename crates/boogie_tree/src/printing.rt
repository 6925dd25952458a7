//! The canonical text of a program, whole, and of its pieces, each put behind a text.

mod declarations;
mod expressions;
mod lines;
mod lists;
mod pieces;
mod statements;

ghost use Rattle.std.specs.Prelude.{◌≡◌, IfOk};
ghost use Rattle.boogie_tree.specs.Printing.{program_text};
ghost use Rattle.boogie_tree.specs.View as view;

use crate::tree::Program;
use declarations::declaration;
pub use declarations::{results, signature};
pub use expressions::expression;
pub use lines::{guard, indentation, leaving, targets};
pub use lists::{expressions as listed_expressions, names as listed_names};
pub use pieces::{append, literal, truth, variable};
use std::alloc::{AllocError, Global};

/// The canonical text of a program: one line for each item, two spaces further in for each open block, and parentheses
/// where an operator binds less than its place asks for.
pub fn print(alloc: Global, program: &Program) -> Result<Vec<u8>, AllocError>
    ensures text { IfOk result (λ text. text.items ≡ program_text (view.program program.now)) }
{
    let mut out = Vec::new(alloc);
    for each in &program.decls {
        declaration(&mut out, each)?;
    }
    Ok(out)
}
