ghost use Rattle.std.specs.Prelude.{◌≡◌, ◌++◌, OnOk, ℕ, List, map};
ghost use Rattle.boogie_tree.specs.Printing.{expression_text, expressions_text, names_text, variable_text, variables_text, listed, continued};
ghost use Rattle.boogie_tree.specs.View as view;

use super::expressions::expression;
use super::pieces::{append, variable};
use crate::tree::{Expr, Name, Vary};
use std::alloc::AllocError;

/// What stands in lists with commas.
trait Item {
    ghost text: { Self → List ℕ };

    /// Puts the item behind the text.
    fn append_to(&self, out: &mut Vec<u8>) -> Result<(), AllocError>
        ensures { OnOk result (out.new.items ≡ out.old.items ++ text self.now) };
}

impl Item for Name {
    ghost text = { λ x. x.text };

    fn append_to(&self, out: &mut Vec<u8>) -> Result<(), AllocError> {
        append(out, self.text.bytes())
    }
}

impl Item for Vary {
    ghost text = { variable_text };

    fn append_to(&self, out: &mut Vec<u8>) -> Result<(), AllocError> {
        variable(out, self)
    }
}

impl Item for Expr {
    ghost text = { λ e. expression_text (view.expression e) };

    fn append_to(&self, out: &mut Vec<u8>) -> Result<(), AllocError> {
        expression(out, self)
    }
}

/// Puts the items behind the text, with a comma and a space between them.
fn list<T: Item>(out: &mut Vec<u8>, items: &[T]) -> Result<(), AllocError>
    ensures { OnOk result (out.new.items ≡ out.old.items ++ listed (map T.text items.now)) }
{
    match items {
        [] => Ok(()),
        [first, rest @ ..] => {
            first.append_to(out)?;
            more(out, rest)
        }
    }
}

/// Puts the items behind the text, with a comma and a space before each.
fn more<T: Item>(out: &mut Vec<u8>, items: &[T]) -> Result<(), AllocError>
    ensures { OnOk result (out.new.items ≡ out.old.items ++ continued (map T.text items.now)) }
{
    for item in items {
        append(out, b", ")?;
        item.append_to(out)?;
    }
    Ok(())
}

/// Puts the names behind the text.
pub fn names(out: &mut Vec<u8>, names: &[Name]) -> Result<(), AllocError>
    ensures { OnOk result (out.new.items ≡ out.old.items ++ names_text names.now) }
{
    list(out, names)
}

/// Puts the variables with their types behind the text.
pub(super) fn variables(out: &mut Vec<u8>, variables: &[Vary]) -> Result<(), AllocError>
    ensures { OnOk result (out.new.items ≡ out.old.items ++ variables_text variables.now) }
{
    list(out, variables)
}

/// Puts the expressions behind the text.
pub fn expressions(out: &mut Vec<u8>, expressions: &[Expr]) -> Result<(), AllocError>
    ensures { OnOk result (out.new.items ≡ out.old.items ++ expressions_text (map view.expression expressions.now)) }
{
    list(out, expressions)
}
