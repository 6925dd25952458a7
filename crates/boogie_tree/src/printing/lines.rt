ghost use Rattle.std.specs.Prelude.{◌≡◌, ◌++◌, ℕ, suc, codes, map, OnOk, IfOk};
ghost use Rattle.boogie_tree.specs.Printing.{indent, line, names_text, expressions_text, expression_text, guard_text, condition_line, targets_text, break_text, variable_text};
ghost use Rattle.boogie_tree.specs.View as view;

use super::expressions::expression;
use super::lists::{expressions, names};
use super::pieces::{append, variable};
use crate::tree::{Expr, Guard, Inv, Name, Vary};
use std::alloc::AllocError;

/// The number of open blocks inside one more. Where it does not fit, neither does a line with two spaces for each into memory.
pub(super) fn inside(depth: usize) -> Result<usize, AllocError>
    ensures { IfOk result (λ inner. inner ≡ suc depth) }
{
    depth.checked_add(1).ok_or(AllocError)
}

/// Puts the spaces before a line in so many open blocks behind the text.
pub fn indentation(out: &mut Vec<u8>, depth: usize) -> Result<(), AllocError>
    ensures { OnOk result (out.new.items ≡ out.old.items ++ indent depth) }
{
    for _block in 0..depth {
        append(out, b"  ")?;
    }
    Ok(())
}

/// Puts a line behind the text.
pub(super) fn plain_line(out: &mut Vec<u8>, depth: usize, text: &[u8]) -> Result<(), AllocError>
    ensures { OnOk result (out.new.items ≡ out.old.items ++ line depth text.now) }
{
    indentation(out, depth)?;
    append(out, text)?;
    append(out, b"\n")
}

/// `assert` or `assume`, given with a space behind it.
pub(super) fn claim_line(
    out: &mut Vec<u8>,
    depth: usize,
    word: &[u8],
    claim: &Expr,
) -> Result<(), AllocError>
    ensures { OnOk result (out.new.items ≡ out.old.items ++ line depth (word.now ++ expression_text (view.expression claim.now) ++ codes ";")) }
{
    indentation(out, depth)?;
    append(out, word)?;
    expression(out, claim)?;
    append(out, b";\n")
}

/// `havoc` or `goto`, given with a space behind it.
pub(super) fn names_line(
    out: &mut Vec<u8>,
    depth: usize,
    word: &[u8],
    listed: &[Name],
) -> Result<(), AllocError>
    ensures { OnOk result (out.new.items ≡ out.old.items ++ line depth (word.now ++ names_text listed.now ++ codes ";")) }
{
    indentation(out, depth)?;
    append(out, word)?;
    names(out, listed)?;
    append(out, b";\n")
}

/// An assignment of a value to each target.
pub(super) fn assignment(
    out: &mut Vec<u8>,
    depth: usize,
    targets: &[Name],
    values: &[Expr],
) -> Result<(), AllocError>
    ensures { OnOk result (out.new.items ≡ out.old.items ++ line depth (names_text targets.now ++ codes " := " ++ expressions_text (map view.expression values.now) ++ codes ";")) }
{
    indentation(out, depth)?;
    names(out, targets)?;
    append(out, b" := ")?;
    expressions(out, values)?;
    append(out, b";\n")
}

/// A call with its targets and arguments.
pub(super) fn call(
    out: &mut Vec<u8>,
    depth: usize,
    targets: &[Name],
    callee: &Name,
    arguments: &[Expr],
) -> Result<(), AllocError>
    ensures { OnOk result (out.new.items ≡ out.old.items ++ line depth (codes "call " ++ targets_text targets.now ++ callee.now.text ++ codes "(" ++ expressions_text (map view.expression arguments.now) ++ codes ");")) }
{
    indentation(out, depth)?;
    append(out, b"call ")?;
    self::targets(out, targets)?;
    append(out, callee.text.bytes())?;
    append(out, b"(")?;
    expressions(out, arguments)?;
    append(out, b");\n")
}

/// What stands before the procedure of a call.
pub fn targets(out: &mut Vec<u8>, targets: &[Name]) -> Result<(), AllocError>
    ensures { OnOk result (out.new.items ≡ out.old.items ++ targets_text targets.now) }
{
    if targets.is_empty() {
        return Ok(());
    }
    names(out, targets)?;
    append(out, b" := ")
}

/// What decides a branch or a loop.
pub fn guard(out: &mut Vec<u8>, guard: &Guard) -> Result<(), AllocError>
    ensures { OnOk result (out.new.items ≡ out.old.items ++ guard_text (view.guard guard.now)) }
{
    match guard {
        Guard::Any => append(out, b"*"),
        Guard::Cond(condition) => expression(out, condition),
    }
}

/// A line that opens `if` or `while`, given with the parenthesis, up to the given end.
pub(super) fn guard_line(
    out: &mut Vec<u8>,
    depth: usize,
    word: &[u8],
    guard: &Guard,
    end: &[u8],
) -> Result<(), AllocError>
    ensures { OnOk result (out.new.items ≡ out.old.items ++ line depth (word.now ++ guard_text (view.guard guard.now) ++ end.now)) }
{
    indentation(out, depth)?;
    append(out, word)?;
    self::guard(out, guard)?;
    append(out, end)?;
    append(out, b"\n")
}

/// A condition of a loop or a specification.
pub(super) fn condition(
    out: &mut Vec<u8>,
    depth: usize,
    word: &[u8],
    condition: &Inv,
) -> Result<(), AllocError>
    ensures { OnOk result (out.new.items ≡ out.old.items ++ condition_line depth word.now (view.invariant condition.now)) }
{
    indentation(out, depth)?;
    append(out, if condition.free { b"free " } else { b"" })?;
    append(out, word)?;
    append(out, b" ")?;
    expression(out, &condition.cond)?;
    append(out, b";\n")
}

/// A `break`, with its label if it has one.
pub fn leaving(out: &mut Vec<u8>, label: &Option<Name>) -> Result<(), AllocError>
    ensures { OnOk result (out.new.items ≡ out.old.items ++ break_text label.now) }
{
    append(out, b"break")?;
    if let Some(label) = label {
        append(out, b" ")?;
        append(out, label.text.bytes())?;
    }
    append(out, b";")
}

/// The line of a `break`.
pub(super) fn leaving_line(
    out: &mut Vec<u8>,
    depth: usize,
    label: &Option<Name>,
) -> Result<(), AllocError>
    ensures { OnOk result (out.new.items ≡ out.old.items ++ line depth (break_text label.now)) }
{
    indentation(out, depth)?;
    leaving(out, label)?;
    append(out, b"\n")
}

/// A label on a line of its own.
pub(super) fn label(out: &mut Vec<u8>, depth: usize, label: &Name) -> Result<(), AllocError>
    ensures { OnOk result (out.new.items ≡ out.old.items ++ line depth (label.now.text ++ codes ":")) }
{
    indentation(out, depth)?;
    append(out, label.text.bytes())?;
    append(out, b":\n")
}

/// A declaration of a name, given with what stands before it.
pub(super) fn variable_line(
    out: &mut Vec<u8>,
    depth: usize,
    word: &[u8],
    declared: &Vary,
) -> Result<(), AllocError>
    ensures { OnOk result (out.new.items ≡ out.old.items ++ line depth (word.now ++ variable_text declared.now ++ codes ";")) }
{
    indentation(out, depth)?;
    append(out, word)?;
    variable(out, declared)?;
    append(out, b";\n")
}
