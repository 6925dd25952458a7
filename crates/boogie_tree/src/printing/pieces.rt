ghost use Rattle.std.specs.Prelude.{◌≡◌, ◌++◌, OnOk};
ghost use Rattle.std.specs.Fmt.{signed_decimal};
ghost use Rattle.boogie_tree.specs.Printing.{operator_text, truth_text, variable_text};

use crate::tree::{Op, Ty, Vary};
use std::alloc::AllocError;

/// Puts the bytes behind the text.
pub fn append(out: &mut Vec<u8>, bytes: &[u8]) -> Result<(), AllocError>
    ensures { OnOk result (out.new.items ≡ out.old.items ++ bytes.now) }
{
    out.extend_from_slice(bytes)
}

/// Puts the number behind the text, in decimal.
pub fn literal(out: &mut Vec<u8>, n: i128) -> Result<(), AllocError>
    ensures { OnOk result (out.new.items ≡ out.old.items ++ signed_decimal n) }
{
    let digits = n.to_string(*out.allocator())?;
    append(out, digits.as_bytes())
}

/// Puts `true` or `false` behind the text.
pub fn truth(out: &mut Vec<u8>, truth: bool) -> Result<(), AllocError>
    ensures { OnOk result (out.new.items ≡ out.old.items ++ truth_text truth) }
{
    append(out, if truth { b"true" } else { b"false" })
}

/// The operator with a space on each side.
fn spaced_operator(op: Op) -> &'static [u8]
    ensures { result.now ≡ operator_text op }
{
    match op {
        Op::Iff => b" <==> ",
        Op::Implies => b" ==> ",
        Op::And => b" && ",
        Op::Or => b" || ",
        Op::Eq => b" == ",
        Op::Ne => b" != ",
        Op::Lt => b" < ",
        Op::Le => b" <= ",
        Op::Gt => b" > ",
        Op::Ge => b" >= ",
        Op::Add => b" + ",
        Op::Sub => b" - ",
        Op::Mul => b" * ",
        Op::Div => b" div ",
        Op::Mod => b" mod ",
    }
}

/// Puts the operator with a space on each side behind the text.
pub(super) fn operator(out: &mut Vec<u8>, op: Op) -> Result<(), AllocError>
    ensures { OnOk result (out.new.items ≡ out.old.items ++ operator_text op) }
{
    append(out, spaced_operator(op))
}

/// Puts a name with its type behind the text.
pub fn variable(out: &mut Vec<u8>, variable: &Vary) -> Result<(), AllocError>
    ensures { OnOk result (out.new.items ≡ out.old.items ++ variable_text variable.now) }
{
    append(out, variable.name.text.bytes())?;
    append(out, b": ")?;
    match variable.ty {
        Ty::Int => append(out, b"int"),
        Ty::Bool => append(out, b"bool"),
    }
}
