//! Statements copied with the procedures that they call renumbered.

ghost use Rattle.std.specs.Prelude.{◌≡◌, IfOk};
ghost use Rattle.typed_tree.specs.TypedView as view;
ghost use Rattle.modular_cut.specs.Parts.{called_in, recalled, recalled_block};

use std::alloc::AllocError;
use typed_tree::TStmt;
use typed_tree::copying::{call, conditional, looped};

/// How calls are renumbered in a part: those of its own procedure go to the copy.
#[derive(Clone, Copy)]
pub(crate) struct Calls {
    pub own: u32,
    pub copy: u32,
}

impl Calls {
    /// The number that calls of that procedure have.
    fn number(&self, callee: u32) -> u32
        ensures { result ≡ called_in self.now.copy self.now.own callee }
    {
        if callee == self.own {
            self.copy
        } else {
            callee
        }
    }
}

/// The statement with its calls renumbered. It recurses as deep as statements are nested, as dropping one does.
#[cycle(recalled)]
fn statement(calls: &Calls, said: &TStmt) -> Result<TStmt, AllocError>
    ensures { IfOk result (λ copied. view.statement copied ≡ recalled (called_in calls.now.copy calls.now.own) (view.statement said.now)) }
{
    match said {
        TStmt::Call(span, targets, callee, arguments) => {
            call(*span, targets, calls.number(*callee), arguments)
        }
        TStmt::If(span, guard, then, otherwise) => {
            let then = statements(calls, then)?;
            let otherwise = statements(calls, otherwise)?;
            conditional(*span, guard, then, otherwise)
        }
        TStmt::While(span, guard, claims, body) => {
            let body = statements(calls, body)?;
            looped(*span, guard, claims, body)
        }
        TStmt::Assert(..) => said.copy(),
        TStmt::Assume(..) => said.copy(),
        TStmt::Havoc(..) => said.copy(),
        TStmt::Assign(..) => said.copy(),
        TStmt::Break(..) => said.copy(),
        TStmt::Goto(..) => said.copy(),
        TStmt::Return(_) => said.copy(),
        TStmt::Label(_) => said.copy(),
    }
}

/// The statements with their calls renumbered, in order.
#[cycle(recalled)]
pub(crate) fn statements(calls: &Calls, parts: &Vec<TStmt>) -> Result<Vec<TStmt>, AllocError>
    ensures { IfOk result (λ copied. view.statements copied.items ≡ recalled_block (called_in calls.now.copy calls.now.own) (view.statements parts.now.items)) }
{
    let mut copied = Vec::with_capacity(*parts.allocator(), parts.len())?;
    for part in parts {
        copied.push(statement(calls, part)?)?;
    }
    Ok(copied)
}
