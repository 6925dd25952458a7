//! Labels, and whether only they are left of a block.

ghost use Rattle.std.specs.Prelude.{◌≡◌, map};
ghost use Rattle.std.specs.List.{list_all};
ghost use Rattle.typed_tree.specs.TypedView as view;
ghost use Rattle.boogie_run.specs.BoogiePoints.Stacks.{is_label};

use typed_tree::TStmt;

/// Whether a statement is a label.
pub(crate) fn is_label(statement: &TStmt) -> bool
    ensures { result ≡ is_label (view.statement statement.now) }
{
    match statement {
        TStmt::Label(_) => true,
        TStmt::Assert(_, _) | TStmt::Assume(_, _) | TStmt::Havoc(_, _) => false,
        TStmt::Assign(_, _, _) | TStmt::Call(_, _, _, _) | TStmt::If(_, _, _, _) => false,
        TStmt::While(_, _, _, _) | TStmt::Break(_, _) | TStmt::Goto(_, _) | TStmt::Return(_) =>
            false,
    }
}

/// Whether only labels are left of a block.
pub fn has_ended(rest: &[TStmt]) -> bool
    ensures { result ≡ list_all is_label (map view.statement rest.now) }
{
    for left in rest {
        if !is_label(left) {
            return false;
        }
    }
    true
}
