//! The numbers of labels, which count up in text order.

ghost use Rattle.std.specs.Prelude.{◌≡◌, ◌∷◌, []};
ghost use Rattle.typed_tree.specs.TypedView as view;
ghost use Rattle.typed_tree.specs.TypingRules.Ties.LabelOrder.{counted_to};
ghost use Rattle.typed_tree.specs.TypingRules.Shape as shape;

use crate::TStmt;

/// The number after the label, where it has the next number.
fn label(next: u64, found: u32) -> Option<u64>
    ensures { result ≡ counted_to next (found ∷ []) }
{
    if next == u64::from(found) {
        Some(next + 1)
    } else {
        None
    }
}

/// The number after the labels of a statement, where they count up. It recurses as deep as statements are nested, as dropping one does.
#[cycle(labels)]
fn statement_labels(next: u64, counted: &TStmt) -> Option<u64>
    ensures { result ≡ counted_to next (shape.statement_labels (view.statement counted.now)) }
{
    match counted {
        TStmt::If(_, _, then, otherwise) => {
            let next = block_labels(next, then)?;
            block_labels(next, otherwise)
        }
        TStmt::While(_, _, _, body) => block_labels(next, body),
        TStmt::Label(found) => label(next, *found),
        TStmt::Assert(_, _) | TStmt::Assume(_, _) | TStmt::Havoc(_, _) => Some(next),
        TStmt::Assign(_, _, _) | TStmt::Call(_, _, _, _) | TStmt::Break(_, _) => Some(next),
        TStmt::Goto(_, _) | TStmt::Return(_) => Some(next),
    }
}

/// The number after the labels of a list, where they count up.
#[cycle(labels)]
pub(crate) fn block_labels(next: u64, listed: &[TStmt]) -> Option<u64>
    ensures { result ≡ counted_to next (shape.block_labels (view.statements listed.now)) }
{
    let mut reached = next;
    for counted in listed {
        reached = statement_labels(reached, counted)?;
    }
    Some(reached)
}
