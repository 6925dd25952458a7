//! What cannot be lowered.

ghost use Rattle.std.specs.Prelude.{◌≡◌, ◌||◌, IfOk};
ghost use Rattle.std.specs.Option.{option_map};
ghost use Rattle.lowered_graph.specs.Items as items;
ghost use Rattle.icfg_lower.specs.PlaceEdges.Ties.Answered.{IsTold};
ghost use Rattle.icfg_lower.specs.PlaceEdges.Faults.{fault_of, plain_fault, plain_faults};

use boogie_tree::Span;
use cond_jumps::JumpFault;
use std::alloc::AllocError;

/// What is wrong with the lists of an item: one has too many members, or a number that does not fit.
#[derive(Clone, Copy)]
pub struct Trouble {
    pub wide: bool,
    pub big: bool,
}

/// Nothing is wrong.
pub const NO_TROUBLE: Trouble = Trouble {
    wide: false,
    big: false,
};

/// What is wrong with either of two lists.
pub fn either(first: Trouble, second: Trouble) -> Trouble
    ensures wide { result.wide ≡ (first.wide || second.wide) }
    ensures big { result.big ≡ (first.big || second.big) }
{
    Trouble {
        wide: first.wide || second.wide,
        big: first.big || second.big,
    }
}

/// What is wrong with a list that was not made, where memory is found.
pub(crate) fn told(fault: JumpFault) -> Result<Trouble, AllocError>
    ensures { IfOk result (IsTold fault) }
{
    match fault {
        JumpFault::TooWide => Ok(Trouble {
            wide: true,
            big: false,
        }),
        JumpFault::TooBig => Ok(Trouble {
            wide: false,
            big: true,
        }),
        JumpFault::Memory => Err(AllocError),
    }
}

/// The fault of an item.
#[derive(Clone, Copy)]
pub enum ItemFault {
    TooWide(Span),
    TooBig(Span),
}

/// The fault of an item with this trouble, which stands there.
pub(crate) fn fault_of(span: Span, trouble: Trouble) -> Option<ItemFault>
    ensures { plain_faults result ≡ fault_of span trouble.wide trouble.big }
{
    if trouble.wide {
        Some(ItemFault::TooWide(span))
    } else if trouble.big {
        Some(ItemFault::TooBig(span))
    } else {
        None
    }
}

fn span_of(fault: ItemFault) -> Span
    ensures { result ≡ items.fault_span (plain_fault fault) }
{
    match fault {
        ItemFault::TooWide(span) | ItemFault::TooBig(span) => span,
    }
}

/// Of two faults the one that stands first in the text, and of two at one place the first one.
pub(crate) fn earlier(first: Option<ItemFault>, second: Option<ItemFault>) -> Option<ItemFault>
    ensures { plain_faults result ≡ items.earlier (plain_faults first) (plain_faults second) }
{
    match (first, second) {
        (None, fault) => fault,
        (Some(fault), None) => Some(fault),
        (Some(a), Some(b)) => {
            if span_of(b).stands_before(span_of(a)) {
                Some(b)
            } else {
                Some(a)
            }
        }
    }
}
