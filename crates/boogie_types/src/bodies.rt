//! Bodies with their names replaced.

ghost use Rattle.std.specs.Prelude.{◌≡◌, None, Some, IfOk, IfErr};
ghost use Rattle.std.specs.Option.{option_map};
ghost use Rattle.boogie_tree.specs.View as view;
ghost use Rattle.typed_tree.specs.TypedView as typed;
ghost use Rattle.boogie_types.specs.Naming.{named_block, hidden_in_block};
ghost use Rattle.boogie_types.specs.Ties.NamingFaults.{IsBlockFault};
ghost use Rattle.boogie_types.specs.Ties.PlaceViews.{place_outside};
ghost use Rattle.boogie_types.specs.Ties.Bodies.{body_by, body_at, hidden_at, IsBodyFault};

use crate::places::Placed;
use crate::statements::{Walk, block};
use boogie_tree::{Body, Stmt};
use std::alloc::Global;
use typed_tree::{TStmt, TypeFault};

/// The body of a procedure, if it has one.
#[derive(Drop)]
pub(crate) struct NamedBody {
    pub(crate) stmts: Option<Vec<TStmt>>,
    /// How many hidden locals it needs.
    pub(crate) hidden: u32,
}

/// The statements of a body.
#[derive(Drop)]
struct NamedBlock {
    stmts: Vec<TStmt>,
    hidden: u32,
}

/// The statements of a body with their names replaced.
fn first_block<'a>(
    alloc: Global,
    place: &Placed<'a, '_>,
    statements: &'a [Stmt],
) -> Result<NamedBlock, TypeFault>
    ensures ok { IfOk result (λ b. named_block (place_outside place.now) None 0 (view.statements statements.entry.now) ≡ Some (typed.statements b.stmts.items)) }
    ensures hidden { IfOk result (λ b. b.hidden ≡ hidden_in_block (place_outside place.now) (view.statements statements.entry.now)) }
    ensures fault { IfErr result (λ f. IsBlockFault (place_outside place.now) None (view.statements statements.entry.now) f) }
{
    let mut walk = Walk {
        loops: Vec::new(alloc),
        hidden: 0,
    };
    let stmts = block(alloc, place, &mut walk, statements)?;
    Ok(NamedBlock {
        stmts,
        hidden: walk.hidden,
    })
}

/// A body with its names replaced, if there is one.
pub(crate) fn named_body<'a>(
    alloc: Global,
    place: &Placed<'a, '_>,
    body: Option<&'a Body>,
) -> Result<NamedBody, TypeFault>
    ensures ok { IfOk result (λ n. body_at (place_outside place.now) (body_by body.entry) ≡ Some (option_map (λ b. typed.statements b.items) n.stmts)) }
    ensures hidden { IfOk result (λ n. n.hidden ≡ hidden_at (place_outside place.now) (body_by body.entry)) }
    ensures fault { IfErr result (λ f. IsBodyFault (place_outside place.now) (body_by body.entry) f) }
{
    match body {
        Some(body) => {
            let block = first_block(alloc, place, &body.stmts)?;
            Ok(NamedBody {
                stmts: Some(block.stmts),
                hidden: block.hidden,
            })
        }
        None => Ok(NamedBody {
            stmts: None,
            hidden: 0,
        }),
    }
}
