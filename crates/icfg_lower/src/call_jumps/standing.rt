ghost use Rattle.std.specs.Prelude.{◌≡◌, IfOk};
ghost use Rattle.icfg_lower.specs.CallJumps.Ties.Stands as stands;

use boogie_tree::{Column, Span, Ty};
use std::alloc::AllocError;
use typed_tree::{TExpr, TExprKind};

/// What stands for a column: an expression over numbered columns, and the type that the column has.
#[derive(Drop)]
pub struct Standing {
    pub expr: TExpr,
    pub ty: Option<Ty>,
}

impl Standing {
    /// What stands where nothing does: 0, which is no truth value.
    pub fn nothing() -> Self
        ensures { stands.stand_of result ≡ stands.nothing }
    {
        Standing {
            expr: TExpr {
                span: Span { line: 0, col: 0 },
                kind: TExprKind::Lit(0),
            },
            ty: None,
        }
    }

    /// The column with a number.
    pub fn numbered(number: u32, ty: Ty) -> Self
        ensures { stands.stand_of result ≡ stands.numbered number ty }
    {
        Standing {
            expr: TExpr {
                span: Span { line: 0, col: 0 },
                kind: TExprKind::Var(Column::Local(number)),
            },
            ty: Some(ty),
        }
    }

    /// An equal one.
    pub fn copy(&self) -> Result<Self, AllocError>
        ensures { IfOk result (λ s. stands.stand_of s ≡ stands.stand_of self.now) }
    {
        Ok(Standing {
            expr: self.expr.copy()?,
            ty: self.ty,
        })
    }
}
