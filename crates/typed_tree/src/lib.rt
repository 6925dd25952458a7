//! Boogie programs with their names replaced by numbers: their trees, the values and affine forms of expressions, and the typing rules.
#![tactic(auto)]

mod columns;
pub mod copying;
mod fault;
mod form;
mod forms;
pub mod laws;
mod merging;
mod numbers;
mod operations;
mod scope;
pub mod signatures;
mod types;
mod typing;
pub mod typing_rules;

pub use boogie_tree::{Column, Op, Span, Text, Ty, VarInfo};
pub use fault::{AffineFault, TypeFault};
pub use forms::{affine, has_constant_form};
pub use scope::Scope;
pub use types::{Affine, TExpr, TExprKind, TGuard, TInv, TProc, TSpec, TStmt};
pub use typing::expression_type;
