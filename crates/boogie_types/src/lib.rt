//! Resolves the names of Boogie programs, and tests the typing rules.
#![tactic(auto)]

mod bodies;
mod calls;
mod declarations;
mod declared;
mod expressions;
mod hidden;
mod implementations;
mod label_names;
mod listed;
mod lists;
mod modifies;
mod names;
mod numbered;
mod places;
mod procedures;
mod resolving;
mod sorted;
mod specifications;
mod statements;
mod variables;

pub use resolving::resolve;
pub use typed_tree::typing_rules::{Typed, typed};
pub use typed_tree::{
    Affine, AffineFault, Column, Op, Scope, Span, TExpr, TExprKind, TGuard, TInv, TProc, TSpec,
    TStmt, Text, Ty, TypeFault, VarInfo, affine,
};
