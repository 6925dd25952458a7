//! Boogie programs as trees, and their canonical text.
#![tactic(auto)]

pub mod laws;
mod level;
pub mod names;
pub mod printing;
mod span;
mod text;
mod tree;

pub use level::Level;
pub use printing::print;
pub use span::Span;
pub use text::Text;
pub use tree::{
    Body, Column, Decl, Expr, ExprKind, Guard, Inv, Name, Op, Proc, Program, Spec, Stmt, Ty,
    VarInfo, Vary,
};
