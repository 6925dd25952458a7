use boogie_tree::{Column, Op, Span, Text, VarInfo};
use smallvec::SmallVec;

/// An expression with its names resolved.
#[cycle(expr)]
#[derive(Drop)]
pub struct TExpr {
    pub span: Span,
    pub kind: TExprKind,
}

/// What an expression is.
#[cycle(expr)]
#[derive(Drop)]
pub enum TExprKind {
    Lit(i128),
    Truth(bool),
    Var(Column),
    /// The value at the procedure's entry.
    Old(Box<TExpr>),
    Not(Box<TExpr>),
    Neg(Box<TExpr>),
    Bin(Op, Box<TExpr>, Box<TExpr>),
}

/// What decides a branch or a loop.
#[derive(Drop)]
pub enum TGuard {
    /// `*`: either way.
    Any,
    Cond(TExpr),
}

/// A condition of a specification or an invariant. A free one is assumed and never checked.
#[derive(Drop)]
pub struct TInv {
    pub span: Span,
    pub free: bool,
    pub cond: TExpr,
}

/// What a procedure says of itself, its modifies lists left out.
#[derive(Drop)]
pub enum TSpec {
    Requires(TInv),
    Ensures(TInv),
}

/// A statement with its names resolved.
#[derive(Drop)]
pub enum TStmt {
    Assert(Span, TExpr),
    Assume(Span, TExpr),
    Havoc(Span, Vec<Column>),
    /// The targets, and a value for each.
    Assign(Span, Vec<Column>, Vec<TExpr>),
    /// The targets, the procedure's number, and its arguments.
    Call(Span, Vec<Column>, u32, Vec<TExpr>),
    /// The guard, the statements where it holds, and those where it does not.
    If(Span, TGuard, Vec<TStmt>, Vec<TStmt>),
    While(Span, TGuard, Vec<TInv>, Vec<TStmt>),
    /// Leaves the innermost loop, and as many more as the number says.
    Break(Span, u32),
    /// The numbers of labels, which count from 0 in text order.
    Goto(Span, Vec<u32>),
    Return(Span),
    Label(u32),
}

/// A procedure with its names resolved.
#[derive(Drop)]
pub struct TProc {
    pub name: Text,
    /// How many parameters it has.
    pub params: u32,
    /// How many results it has.
    pub results: u32,
    /// The parameters, the results, the declared locals, and the hidden ones.
    pub locals: Vec<VarInfo>,
    /// The globals that it may write, each once, in order of first mention.
    pub modifies: Vec<u32>,
    /// The other specifications, in text order.
    pub specs: Vec<TSpec>,
    pub body: Option<Vec<TStmt>>,
}

/// A whole-number expression as a sum: columns with a coefficient each, and a constant.
#[derive(Drop)]
pub struct Affine {
    pub terms: SmallVec<(Column, i128), 4>,
    pub constant: i128,
}
