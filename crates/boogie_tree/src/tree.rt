use crate::span::Span;
use crate::text::Text;
use std::alloc::AllocError;

/// The type of a value.
#[derive(Clone, Copy, Debug, PartialEq, Eq)]
pub enum Ty {
    Int,
    Bool,
}

/// An operator between two operands.
#[derive(Clone, Copy, Debug, PartialEq, Eq)]
pub enum Op {
    /// `<==>`
    Iff,
    /// `==>`
    Implies,
    /// `&&`
    And,
    /// `||`
    Or,
    /// `==`
    Eq,
    /// `!=`
    Ne,
    /// `<`
    Lt,
    /// `<=`
    Le,
    /// `>`
    Gt,
    /// `>=`
    Ge,
    /// `+`
    Add,
    /// `-`
    Sub,
    /// `*`
    Mul,
    /// `div`
    Div,
    /// `mod`
    Mod,
}

/// A name where it stands.
#[derive(Drop)]
pub struct Name {
    pub span: Span,
    pub text: Text,
}

/// An expression where it stands.
#[cycle(expr)]
#[derive(Drop)]
pub struct Expr {
    pub span: Span,
    pub kind: ExprKind,
}

/// What an expression is.
#[cycle(expr)]
#[derive(Drop)]
pub enum ExprKind {
    Lit(i128),
    Truth(bool),
    Var(Name),
    /// The value at the procedure's entry.
    Old(Box<Expr>),
    Not(Box<Expr>),
    Neg(Box<Expr>),
    Bin(Op, Box<Expr>, Box<Expr>),
}

/// What decides a branch or a loop.
#[derive(Drop)]
pub enum Guard {
    /// `*`: either way.
    Any,
    Cond(Expr),
}

/// A statement.
#[derive(Drop)]
pub enum Stmt {
    Assert(Span, Expr),
    Assume(Span, Expr),
    Havoc(Span, Vec<Name>),
    /// The targets, and a value for each.
    Assign(Span, Vec<Name>, Vec<Expr>),
    /// The targets, the procedure, and its arguments.
    Call(Span, Vec<Name>, Name, Vec<Expr>),
    /// The guard, the statements where it holds, and those where it does not.
    If(Span, Guard, Vec<Stmt>, Vec<Stmt>),
    While(Span, Guard, Vec<Inv>, Vec<Stmt>),
    /// Leaves the innermost loop, or the one with the label.
    Break(Span, Option<Name>),
    Goto(Span, Vec<Name>),
    Return(Span),
    Label(Name),
}

/// A condition of a specification or an invariant. A free one is assumed and never checked.
#[derive(Drop)]
pub struct Inv {
    pub span: Span,
    pub free: bool,
    pub cond: Expr,
}

/// What a procedure says of itself.
#[derive(Drop)]
pub enum Spec {
    Requires(Inv),
    Ensures(Inv),
    Modifies(Vec<Name>),
}

/// A variable, a constant, a parameter or a result with its type.
#[derive(Drop)]
pub struct Vary {
    pub name: Name,
    pub ty: Ty,
}

/// The body of a procedure.
#[derive(Drop)]
pub struct Body {
    pub locals: Vec<Vary>,
    pub stmts: Vec<Stmt>,
}

/// A procedure, or the implementation of one.
#[derive(Drop)]
pub struct Proc {
    pub span: Span,
    pub name: Name,
    pub params: Vec<Vary>,
    pub results: Vec<Vary>,
    pub specs: Vec<Spec>,
    pub body: Option<Body>,
}

/// A declaration.
#[derive(Drop)]
pub enum Decl {
    Const(Vary),
    Global(Vary),
    Axiom(Span, Expr),
    Procedure(Proc),
    Implementation(Proc),
}

/// A program.
#[derive(Drop)]
pub struct Program {
    pub decls: Vec<Decl>,
}

/// A variable of a typed program, by its number in its set.
#[derive(Clone, Copy, Debug, PartialEq, Eq, Hash)]
pub enum Column {
    /// A constant or global, in order of declaration.
    Global(u32),
    /// What that global had at the procedure's entry.
    Old(u32),
    /// A parameter, result or local of the procedure.
    Local(u32),
}

/// The first global. Lists that keep a few columns in place fill free places with it.
impl Default for Column {
    ghost use Rattle.std.specs.Prelude.{◌≡◌};
    ghost use Rattle.boogie_tree.specs.declared.tree.Column.TheVariants.{Global};

    ghost is_default = { λ c. c ≡ Global 0 };

    fn default() -> Column {
        Column::Global(0)
    }
}

/// What is known of a variable of a typed program.
#[derive(Drop)]
pub struct VarInfo {
    pub name: Text,
    pub ty: Ty,
    /// True exactly for constants and parameters.
    pub constant: bool,
}

impl VarInfo {
    ghost use Rattle.std.specs.Prelude.{◌≡◌, IfOk};

    /// An equal one.
    pub fn copy(&self) -> Result<Self, AllocError>
        ensures { IfOk result (λ copied. copied ≡ self.now) }
    {
        Ok(VarInfo {
            name: self.name.copy()?,
            ty: self.ty,
            constant: self.constant,
        })
    }
}
