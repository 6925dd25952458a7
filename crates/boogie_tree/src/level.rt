ghost use Rattle.std.specs.Prelude.{◌≡◌};
ghost use Rattle.boogie_tree.specs.Levels.{rank, may_stand, level_of_operator, left_of, right_of, level_of_literal, level_of};
ghost use Rattle.boogie_tree.specs.View.{expression};

use crate::tree::{Expr, ExprKind, Op};

/// How strongly an expression binds, from the weakest on. An operand that binds less than its place asks stands in parentheses.
#[derive(Clone, Copy, Debug, PartialEq, Eq)]
pub enum Level {
    /// `<==>` and all that binds more.
    Equivalence,
    /// `==>` and all that binds more.
    Implication,
    /// Either `&&` or `||`, and all that binds more.
    Junction,
    /// `&&` and all that binds more than `||`.
    Conjunction,
    /// `||` and all that binds more than `&&`.
    Disjunction,
    /// Comparisons and all that binds more.
    Comparison,
    /// `+`, `-` and all that binds more.
    Sum,
    /// `*`, `div`, `mod` and all that binds more.
    Product,
    /// `!`, unary `-` and all that binds more.
    Unary,
    /// Names, literals, `old` and parentheses.
    Primary,
}

impl Level {
    /// Whether an expression of the level `own` stands without parentheses where this level is asked for.
    pub(crate) fn may_stand(self, own: Level) -> bool
        ensures { result ≡ may_stand self own }
    {
        match (self, own) {
            (Level::Conjunction, Level::Conjunction) => true,
            (Level::Disjunction, Level::Disjunction) => true,
            (Level::Conjunction, _) | (Level::Disjunction, _) => Level::Comparison.rank()
                <= own.rank(),
            (asked, _) => asked.rank() <= own.rank(),
        }
    }

    /// The level that is asked of the operand before an operator of this level.
    pub(crate) fn left(self) -> Level
        ensures { result ≡ left_of self }
    {
        match self {
            Level::Implication => Level::Junction,
            Level::Comparison => Level::Sum,
            level => level,
        }
    }

    /// The level that is asked of the operand behind an operator of this level.
    pub(crate) fn right(self) -> Level
        ensures { result ≡ right_of self }
    {
        match self {
            Level::Equivalence | Level::Implication => Level::Implication,
            Level::Junction | Level::Conjunction | Level::Disjunction => Level::Comparison,
            Level::Comparison => Level::Sum,
            Level::Sum => Level::Product,
            Level::Product => Level::Unary,
            Level::Unary | Level::Primary => Level::Primary,
        }
    }

    fn rank(self) -> u8
        ensures { result ≡ rank self }
    {
        match self {
            Level::Equivalence => 0,
            Level::Implication => 1,
            Level::Junction | Level::Conjunction | Level::Disjunction => 2,
            Level::Comparison => 3,
            Level::Sum => 4,
            Level::Product => 5,
            Level::Unary => 6,
            Level::Primary => 7,
        }
    }
}

impl Op {
    /// The level of an operation.
    pub(crate) fn level(self) -> Level
        ensures { result ≡ level_of_operator self }
    {
        match self {
            Op::Iff => Level::Equivalence,
            Op::Implies => Level::Implication,
            Op::And => Level::Conjunction,
            Op::Or => Level::Disjunction,
            Op::Eq | Op::Ne | Op::Lt | Op::Le | Op::Gt | Op::Ge => Level::Comparison,
            Op::Add | Op::Sub => Level::Sum,
            Op::Mul | Op::Div | Op::Mod => Level::Product,
        }
    }
}

impl Expr {
    /// The level of the expression.
    pub(crate) fn level(&self) -> Level
        ensures { result ≡ level_of (expression self.now) }
    {
        match &self.kind {
            ExprKind::Lit(n) => level_of_literal(*n),
            ExprKind::Truth(_) | ExprKind::Var(_) | ExprKind::Old(_) => Level::Primary,
            ExprKind::Not(_) | ExprKind::Neg(_) => Level::Unary,
            ExprKind::Bin(op, _, _) => op.level(),
        }
    }
}

/// A literal below 0 begins with a `-`.
fn level_of_literal(n: i128) -> Level
    ensures { result ≡ level_of_literal n }
{
    if n < 0 { Level::Unary } else { Level::Primary }
}
