ghost use Rattle.std.specs.Prelude.{◌≡◌, length};
ghost use Rattle.boogie_run.specs.BoogiePoints.Actions as spec;
ghost use Rattle.boogie_run.specs.BoogiePoints.Ties.AtStatement.{way_count};
ghost use Rattle.boogie_run.specs.BoogiePoints.Told.{told, ways_of};
ghost use Rattle.boogie_run.specs.BoogiePoints.View.{action_view};

use boogie_tree::{Column, Span};
use typed_tree::TExpr;

/// What happens at a point, with what it reads.
#[derive(Clone, Copy)]
pub enum Action<'a> {
    /// The condition is asserted, under this number, at this place of the text.
    Check {
        number: u32,
        span: Span,
        cond: &'a TExpr,
    },
    /// The condition is assumed.
    Suppose {
        cond: &'a TExpr,
    },
    /// A requires of a called procedure is asserted, over these arguments.
    Demand {
        number: u32,
        span: Span,
        cond: &'a TExpr,
        args: &'a [TExpr],
    },
    /// The columns get the values.
    Write {
        targets: &'a [Column],
        values: &'a [TExpr],
    },
    /// The column gets a chosen value.
    Guess {
        column: Column,
    },
    /// Way 0 where the condition is true, way 1 where it is false.
    Test {
        cond: &'a TExpr,
    },
    /// One of so many ways, as chosen.
    Pick {
        ways: usize,
    },
    /// On to another point.
    Jump,
    /// A procedure with a body is entered.
    Enter {
        callee: u32,
        args: &'a [TExpr],
    },
    /// Of a call without body: a value for the column, of a global or a local of the callee, is chosen and kept.
    Keep {
        callee: u32,
        args: &'a [TExpr],
        column: Column,
    },
    /// Of a call without body: an ensures is assumed, over the arguments and what was chosen.
    Grant {
        callee: u32,
        args: &'a [TExpr],
        cond: &'a TExpr,
    },
    /// Of a call without body: what was chosen is written.
    Finish {
        callee: u32,
        args: &'a [TExpr],
        targets: &'a [Column],
    },
    /// The procedure returns.
    Leave,
}

/// How many ways an action has, as a number of its own.
fn count(action: &Action<'_>) -> usize
    ensures { result ≡ way_count (action_view action.now) }
{
    match action {
        Action::Test { .. } => 2,
        Action::Pick { ways } => *ways,
        Action::Enter { .. } | Action::Leave => 0,
        _ => 1,
    }
}

impl Action<'_> {
    /// In how many ways it goes on in its own frame.
    pub fn ways(&self) -> usize
        ensures { (a : spec.Action) → action_view self.now ≡ told a → length (ways_of a) ≡ result }
    {
        count(self)
    }
}
