//! The rows of a call, with which the parameters have the values of the arguments.

ghost use Rattle.std.specs.Prelude.{◌≡◌, ◌+◌, ◌≤◌, true, false, IfOk, IsOk, Err, [], ◌∷◌, length, map};
ghost use Rattle.std.specs.List.{AllByRecursion};
ghost use Rattle.typed_tree.specs.TypedTree.{Lit};
ghost use Rattle.typed_tree.specs.TypedView.{expression};
ghost use Rattle.typed_tree.specs.AffineForm.{forms_fit};
ghost use Rattle.typed_tree.specs.Scope.{is_constant_column};
ghost use Rattle.cond_jumps.specs.Conjunctions.{joined, is_wide, all_fit, listed_plan, list_fits};
ghost use Rattle.cond_jumps.specs.Comparisons.{compared, equal};
ghost use Rattle.cond_jumps.specs.Conjs.{conjunction};
ghost use Rattle.cond_jumps.specs.Forms.{column};
ghost use Rattle.cond_jumps.specs.Frames.{frame_environment, fixed_in};
ghost use Rattle.cond_jumps.specs.FreeProducts.FrameLetters.{all_product_count, widened};
ghost use Rattle.cond_jumps.specs.FreeProducts.FreeProducts.{all_freed};
ghost use Rattle.cond_jumps.specs.FreeProducts.LetterView.{marked};
ghost use Rattle.lowered_graph.specs.LoweredSteps.Edges.{argument_sum, parameters_get};
ghost use Rattle.icfg_lower.specs.CallJumps.Ties.Arguments.{whole};
ghost use Rattle.icfg_lower.specs.CallJumps.CallLists.{parameters_plan, parameters_base, parameters_letters};

use crate::call_jumps::rebuilding::binary;
use crate::call_jumps::written::column_behind;
use boogie_tree::{Op, Span, VarInfo};
use cond_jumps::free_products::{MarkedConj, all_count, all_freed, letter, widened};
use cond_jumps::{Conj, JumpFault, equal_to};
use letter_acts::Frame;
use std::alloc::{AllocError, Global};
use typed_tree::{TExpr, TExprKind};

/// An argument as a whole number: a truth value is 0 or 1, and `!e` is 1 less e.
fn whole(alloc: Global, arg: &TExpr) -> Result<TExpr, AllocError>
    ensures { IfOk result (λ e. expression e ≡ whole (expression arg.now)) }
{
    match &arg.kind {
        TExprKind::Truth(value) => Ok(number(arg.span, if *value { 1 } else { 0 })),
        TExprKind::Not(inner) => {
            let one = number(arg.span, 1);
            binary(alloc, arg.span, Op::Sub, one, whole(alloc, inner)?)
        }
        _ => arg.copy(),
    }
}

/// A literal.
fn number(span: Span, n: i128) -> TExpr
    ensures { expression result ≡ Lit span n }
{
    TExpr {
        span,
        kind: TExprKind::Lit(n),
    }
}

/// The rows with which a column has the value of an argument.
fn argument(
    alloc: Global,
    frame: &Frame,
    arg: &TExpr,
    number: u32,
    base: u32,
) -> Result<Conj, JumpFault>
    ensures list { IfOk result (λ c. conjunction c ∷ [] ≡ compared equal (column number) (argument_sum (frame_environment frame.now.columns.items) (expression arg.now)) base) }
    ensures fits { IsOk result → list_fits (compared equal (column number) (argument_sum (frame_environment frame.now.columns.items) (expression arg.now)) base) ≡ true }
    ensures too_wide { result ≡ Err JumpFault.TooWide → ⊥ }
    ensures too_big { result ≡ Err JumpFault.TooBig →
        list_fits (compared equal (column number) (argument_sum (frame_environment frame.now.columns.items) (expression arg.now)) base) ≡ false }
{
    let value = whole(alloc, arg)?;
    equal_to(alloc, frame, number, &value, base)
}

/// The rows of the first, and behind them those of the second.
fn joined(first: Conj, second: Conj) -> Result<Conj, AllocError>
    ensures { IfOk result (λ c. conjunction c ≡ joined (conjunction first) (conjunction second)) }
{
    let Some(helpers) = first.helpers.checked_add(second.helpers) else {
        return Err(AllocError);
    };
    let mut rows = first.rows;
    let mut more = second.rows;
    rows.append(&mut more)?;
    Ok(Conj { rows, helpers })
}

/// The rows with which the parameters of a called procedure, whose columns are numbered from `first` on, have the values of
/// the arguments, none of which has a free product. Their helpers are numbered from `base` on.
fn arguments(
    alloc: Global,
    frame: &Frame,
    args: &[TExpr],
    first: u32,
    base: u32,
) -> Result<Conj, JumpFault>
    requires frame { length frame.now.columns.items ≤ base }
    requires parameters { first + length args.now ≤ base }
    ensures list { IfOk result (λ c. conjunction c ∷ [] ≡ listed_plan (parameters_get (frame_environment frame.now.columns.items) first (map expression args.now)) base) }
    ensures narrow { IsOk result → is_wide (parameters_get (frame_environment frame.now.columns.items) first (map expression args.now)) base ≡ false }
    ensures fits { IsOk result → all_fit (parameters_get (frame_environment frame.now.columns.items) first (map expression args.now)) base ≡ true }
    ensures too_wide { result ≡ Err JumpFault.TooWide → ⊥ }
    ensures too_big { result ≡ Err JumpFault.TooBig →
        (is_wide (parameters_get (frame_environment frame.now.columns.items) first (map expression args.now)) base ≡ false)
        × (all_fit (parameters_get (frame_environment frame.now.columns.items) first (map expression args.now)) base ≡ false) }
{
    let mut all = Conj {
        rows: Vec::new(alloc),
        helpers: 0,
    };
    for place in 0..args.len() {
        let number = column_behind(first, place)?;
        let next = column_behind(base, all.helpers as usize)?;
        let one = argument(alloc, frame, &args[place], number, next)?;
        all = joined(all, one)?;
    }
    Ok(all)
}

/// The rows with which the parameters of a called procedure have the values of the arguments, of whose `count` products the columns stand behind
/// the caller's frame, and behind them, from number `high` on, the callee's frame.
fn freed_arguments(
    alloc: Global,
    globals: &[VarInfo],
    frame: &Frame,
    locals: u32,
    count: u32,
    high: u32,
    args: &[TExpr],
    before: u32,
    callee: u32,
) -> Result<Conj, JumpFault>
    requires constants { fixed_in frame.now.columns.items ≡ is_constant_column globals.now }
    requires fit_args { AllByRecursion (λ e. forms_fit (is_constant_column globals.now) false e ≡ true) (map expression args.now) }
    requires parameters { before + length args.now ≤ callee }
    requires count { count ≡ all_product_count frame.now.columns.items (map expression args.now) }
    requires high { high ≡ length frame.now.columns.items + all_product_count frame.now.columns.items (map expression args.now) }
    ensures list { IfOk result (λ c. conjunction c ∷ [] ≡ listed_plan (parameters_plan frame.now.columns.items locals before (map expression args.now)) (parameters_base frame.now.columns.items callee (map expression args.now))) }
    ensures narrow { IsOk result → is_wide (parameters_plan frame.now.columns.items locals before (map expression args.now)) (parameters_base frame.now.columns.items callee (map expression args.now)) ≡ false }
    ensures fits { IsOk result → all_fit (parameters_plan frame.now.columns.items locals before (map expression args.now)) (parameters_base frame.now.columns.items callee (map expression args.now)) ≡ true }
    ensures too_wide { result ≡ Err JumpFault.TooWide → ⊥ }
    ensures too_big { result ≡ Err JumpFault.TooBig →
        (is_wide (parameters_plan frame.now.columns.items locals before (map expression args.now)) (parameters_base frame.now.columns.items callee (map expression args.now)) ≡ false)
        × (all_fit (parameters_plan frame.now.columns.items locals before (map expression args.now)) (parameters_base frame.now.columns.items callee (map expression args.now)) ≡ false) }
{
    let first = column_behind(high, before as usize)?;
    let base = column_behind(high, callee as usize)?;
    if count == 0 {
        return arguments(alloc, frame, args, first, base);
    }
    let wide = widened(alloc, frame, locals, count)?;
    let Ok(made) = all_freed(alloc, globals, locals, args) else {
        drop(wide);
        return Err(JumpFault::Memory);
    };
    arguments(alloc, &wide, made.exprs.as_slice(), first, base)
}

/// The letter with which the parameters of a called procedure have the values of the arguments; it is coarse where it leaves a product of them
/// free. It is over the caller's frame, the callee's frame of `callee` columns, of which `before` stand before the parameters, and the helpers.
/// The locals of the caller's frame have numbers below `locals`, and the globals are the program's.
pub fn parameters(
    alloc: Global,
    globals: &[VarInfo],
    frame: &Frame,
    locals: u32,
    args: &[TExpr],
    before: u32,
    callee: u32,
) -> Result<MarkedConj, JumpFault>
    requires constants { fixed_in frame.now.columns.items ≡ is_constant_column globals.now }
    requires fit_args { AllByRecursion (λ e. forms_fit (is_constant_column globals.now) false e ≡ true) (map expression args.now) }
    requires parameters { before + length args.now ≤ callee }
    ensures list { IfOk result (λ l. marked l ∷ [] ≡ parameters_letters frame.now.columns.items locals before callee (map expression args.now)) }
    ensures narrow { IsOk result → is_wide (parameters_plan frame.now.columns.items locals before (map expression args.now)) (parameters_base frame.now.columns.items callee (map expression args.now)) ≡ false }
    ensures fits { IsOk result → all_fit (parameters_plan frame.now.columns.items locals before (map expression args.now)) (parameters_base frame.now.columns.items callee (map expression args.now)) ≡ true }
    ensures too_wide { result ≡ Err JumpFault.TooWide → ⊥ }
    ensures too_big { result ≡ Err JumpFault.TooBig →
        (is_wide (parameters_plan frame.now.columns.items locals before (map expression args.now)) (parameters_base frame.now.columns.items callee (map expression args.now)) ≡ false)
        × (all_fit (parameters_plan frame.now.columns.items locals before (map expression args.now)) (parameters_base frame.now.columns.items callee (map expression args.now)) ≡ false) }
{
    let Ok(low) = u32::try_from(frame.columns.len()) else {
        return Err(JumpFault::Memory);
    };
    let count = all_count(alloc, globals, args)?;
    let high = column_behind(low, count as usize)?;
    let conj = freed_arguments(
        alloc, globals, frame, locals, count, high, args, before, callee,
    )?;
    if count == 0 {
        return Ok(MarkedConj {
            conj,
            coarse: false,
        });
    }
    Ok(letter(alloc, low, count, callee, &conj)?)
}
