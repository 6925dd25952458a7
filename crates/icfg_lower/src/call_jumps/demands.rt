//! The letters of what a called procedure requires.

ghost use Rattle.std.specs.Prelude.{◌≡◌, ◌+◌, ◌++◌, true, false, IfOk, IsOk, Err, length, map};
ghost use Rattle.std.specs.List.{AllByRecursion};
ghost use Rattle.typed_tree.specs.TypedView.{expression};
ghost use Rattle.typed_tree.specs.AffineForm.{forms_fit};
ghost use Rattle.typed_tree.specs.Scope.{is_constant_column};
ghost use Rattle.cond_jumps.specs.Conjunctions.{is_wide, all_fit, listed_plan};
ghost use Rattle.cond_jumps.specs.Conjs.{conjunctions};
ghost use Rattle.cond_jumps.specs.Frames.{fixed_in};
ghost use Rattle.cond_jumps.specs.FreeProducts.FreeProducts.{free_products, all_free_products, all_freed};
ghost use Rattle.cond_jumps.specs.FreeProducts.FrameLetters.{widened, passed_count, freed_passed_plan, told_letters, passed_letters};
ghost use Rattle.cond_jumps.specs.FreeProducts.LetterView.{all_marked};
ghost use Rattle.icfg_lower.specs.CallJumps.CallLists.{passed_plan, local_variables, demand_plan, demand_base};

use crate::call_jumps::columns::numbered_frame;
use crate::call_jumps::reader::Reader;
use crate::call_jumps::reading::read;
use crate::call_jumps::standings::standings;
use crate::call_jumps::written::column_behind;
use boogie_tree::{Column, Span, VarInfo};
use cond_jumps::free_products::{
    MarkedConj, all_count, all_exact, all_freed, freed, letters_over, product_count,
    told_condition, widened,
};
use cond_jumps::{Conj, JumpFault, paths};
use letter_acts::Frame;
use std::alloc::{AllocError, Global};
use typed_tree::{TExpr, TExprKind};

/// The conjunctions of a condition of a called procedure without free products, the arguments standing for its parameters.
fn passed(
    alloc: Global,
    frame: &Frame,
    args: &[TExpr],
    cond: &TExpr,
    want: bool,
) -> Result<Vec<Conj>, JumpFault>
    ensures list { IfOk result (λ cs. conjunctions cs.items ≡ listed_plan (passed_plan frame.now.columns.items (map expression args.now) (expression cond.now) want) (length frame.now.columns.items)) }
    ensures narrow { IsOk result → is_wide (passed_plan frame.now.columns.items (map expression args.now) (expression cond.now) want) (length frame.now.columns.items) ≡ false }
    ensures fits { IsOk result → all_fit (passed_plan frame.now.columns.items (map expression args.now) (expression cond.now) want) (length frame.now.columns.items) ≡ true }
    ensures too_wide { result ≡ Err JumpFault.TooWide →
        is_wide (passed_plan frame.now.columns.items (map expression args.now) (expression cond.now) want) (length frame.now.columns.items) ≡ true }
    ensures too_big { result ≡ Err JumpFault.TooBig →
        (is_wide (passed_plan frame.now.columns.items (map expression args.now) (expression cond.now) want) (length frame.now.columns.items) ≡ false)
        × (all_fit (passed_plan frame.now.columns.items (map expression args.now) (expression cond.now) want) (length frame.now.columns.items) ≡ false) }
{
    let Ok(width) = u32::try_from(frame.columns.len()) else {
        return Err(JumpFault::Memory);
    };
    let args = standings(alloc, frame, args)?;
    let reader = Reader::Requires(frame, args.as_slice());
    let read = read(alloc, &reader, false, cond)?;
    let numbered = numbered_frame(alloc, width)?;
    paths(alloc, &numbered, &read, want)
}

/// The expressions, and behind them the variables of so many locals, from number `first` on.
fn with_variables(
    exprs: Vec<TExpr>,
    span: Span,
    first: u32,
    count: u32,
) -> Result<Vec<TExpr>, AllocError>
    ensures { IfOk result (λ es. map expression es.items ≡ map expression exprs.items ++ local_variables span first count) }
{
    let mut all = exprs;
    let mut made = 0;
    while made < count {
        let local = column_behind(first, made as usize)?;
        all.push(TExpr {
            span,
            kind: TExprKind::Var(Column::Local(local)),
        })?;
        made += 1;
    }
    Ok(all)
}

/// The arguments with locals in the places of their products, numbered from `locals` on, and behind them the locals of so many products of
/// the condition, as further arguments.
fn passed_arguments(
    alloc: Global,
    globals: &[VarInfo],
    locals: u32,
    args: &[TExpr],
    span: Span,
    products: u32,
) -> Result<Vec<TExpr>, AllocError>
    requires { AllByRecursion (λ e. forms_fit (is_constant_column globals.now) false e ≡ true) (map expression args.now) }
    ensures { IfOk result (λ es. map expression es.items ≡ all_freed (is_constant_column globals.now) locals (map expression args.now)
        ++ local_variables span (locals + length (all_free_products (is_constant_column globals.now) (map expression args.now))) products) }
{
    let freed = all_freed(alloc, globals, locals, args)?;
    with_variables(freed.exprs, span, freed.next, products)
}

/// The conjunctions of a condition of a called procedure, told so, over the frame and `count` products: those of the arguments, and behind them
/// those of the condition.
fn freed_passed(
    alloc: Global,
    globals: &[VarInfo],
    frame: &Frame,
    locals: u32,
    args: &[TExpr],
    cond: &TExpr,
    products: u32,
    count: u32,
    want: bool,
) -> Result<Vec<Conj>, JumpFault>
    requires constants { fixed_in frame.now.columns.items ≡ is_constant_column globals.now }
    requires fit_args { AllByRecursion (λ e. forms_fit (is_constant_column globals.now) false e ≡ true) (map expression args.now) }
    requires fit { forms_fit (is_constant_column globals.now) false (expression cond.now) ≡ true }
    requires products { products ≡ length (free_products (is_constant_column globals.now) false (expression cond.now)) }
    requires count { count ≡ length (all_free_products (is_constant_column globals.now) (map expression args.now)) + products }
    ensures list { IfOk result (λ cs. conjunctions cs.items ≡ listed_plan (freed_passed_plan frame.now.columns.items locals (map expression args.now) (expression cond.now) want)
        (length (widened frame.now.columns.items locals (passed_count frame.now.columns.items (map expression args.now) (expression cond.now))))) }
    ensures narrow { IsOk result → is_wide (freed_passed_plan frame.now.columns.items locals (map expression args.now) (expression cond.now) want)
        (length frame.now.columns.items + passed_count frame.now.columns.items (map expression args.now) (expression cond.now)) ≡ false }
    ensures fits { IsOk result → all_fit (freed_passed_plan frame.now.columns.items locals (map expression args.now) (expression cond.now) want)
        (length frame.now.columns.items + passed_count frame.now.columns.items (map expression args.now) (expression cond.now)) ≡ true }
    ensures too_wide { result ≡ Err JumpFault.TooWide → is_wide (freed_passed_plan frame.now.columns.items locals (map expression args.now) (expression cond.now) want)
        (length frame.now.columns.items + passed_count frame.now.columns.items (map expression args.now) (expression cond.now)) ≡ true }
    ensures too_big { result ≡ Err JumpFault.TooBig →
        (is_wide (freed_passed_plan frame.now.columns.items locals (map expression args.now) (expression cond.now) want)
        (length frame.now.columns.items + passed_count frame.now.columns.items (map expression args.now) (expression cond.now)) ≡ false)
        × (all_fit (freed_passed_plan frame.now.columns.items locals (map expression args.now) (expression cond.now) want)
        (length frame.now.columns.items + passed_count frame.now.columns.items (map expression args.now) (expression cond.now)) ≡ false) }
{
    let behind = column_behind(0, args.len())?;
    let wide = widened(alloc, frame, locals, count)?;
    let Ok(passing) = passed_arguments(alloc, globals, locals, args, cond.span, products) else {
        drop(wide);
        return Err(JumpFault::Memory);
    };
    let Ok(made) = freed(alloc, globals, behind, false, cond) else {
        drop(passing);
        drop(wide);
        return Err(JumpFault::Memory);
    };
    passed(alloc, &wide, passing.as_slice(), &made.expr, want)
}

/// The letters of a condition of a called procedure, told so, the arguments standing for its parameters.
fn told_demanded(
    alloc: Global,
    globals: &[VarInfo],
    frame: &Frame,
    locals: u32,
    args: &[TExpr],
    cond: &TExpr,
    want: bool,
) -> Result<Vec<MarkedConj>, JumpFault>
    requires constants { fixed_in frame.now.columns.items ≡ is_constant_column globals.now }
    requires fit_args { AllByRecursion (λ e. forms_fit (is_constant_column globals.now) false e ≡ true) (map expression args.now) }
    requires fit { forms_fit (is_constant_column globals.now) false (expression cond.now) ≡ true }
    ensures list { IfOk result (λ cs. all_marked cs.items ≡ told_letters frame.now.columns.items locals (map expression args.now) (expression cond.now) want) }
    ensures narrow { IsOk result → is_wide (freed_passed_plan frame.now.columns.items locals (map expression args.now) (expression cond.now) want)
        (length frame.now.columns.items + passed_count frame.now.columns.items (map expression args.now) (expression cond.now)) ≡ false }
    ensures fits { IsOk result → all_fit (freed_passed_plan frame.now.columns.items locals (map expression args.now) (expression cond.now) want)
        (length frame.now.columns.items + passed_count frame.now.columns.items (map expression args.now) (expression cond.now)) ≡ true }
    ensures too_wide { result ≡ Err JumpFault.TooWide → is_wide (freed_passed_plan frame.now.columns.items locals (map expression args.now) (expression cond.now) want)
        (length frame.now.columns.items + passed_count frame.now.columns.items (map expression args.now) (expression cond.now)) ≡ true }
    ensures too_big { result ≡ Err JumpFault.TooBig →
        (is_wide (freed_passed_plan frame.now.columns.items locals (map expression args.now) (expression cond.now) want)
        (length frame.now.columns.items + passed_count frame.now.columns.items (map expression args.now) (expression cond.now)) ≡ false)
        × (all_fit (freed_passed_plan frame.now.columns.items locals (map expression args.now) (expression cond.now) want)
        (length frame.now.columns.items + passed_count frame.now.columns.items (map expression args.now) (expression cond.now)) ≡ false) }
{
    let first = all_count(alloc, globals, args)?;
    let second = product_count(alloc, globals, false, cond)?;
    let count = column_behind(first, second as usize)?;
    let conjs = freed_passed(
        alloc, globals, frame, locals, args, cond, second, count, want,
    )?;
    Ok(letters_over(alloc, frame, count, 0, conjs.as_slice())?)
}

/// How many free products a condition of a called procedure and the arguments have.
fn count_of(
    alloc: Global,
    globals: &[VarInfo],
    args: &[TExpr],
    cond: &TExpr,
) -> Result<u32, AllocError>
    requires fit_args { AllByRecursion (λ e. forms_fit (is_constant_column globals.now) false e ≡ true) (map expression args.now) }
    requires fit { forms_fit (is_constant_column globals.now) false (expression cond.now) ≡ true }
    ensures { IfOk result (λ n. n ≡ length (all_free_products (is_constant_column globals.now) (map expression args.now))
        + length (free_products (is_constant_column globals.now) false (expression cond.now))) }
{
    let first = all_count(alloc, globals, args)?;
    let second = product_count(alloc, globals, false, cond)?;
    column_behind(first, second as usize)
}

/// The letters of which a state of the caller's frame meets one where a requires of the called procedure has the wanted value, the
/// arguments standing for its parameters; it has the value where the state meets one that is not coarse. The locals of the frame have
/// numbers below `locals`, and the globals are the program's. Where there is no free product each letter is exact.
pub fn demanded(
    alloc: Global,
    globals: &[VarInfo],
    frame: &Frame,
    locals: u32,
    args: &[TExpr],
    cond: &TExpr,
    want: bool,
) -> Result<Vec<MarkedConj>, JumpFault>
    requires constants { fixed_in frame.now.columns.items ≡ is_constant_column globals.now }
    requires fit_args { AllByRecursion (λ e. forms_fit (is_constant_column globals.now) false e ≡ true) (map expression args.now) }
    requires fit { forms_fit (is_constant_column globals.now) false (expression cond.now) ≡ true }
    ensures list { IfOk result (λ cs. all_marked cs.items ≡ passed_letters frame.now.columns.items locals (map expression args.now) (expression cond.now) want) }
    ensures narrow { IsOk result → is_wide (demand_plan frame.now.columns.items locals (map expression args.now) (expression cond.now) want)
        (demand_base frame.now.columns.items (map expression args.now) (expression cond.now)) ≡ false }
    ensures fits { IsOk result → all_fit (demand_plan frame.now.columns.items locals (map expression args.now) (expression cond.now) want)
        (demand_base frame.now.columns.items (map expression args.now) (expression cond.now)) ≡ true }

    // `TooWide` goes before `TooBig`.
    ensures too_wide { result ≡ Err JumpFault.TooWide → is_wide (demand_plan frame.now.columns.items locals (map expression args.now) (expression cond.now) want)
        (demand_base frame.now.columns.items (map expression args.now) (expression cond.now)) ≡ true }
    ensures too_big { result ≡ Err JumpFault.TooBig →
        (is_wide (demand_plan frame.now.columns.items locals (map expression args.now) (expression cond.now) want)
        (demand_base frame.now.columns.items (map expression args.now) (expression cond.now)) ≡ false)
        × (all_fit (demand_plan frame.now.columns.items locals (map expression args.now) (expression cond.now) want)
        (demand_base frame.now.columns.items (map expression args.now) (expression cond.now)) ≡ false) }
{
    let count = count_of(alloc, globals, args, cond)?;
    if count == 0 {
        let conjs = passed(alloc, frame, args, cond, want)?;
        return Ok(all_exact(alloc, conjs)?);
    }
    let told = told_condition(alloc, globals, args, cond)?;
    told_demanded(alloc, globals, frame, locals, args, &told, want)
}
