//! The ensures of procedures without body over numbered columns.

ghost use Rattle.std.specs.Prelude.{◌≡◌, ◌+◌, ◌++◌, ℕ, true, false, IfOk, OnOk, List, [], ◌∷◌, length, map, take, drop};
ghost use Rattle.std.specs.List.{AllByRecursion};
ghost use Rattle.typed_tree.specs.TypedView.{expression, procedure, specification};
ghost use Rattle.typed_tree.specs.AffineForm.{forms_fit};
ghost use Rattle.typed_tree.specs.Scope.{is_constant_column};
ghost use Rattle.cond_jumps.specs.FreeProducts.FreeProducts.{all_free_products, all_freed};
ghost use Rattle.cond_jumps.specs.FreeProducts.FrameLetters.{told_condition};
ghost use Rattle.lowered_graph.specs.LoweredSteps.Edges.{import_written, left_at, result_at, results_at, whole_columns};
ghost use Rattle.icfg_lower.specs.CallJumps.CallLists.{ensured};
ghost use Rattle.icfg_lower.specs.CallJumps.Ties.ImportView.{IsLayout, import_results, import_conditions};
ghost use Rattle.icfg_lower.specs.CallJumps.Ties.Reading.{read_by};
ghost use Rattle.icfg_lower.specs.CallJumps.Ties.Stands.{stand_of, argument_stand, result_stand, left_by, stands_of};

use crate::call_jumps::layouts::Layout;
use crate::call_jumps::reader::Reader;
use crate::call_jumps::reading::read;
use crate::call_jumps::standing::Standing;
use crate::call_jumps::standings::standings;
use crate::call_jumps::written::{Written, column_behind, found};
use boogie_tree::{Ty, VarInfo};
use cond_jumps::free_products::{all_freed, product_count, told_condition};
use letter_acts::Frame;
use std::alloc::{AllocError, Global};
use typed_tree::signatures::results;
use typed_tree::{TExpr, TProc, TSpec};

// ---- what stands for the columns

/// The result in the column that is written for its target.
fn result_standing(
    base: u32,
    written: &[u32],
    target: u32,
    variable: &VarInfo,
) -> Result<Standing, AllocError>
    ensures { IfOk result (λ s. stand_of s ≡ result_stand (result_at base written.now target variable.now)) }
{
    let place = match found(written, target) {
        None => 0,
        Some(place) => place,
    };
    Ok(Standing::numbered(column_behind(base, place)?, variable.ty))
}

/// What stands for the arguments, and behind it what stands for the results.
fn with_results(
    args: Vec<Standing>,
    base: u32,
    written: &[u32],
    targets: &[u32],
    results: &[VarInfo],
) -> Result<Vec<Standing>, AllocError>
    ensures { IfOk result (λ ss. map stand_of ss.items ≡ map stand_of args.items ++ map result_stand (results_at base written.now targets.now results.now)) }
{
    let mut locals = args;
    for place in 0..targets.len().min(results.len()) {
        let target = targets[place];
        locals.push(result_standing(base, written, target, &results[place])?)?;
    }
    Ok(locals)
}

/// What stands for locals, and behind it so many whole numbers in the columns from number `first` on.
fn with_products(locals: Vec<Standing>, first: u32, count: u32) -> Result<Vec<Standing>, AllocError>
    ensures { IfOk result (λ ss. map stand_of ss.items ≡ map stand_of locals.items ++ map result_stand (whole_columns first count)) }
{
    let mut all = locals;
    let mut made = 0;
    while made < count {
        let number = column_behind(first, made as usize)?;
        all.push(Standing::numbered(number, Ty::Int))?;
        made += 1;
    }
    Ok(all)
}

// ---- the conditions as they are read

/// Adds the condition of a specification over numbered columns, if it is an ensures.
fn add_condition(
    alloc: Global,
    reader: &Reader<'_>,
    conds: &mut Vec<TExpr>,
    spec: &TSpec,
) -> Result<(), AllocError>
    ensures { OnOk result (map expression conds.new.items ≡
        map expression conds.old.items ++ map (read_by (stands_of reader.now) false) (ensured (specification spec.now ∷ []))) }
{
    match spec {
        TSpec::Requires(_) => Ok(()),
        TSpec::Ensures(ensured) => {
            let cond = read(alloc, reader, false, &ensured.cond)?;
            conds.push(cond)?;
            Ok(())
        }
    }
}

/// The conditions of the ensures over numbered columns.
fn ensures_read(
    alloc: Global,
    reader: &Reader<'_>,
    specs: &[TSpec],
) -> Result<Vec<TExpr>, AllocError>
    ensures { IfOk result (λ es. map expression es.items ≡ map (read_by (stands_of reader.now) false) (ensured (map specification specs.now))) }
{
    let mut conds = Vec::new(alloc);
    for spec in specs {
        add_condition(alloc, reader, &mut conds, spec)?;
    }
    Ok(conds)
}

/// Conditions over numbered columns.
fn all_read(alloc: Global, reader: &Reader<'_>, conds: &[TExpr]) -> Result<Vec<TExpr>, AllocError>
    ensures { IfOk result (λ es. map expression es.items ≡ map (read_by (stands_of reader.now) false) (map expression conds.now)) }
{
    let mut all = Vec::with_capacity(alloc, conds.len())?;
    for cond in conds {
        all.push(read(alloc, reader, false, cond)?)?;
    }
    Ok(all)
}

// ---- their products

/// How many free products a specification has, if it is an ensures.
fn ensured_count(alloc: Global, globals: &[VarInfo], spec: &TSpec) -> Result<u32, AllocError>
    requires { AllByRecursion (λ e. forms_fit (is_constant_column globals.now) false e ≡ true) (ensured (specification spec.now ∷ [])) }
    ensures { IfOk result (λ n. n ≡ length (all_free_products (is_constant_column globals.now) (ensured (specification spec.now ∷ [])))) }
{
    match spec {
        TSpec::Requires(_) => Ok(0),
        TSpec::Ensures(ensured) => product_count(alloc, globals, false, &ensured.cond),
    }
}

/// How many free products the ensures have.
pub fn ensures_count(alloc: Global, globals: &[VarInfo], specs: &[TSpec]) -> Result<u32, AllocError>
    requires { AllByRecursion (λ e. forms_fit (is_constant_column globals.now) false e ≡ true) (ensured (map specification specs.now)) }
    ensures { IfOk result (λ n. n ≡ length (all_free_products (is_constant_column globals.now) (ensured (map specification specs.now)))) }
{
    let mut count = 0;
    for spec in specs {
        let more = ensured_count(alloc, globals, spec)?;
        count = column_behind(count, more as usize)?;
    }
    Ok(count)
}

/// Adds the condition of a specification, as its products are told, if it is an ensures.
fn add_told(
    alloc: Global,
    globals: &[VarInfo],
    args: &[TExpr],
    told: &mut Vec<TExpr>,
    spec: &TSpec,
) -> Result<(), AllocError>
    requires { AllByRecursion (λ e. forms_fit (is_constant_column globals.now) false e ≡ true) (ensured (specification spec.now ∷ [])) }
    ensures { OnOk result (map expression told.new.items ≡
        map expression told.old.items ++ map (told_condition (is_constant_column globals.now) (map expression args.now)) (ensured (specification spec.now ∷ []))) }
{
    match spec {
        TSpec::Requires(_) => Ok(()),
        TSpec::Ensures(ensured) => {
            let cond = told_condition(alloc, globals, args, &ensured.cond)?;
            told.push(cond)?;
            Ok(())
        }
    }
}

/// The ensures as their products are told at a call with these arguments.
pub fn ensures_told(
    alloc: Global,
    globals: &[VarInfo],
    args: &[TExpr],
    specs: &[TSpec],
) -> Result<Vec<TExpr>, AllocError>
    requires { AllByRecursion (λ e. forms_fit (is_constant_column globals.now) false e ≡ true) (ensured (map specification specs.now)) }
    ensures { IfOk result (λ es. map expression es.items ≡
        map (told_condition (is_constant_column globals.now) (map expression args.now)) (ensured (map specification specs.now))) }
{
    let mut told = Vec::new(alloc);
    for spec in specs {
        add_told(alloc, globals, args, &mut told, spec)?;
    }
    Ok(told)
}

// ---- at a call

/// What stands for the arguments and the results of a call.
fn locals_at(
    alloc: Global,
    frame: &Frame,
    callee: &TProc,
    args: &[TExpr],
    targets: &[u32],
    layout: &Layout,
) -> Result<Vec<Standing>, AllocError>
    requires { layout.now.written.items ≡ import_written callee.now.modifies.items targets.now }
    ensures { IfOk result (λ ss. map stand_of ss.items ≡ map (argument_stand frame.now.columns.items) (map expression args.now)
        ++ map result_stand (import_results layout.now.base (procedure callee.now) targets.now)) }
{
    let args = standings(alloc, frame, args)?;
    let written = layout.written.as_slice();
    with_results(args, layout.base, written, targets, results(callee))
}

/// Where a call leaves the globals.
fn left<'a>(globals: &'a [VarInfo], callee: &'a TProc, layout: &'a Layout) -> Written<'a>
    ensures { (base : ℕ) (targets : List ℕ) → IsLayout base (procedure callee.now) targets layout.now →
        (n : ℕ) → left_by result n ≡ left_at globals.now base callee.now.modifies.items targets n }
{
    Written {
        globals,
        modified: callee.modifies.as_slice(),
        targeted: layout.targeted.as_slice(),
        base: layout.base,
        helpers: layout.helpers,
    }
}

/// The ensures of a call over numbered columns, where there is no free product.
pub fn plain_conditions(
    alloc: Global,
    globals: &[VarInfo],
    frame: &Frame,
    callee: &TProc,
    args: &[TExpr],
    targets: &[u32],
    layout: &Layout,
) -> Result<Vec<TExpr>, AllocError>
    requires { IsLayout (length frame.now.columns.items) (procedure callee.now) targets.now layout.now }
    ensures { IfOk result (λ es. map expression es.items ≡ import_conditions frame.now.columns.items (length frame.now.columns.items) globals.now (procedure callee.now)
        (map expression args.now) targets.now [] (ensured (procedure callee.now).specs)) }
{
    let locals = locals_at(alloc, frame, callee, args, targets, layout)?;
    let left = left(globals, callee, layout);
    let reader = Reader::Ensures(frame, &left, locals.as_slice());
    ensures_read(alloc, &reader, callee.specs.as_slice())
}

/// Conditions of a call over numbered columns; those of their `count` products, from number `first` on, are further results.
fn told_conditions(
    alloc: Global,
    globals: &[VarInfo],
    frame: &Frame,
    callee: &TProc,
    args: &[TExpr],
    targets: &[u32],
    layout: &Layout,
    first: u32,
    count: u32,
    conds: &[TExpr],
) -> Result<Vec<TExpr>, AllocError>
    requires { IsLayout (length frame.now.columns.items) (procedure callee.now) targets.now layout.now }
    ensures { IfOk result (λ es. map expression es.items ≡ import_conditions frame.now.columns.items (length frame.now.columns.items) globals.now (procedure callee.now)
        (map expression args.now) targets.now (whole_columns first count) (map expression conds.now)) }
{
    let locals = locals_at(alloc, frame, callee, args, targets, layout)?;
    let locals = with_products(locals, first, count)?;
    let left = left(globals, callee, layout);
    let reader = Reader::Ensures(frame, &left, locals.as_slice());
    all_read(alloc, &reader, conds)
}

/// Conditions of a call over numbered columns, as they are told. Their products, and those of the arguments, stand as locals: the arguments'
/// from number `locals` on, and the conditions' behind the callee's parameters and results; these have the columns from number `first` on.
pub fn freed_conditions(
    alloc: Global,
    globals: &[VarInfo],
    frame: &Frame,
    locals: u32,
    callee: &TProc,
    args: &[TExpr],
    targets: &[u32],
    layout: &Layout,
    first: u32,
    count: u32,
    told: &[TExpr],
) -> Result<Vec<TExpr>, AllocError>
    requires layout { IsLayout (length frame.now.columns.items) (procedure callee.now) targets.now layout.now }
    requires fit_args { AllByRecursion (λ e. forms_fit (is_constant_column globals.now) false e ≡ true) (map expression args.now) }
    requires fit { AllByRecursion (λ e. forms_fit (is_constant_column globals.now) false e ≡ true) (map expression told.now) }
    ensures { IfOk result (λ es. map expression es.items ≡ import_conditions frame.now.columns.items (length frame.now.columns.items) globals.now (procedure callee.now)
        (all_freed (is_constant_column globals.now) locals (map expression args.now)) targets.now (whole_columns first count)
        (all_freed (is_constant_column globals.now) (length args.now + length (take callee.now.results (drop callee.now.params callee.now.locals.items))) (map expression told.now))) }
{
    let results = results(callee);
    let behind = column_behind(column_behind(0, args.len())?, results.len())?;
    let passed = all_freed(alloc, globals, locals, args)?;
    let made = all_freed(alloc, globals, behind, told)?;
    let passed = passed.exprs.as_slice();
    let made = made.exprs.as_slice();
    told_conditions(
        alloc, globals, frame, callee, passed, targets, layout, first, count, made,
    )
}
