//! The letters of calls of procedures without body.

ghost use Rattle.std.specs.Prelude.{◌≡◌, ◌+◌, true, false, IfOk, IsOk, Err, [], length, map};
ghost use Rattle.std.specs.List.{AllByRecursion};
ghost use Rattle.typed_tree.specs.TypedView.{expression, procedure};
ghost use Rattle.typed_tree.specs.AffineForm.{forms_fit};
ghost use Rattle.typed_tree.specs.Scope.{is_constant_column};
ghost use Rattle.cond_jumps.specs.Conjunctions.{is_wide, all_fit, listed_plan};
ghost use Rattle.cond_jumps.specs.Conjs.{conjunctions};
ghost use Rattle.cond_jumps.specs.Frames.{fixed_in};
ghost use Rattle.cond_jumps.specs.FreeProducts.FreeProducts.{all_free_products};
ghost use Rattle.cond_jumps.specs.FreeProducts.Letters.{marked_letter};
ghost use Rattle.cond_jumps.specs.FreeProducts.LetterView.{all_marked, exact_letter};
ghost use Rattle.lowered_graph.specs.LoweredSteps.Edges.{behind_helpers, those_in, import_written, import_plan, import_letters};
ghost use Rattle.icfg_lower.specs.CallJumps.CallLists.{ensured, ensures_plan, behind_written, freed_ensures_plan, freed_ensures_base, ensures_letters, import_base};
ghost use Rattle.icfg_lower.specs.CallJumps.Ties.ImportView.{IsLayout};

use crate::call_jumps::conjoined::numbered_paths;
use crate::call_jumps::ensured::{ensures_count, ensures_told, freed_conditions, plain_conditions};
use crate::call_jumps::layouts::{Layout, laid_out};
use crate::call_jumps::written::column_behind;
use boogie_tree::VarInfo;
use cond_jumps::free_products::{MarkedConj, all_count, all_exact, letters_over, widened};
use cond_jumps::{Conj, JumpFault};
use letter_acts::Frame;
use std::alloc::{AllocError, Global};
use typed_tree::{TExpr, TProc};

/// What a call of a procedure without body may do.
#[derive(Drop)]
pub struct Import {
    /// The columns that it writes: the modified globals, and then the other targets.
    pub written: Vec<u32>,
    /// Its letters: over the frame, the written columns, and the helpers.
    pub conjs: Vec<MarkedConj>,
}

/// The letters, with so many further columns counted among their helpers, before those that they have.
fn behind_helpers(
    alloc: Global,
    helpers: usize,
    letters: Vec<MarkedConj>,
) -> Result<Vec<MarkedConj>, AllocError>
    ensures { IfOk result (λ ls. all_marked ls.items ≡ map (behind_helpers helpers) (all_marked letters.items)) }
{
    let mut all = Vec::with_capacity(alloc, letters.len())?;
    for letter in letters {
        let MarkedConj { conj, coarse } = letter;
        all.push(MarkedConj {
            conj: Conj {
                rows: conj.rows,
                helpers: column_behind(conj.helpers, helpers)?,
            },
            coarse,
        })?;
    }
    Ok(all)
}

/// What a call may do whose arguments and ensures have no free product.
fn plain_imported(
    alloc: Global,
    globals: &[VarInfo],
    frame: &Frame,
    callee: &TProc,
    args: &[TExpr],
    targets: &[u32],
) -> Result<Import, JumpFault>
    ensures written { IfOk result (λ i. i.written.items ≡ import_written callee.now.modifies.items targets.now) }
    ensures list { IfOk result (λ i. all_marked i.conjs.items ≡ map (behind_helpers (length (those_in targets.now callee.now.modifies.items))) (map exact_letter
        (listed_plan (ensures_plan frame.now.columns.items (length frame.now.columns.items) globals.now (procedure callee.now) (map expression args.now) targets.now [] (ensured (procedure callee.now).specs))
        (behind_written (length frame.now.columns.items) (procedure callee.now) targets.now)))) }
    ensures narrow { IsOk result → is_wide (ensures_plan frame.now.columns.items (length frame.now.columns.items) globals.now (procedure callee.now) (map expression args.now) targets.now [] (ensured (procedure callee.now).specs))
        (behind_written (length frame.now.columns.items) (procedure callee.now) targets.now) ≡ false }
    ensures fits { IsOk result → all_fit (ensures_plan frame.now.columns.items (length frame.now.columns.items) globals.now (procedure callee.now) (map expression args.now) targets.now [] (ensured (procedure callee.now).specs))
        (behind_written (length frame.now.columns.items) (procedure callee.now) targets.now) ≡ true }
    ensures too_wide { result ≡ Err JumpFault.TooWide → is_wide (ensures_plan frame.now.columns.items (length frame.now.columns.items) globals.now (procedure callee.now) (map expression args.now) targets.now [] (ensured (procedure callee.now).specs))
        (behind_written (length frame.now.columns.items) (procedure callee.now) targets.now) ≡ true }
    ensures too_big { result ≡ Err JumpFault.TooBig →
        (is_wide (ensures_plan frame.now.columns.items (length frame.now.columns.items) globals.now (procedure callee.now) (map expression args.now) targets.now [] (ensured (procedure callee.now).specs))
        (behind_written (length frame.now.columns.items) (procedure callee.now) targets.now) ≡ false)
        × (all_fit (ensures_plan frame.now.columns.items (length frame.now.columns.items) globals.now (procedure callee.now) (map expression args.now) targets.now [] (ensured (procedure callee.now).specs))
        (behind_written (length frame.now.columns.items) (procedure callee.now) targets.now) ≡ false) }
{
    let Ok(base) = u32::try_from(frame.columns.len()) else {
        return Err(JumpFault::Memory);
    };
    let layout = laid_out(alloc, base, callee, targets)?;
    let conds = plain_conditions(alloc, globals, frame, callee, args, targets, &layout)?;
    let conjs = numbered_paths(alloc, layout.width, conds.as_slice())?;
    drop(conds);
    let letters = all_exact(alloc, conjs)?;
    let conjs = behind_helpers(alloc, layout.targeted.len(), letters)?;
    Ok(Import {
        written: layout.written,
        conjs,
    })
}

/// The letters of conjunctions over the frame, so many products, so many further columns, and their helpers, before which the `own` last of the
/// further columns are counted.
fn helped_letters(
    alloc: Global,
    frame: &Frame,
    count: u32,
    more: usize,
    own: usize,
    conjs: &[Conj],
) -> Result<Vec<MarkedConj>, AllocError>
    ensures { IfOk result (λ ls. all_marked ls.items ≡ map (behind_helpers own) (map (marked_letter (length frame.now.columns.items) count more) (conjunctions conjs.now))) }
{
    let letters = letters_over(alloc, frame, count, more, conjs)?;
    behind_helpers(alloc, own, letters)
}

/// The conjunctions of ensures that are told so, over the frame, `count` products, the written columns, and their helpers. The products of the
/// ensures, so many as `further`, have the columns from number `products` on, behind those of the arguments.
fn told_paths(
    alloc: Global,
    globals: &[VarInfo],
    frame: &Frame,
    locals: u32,
    count: u32,
    callee: &TProc,
    args: &[TExpr],
    targets: &[u32],
    layout: &Layout,
    products: u32,
    further: u32,
    told: &[TExpr],
) -> Result<Vec<Conj>, JumpFault>
    requires constants { fixed_in frame.now.columns.items ≡ is_constant_column globals.now }
    requires fit_args { AllByRecursion (λ e. forms_fit (is_constant_column globals.now) false e ≡ true) (map expression args.now) }
    requires fit { AllByRecursion (λ e. forms_fit (is_constant_column globals.now) false e ≡ true) (map expression told.now) }
    requires layout { IsLayout (length frame.now.columns.items + count) (procedure callee.now) targets.now layout.now }
    requires products { products ≡ length frame.now.columns.items + length (all_free_products (is_constant_column globals.now) (map expression args.now)) }
    requires further { further ≡ length (all_free_products (is_constant_column globals.now) (map expression told.now)) }
    requires count { count ≡ length (all_free_products (is_constant_column globals.now) (map expression args.now)) + further }
    ensures list { IfOk result (λ cs. conjunctions cs.items ≡ listed_plan (freed_ensures_plan frame.now.columns.items locals globals.now (procedure callee.now) (map expression args.now) targets.now (map expression told.now))
        (freed_ensures_base frame.now.columns.items (procedure callee.now) (map expression args.now) targets.now (map expression told.now))) }
    ensures narrow { IsOk result → is_wide (freed_ensures_plan frame.now.columns.items locals globals.now (procedure callee.now) (map expression args.now) targets.now (map expression told.now))
        (freed_ensures_base frame.now.columns.items (procedure callee.now) (map expression args.now) targets.now (map expression told.now)) ≡ false }
    ensures fits { IsOk result → all_fit (freed_ensures_plan frame.now.columns.items locals globals.now (procedure callee.now) (map expression args.now) targets.now (map expression told.now))
        (freed_ensures_base frame.now.columns.items (procedure callee.now) (map expression args.now) targets.now (map expression told.now)) ≡ true }
    ensures too_wide { result ≡ Err JumpFault.TooWide → is_wide (freed_ensures_plan frame.now.columns.items locals globals.now (procedure callee.now) (map expression args.now) targets.now (map expression told.now))
        (freed_ensures_base frame.now.columns.items (procedure callee.now) (map expression args.now) targets.now (map expression told.now)) ≡ true }
    ensures too_big { result ≡ Err JumpFault.TooBig →
        (is_wide (freed_ensures_plan frame.now.columns.items locals globals.now (procedure callee.now) (map expression args.now) targets.now (map expression told.now))
        (freed_ensures_base frame.now.columns.items (procedure callee.now) (map expression args.now) targets.now (map expression told.now)) ≡ false)
        × (all_fit (freed_ensures_plan frame.now.columns.items locals globals.now (procedure callee.now) (map expression args.now) targets.now (map expression told.now))
        (freed_ensures_base frame.now.columns.items (procedure callee.now) (map expression args.now) targets.now (map expression told.now)) ≡ false) }
{
    let wide = widened(alloc, frame, locals, count)?;
    let conds = freed_conditions(
        alloc, globals, &wide, locals, callee, args, targets, layout, products, further, told,
    );
    drop(wide);
    let conds = conds?;
    numbered_paths(alloc, layout.width, conds.as_slice())
}

/// What a call may do whose ensures are told so.
fn told_imported(
    alloc: Global,
    globals: &[VarInfo],
    frame: &Frame,
    locals: u32,
    callee: &TProc,
    args: &[TExpr],
    targets: &[u32],
    told: &[TExpr],
) -> Result<Import, JumpFault>
    requires constants { fixed_in frame.now.columns.items ≡ is_constant_column globals.now }
    requires fit_args { AllByRecursion (λ e. forms_fit (is_constant_column globals.now) false e ≡ true) (map expression args.now) }
    requires fit { AllByRecursion (λ e. forms_fit (is_constant_column globals.now) false e ≡ true) (map expression told.now) }
    ensures written { IfOk result (λ i. i.written.items ≡ import_written callee.now.modifies.items targets.now) }
    ensures list { IfOk result (λ i. all_marked i.conjs.items ≡ ensures_letters frame.now.columns.items locals globals.now (procedure callee.now) (map expression args.now) targets.now (map expression told.now)) }
    ensures narrow { IsOk result → is_wide (freed_ensures_plan frame.now.columns.items locals globals.now (procedure callee.now) (map expression args.now) targets.now (map expression told.now))
        (freed_ensures_base frame.now.columns.items (procedure callee.now) (map expression args.now) targets.now (map expression told.now)) ≡ false }
    ensures fits { IsOk result → all_fit (freed_ensures_plan frame.now.columns.items locals globals.now (procedure callee.now) (map expression args.now) targets.now (map expression told.now))
        (freed_ensures_base frame.now.columns.items (procedure callee.now) (map expression args.now) targets.now (map expression told.now)) ≡ true }
    ensures too_wide { result ≡ Err JumpFault.TooWide → is_wide (freed_ensures_plan frame.now.columns.items locals globals.now (procedure callee.now) (map expression args.now) targets.now (map expression told.now))
        (freed_ensures_base frame.now.columns.items (procedure callee.now) (map expression args.now) targets.now (map expression told.now)) ≡ true }
    ensures too_big { result ≡ Err JumpFault.TooBig →
        (is_wide (freed_ensures_plan frame.now.columns.items locals globals.now (procedure callee.now) (map expression args.now) targets.now (map expression told.now))
        (freed_ensures_base frame.now.columns.items (procedure callee.now) (map expression args.now) targets.now (map expression told.now)) ≡ false)
        × (all_fit (freed_ensures_plan frame.now.columns.items locals globals.now (procedure callee.now) (map expression args.now) targets.now (map expression told.now))
        (freed_ensures_base frame.now.columns.items (procedure callee.now) (map expression args.now) targets.now (map expression told.now)) ≡ false) }
{
    let Ok(low) = u32::try_from(frame.columns.len()) else {
        return Err(JumpFault::Memory);
    };
    let first = all_count(alloc, globals, args)?;
    let second = all_count(alloc, globals, told)?;
    let count = column_behind(first, second as usize)?;
    let base = column_behind(low, count as usize)?;
    let products = column_behind(low, first as usize)?;
    let layout = laid_out(alloc, base, callee, targets)?;
    let conjs = match told_paths(
        alloc, globals, frame, locals, count, callee, args, targets, &layout, products, second,
        told,
    ) {
        Ok(conjs) => conjs,
        Err(fault) => {
            drop(layout);
            return Err(fault);
        }
    };
    let own = layout.targeted.len();
    let more = layout.written.len() + own;
    let letters = helped_letters(alloc, frame, count, more, own, conjs.as_slice());
    drop(conjs);
    let Ok(conjs) = letters else {
        drop(layout);
        return Err(JumpFault::Memory);
    };
    Ok(Import {
        written: layout.written,
        conjs,
    })
}

/// What a call of a procedure without body may do: the columns that it writes, and the letters of which a state of the caller's frame and
/// the new values of those columns meet one where all its ensures hold; they hold where the values meet one that is not coarse. The locals of the
/// frame have numbers below `locals`, and the globals are the program's. Where there is no free product each letter is exact.
pub fn imported(
    alloc: Global,
    globals: &[VarInfo],
    frame: &Frame,
    locals: u32,
    callee: &TProc,
    args: &[TExpr],
    targets: &[u32],
) -> Result<Import, JumpFault>
    requires constants { fixed_in frame.now.columns.items ≡ is_constant_column globals.now }
    requires fit_args { AllByRecursion (λ e. forms_fit (is_constant_column globals.now) false e ≡ true) (map expression args.now) }
    requires fit { AllByRecursion (λ e. forms_fit (is_constant_column globals.now) false e ≡ true) (ensured (procedure callee.now).specs) }
    ensures written { IfOk result (λ i. i.written.items ≡ import_written callee.now.modifies.items targets.now) }
    ensures list { IfOk result (λ i. all_marked i.conjs.items ≡ import_letters frame.now.columns.items locals globals.now (procedure callee.now) (map expression args.now) targets.now) }
    ensures narrow { IsOk result → is_wide (import_plan frame.now.columns.items locals globals.now (procedure callee.now) (map expression args.now) targets.now)
        (import_base frame.now.columns.items (procedure callee.now) (map expression args.now) targets.now) ≡ false }
    ensures fits { IsOk result → all_fit (import_plan frame.now.columns.items locals globals.now (procedure callee.now) (map expression args.now) targets.now)
        (import_base frame.now.columns.items (procedure callee.now) (map expression args.now) targets.now) ≡ true }

    // `TooWide` goes before `TooBig`.
    ensures too_wide { result ≡ Err JumpFault.TooWide → is_wide (import_plan frame.now.columns.items locals globals.now (procedure callee.now) (map expression args.now) targets.now)
        (import_base frame.now.columns.items (procedure callee.now) (map expression args.now) targets.now) ≡ true }
    ensures too_big { result ≡ Err JumpFault.TooBig →
        (is_wide (import_plan frame.now.columns.items locals globals.now (procedure callee.now) (map expression args.now) targets.now)
        (import_base frame.now.columns.items (procedure callee.now) (map expression args.now) targets.now) ≡ false)
        × (all_fit (import_plan frame.now.columns.items locals globals.now (procedure callee.now) (map expression args.now) targets.now)
        (import_base frame.now.columns.items (procedure callee.now) (map expression args.now) targets.now) ≡ false) }
{
    let specs = callee.specs.as_slice();
    let first = all_count(alloc, globals, args)?;
    let second = ensures_count(alloc, globals, specs)?;
    let count = column_behind(first, second as usize)?;
    if count == 0 {
        return plain_imported(alloc, globals, frame, callee, args, targets);
    }
    let told = ensures_told(alloc, globals, args, specs)?;
    told_imported(
        alloc,
        globals,
        frame,
        locals,
        callee,
        args,
        targets,
        told.as_slice(),
    )
}
