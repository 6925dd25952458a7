//! The letters of conditions and assignments.

ghost use Rattle.std.specs.Prelude.{◌≡◌, ◌+◌, true, false, IfOk, IsOk, Err, length, map};
ghost use Rattle.std.specs.List.{AllByRecursion};
ghost use Rattle.typed_tree.specs.TypedView.{expression};
ghost use Rattle.typed_tree.specs.AffineForm.{forms_fit};
ghost use Rattle.typed_tree.specs.Scope.{is_constant_column};
ghost use Rattle.cond_jumps.specs.Conjs.{conjunctions};
ghost use Rattle.cond_jumps.specs.Conjunctions.{is_wide, all_fit};
ghost use Rattle.cond_jumps.specs.Frames.{fixed_in};
ghost use Rattle.cond_jumps.specs.Lists.{assign_width};
ghost use Rattle.cond_jumps.specs.FreeProducts.FrameLetters.{widened, product_count, freed_path_plan, path_letters, all_product_count, freed_assign_plan, assign_letters};
ghost use Rattle.cond_jumps.specs.FreeProducts.Letters.{marked_letter};
ghost use Rattle.cond_jumps.specs.FreeProducts.LetterView.{all_marked, exact_letter};

use crate::free_products::freeing::{all_count, all_freed, freed, product_count};
use crate::free_products::letters::{MarkedConj, letters};
use crate::{Conj, JumpFault, assign, later, paths};
use boogie_tree::{Column, Text, Ty, VarInfo};
use letter_acts::Frame;
use std::alloc::{AllocError, Global};
use typed_tree::TExpr;

/// The frame, and behind it so many locals, numbered from `locals` on, each a whole number.
pub fn widened(alloc: Global, frame: &Frame, locals: u32, count: u32) -> Result<Frame, AllocError>
    ensures { IfOk result (λ f. f.columns.items ≡ widened frame.now.columns.items locals count) }
{
    let mut wide = frame.copy()?;
    let mut made = 0;
    while made < count {
        let product = VarInfo {
            name: Text::new(Vec::new(alloc)),
            ty: Ty::Int,
            constant: false,
        };
        wide.columns
            .push((Column::Local(later(locals, made)?), product))?;
        made += 1;
    }
    Ok(wide)
}

/// The letters of conjunctions over the frame, so many products, so many further columns, and their helpers.
pub fn letters_over(
    alloc: Global,
    frame: &Frame,
    count: u32,
    more: usize,
    conjs: &[Conj],
) -> Result<Vec<MarkedConj>, AllocError>
    ensures { IfOk result (λ ls. all_marked ls.items ≡ map (marked_letter (length frame.now.columns.items) count more) (conjunctions conjs.now)) }
{
    let Ok(low) = u32::try_from(frame.columns.len()) else {
        return Err(AllocError);
    };
    let Ok(more) = u32::try_from(more) else {
        return Err(AllocError);
    };
    letters(alloc, low, count, more, conjs)
}

/// Conjunctions over a frame without products, each its own letter.
pub fn all_exact(alloc: Global, conjs: Vec<Conj>) -> Result<Vec<MarkedConj>, AllocError>
    ensures { IfOk result (λ ls. all_marked ls.items ≡ map exact_letter (conjunctions conjs.items)) }
{
    let mut all = Vec::with_capacity(alloc, conjs.len())?;
    for conj in conjs {
        all.push(MarkedConj {
            conj,
            coarse: false,
        })?;
    }
    Ok(all)
}

/// The letters of a condition with the wanted value, over a frame whose locals have numbers below `locals`. The globals are the
/// program's. Where the condition has no free product the list is that of `paths`, each letter exact.
pub fn free_paths(
    alloc: Global,
    globals: &[VarInfo],
    frame: &Frame,
    locals: u32,
    cond: &TExpr,
    want: bool,
) -> Result<Vec<MarkedConj>, JumpFault>
    requires constants { fixed_in frame.now.columns.items ≡ is_constant_column globals.now }
    requires fit { forms_fit (is_constant_column globals.now) false (expression cond.now) ≡ true }
    ensures list { IfOk result (λ ls. all_marked ls.items ≡ path_letters frame.now.columns.items locals (expression cond.now) want) }
    ensures narrow { IsOk result → is_wide (freed_path_plan frame.now.columns.items locals (expression cond.now) want)
        (length frame.now.columns.items + product_count frame.now.columns.items (expression cond.now)) ≡ false }
    ensures fits { IsOk result → all_fit (freed_path_plan frame.now.columns.items locals (expression cond.now) want)
        (length frame.now.columns.items + product_count frame.now.columns.items (expression cond.now)) ≡ true }

    // `TooWide` goes before `TooBig`.
    ensures too_wide { result ≡ Err JumpFault.TooWide → is_wide (freed_path_plan frame.now.columns.items locals (expression cond.now) want)
        (length frame.now.columns.items + product_count frame.now.columns.items (expression cond.now)) ≡ true }
    ensures too_big { result ≡ Err JumpFault.TooBig →
        (is_wide (freed_path_plan frame.now.columns.items locals (expression cond.now) want)
        (length frame.now.columns.items + product_count frame.now.columns.items (expression cond.now)) ≡ false)
        × (all_fit (freed_path_plan frame.now.columns.items locals (expression cond.now) want)
        (length frame.now.columns.items + product_count frame.now.columns.items (expression cond.now)) ≡ false) }
{
    let count = product_count(alloc, globals, false, cond)?;
    if count == 0 {
        let conjs = paths(alloc, frame, cond, want)?;
        return Ok(all_exact(alloc, conjs)?);
    }
    let wide = widened(alloc, frame, locals, count)?;
    let made = freed(alloc, globals, locals, false, cond)?;
    let conjs = paths(alloc, &wide, &made.expr, want)?;
    Ok(letters_over(alloc, frame, count, 0, conjs.as_slice())?)
}

/// The letters of a parallel assignment, over a frame whose locals have numbers below `locals`, then the targets in order. The globals
/// are the program's. Where the values have no free product the list is that of `assign`, each letter exact.
pub fn free_assign(
    alloc: Global,
    globals: &[VarInfo],
    frame: &Frame,
    locals: u32,
    targets: &[Column],
    values: &[TExpr],
) -> Result<Vec<MarkedConj>, JumpFault>
    requires count { length targets.now ≡ length values.now }
    requires constants { fixed_in frame.now.columns.items ≡ is_constant_column globals.now }
    requires fit { AllByRecursion (λ e. forms_fit (is_constant_column globals.now) false e ≡ true) (map expression values.now) }
    ensures list { IfOk result (λ ls. all_marked ls.items ≡ assign_letters frame.now.columns.items locals (length targets.now) (map expression values.now)) }
    ensures narrow { IsOk result → is_wide (freed_assign_plan frame.now.columns.items locals (map expression values.now))
        ((length frame.now.columns.items + all_product_count frame.now.columns.items (map expression values.now)) + length targets.now) ≡ false }
    ensures fits { IsOk result → all_fit (freed_assign_plan frame.now.columns.items locals (map expression values.now))
        ((length frame.now.columns.items + all_product_count frame.now.columns.items (map expression values.now)) + length targets.now) ≡ true }

    // `TooWide` goes before `TooBig`.
    ensures too_wide { result ≡ Err JumpFault.TooWide → is_wide (freed_assign_plan frame.now.columns.items locals (map expression values.now))
        ((length frame.now.columns.items + all_product_count frame.now.columns.items (map expression values.now)) + length targets.now) ≡ true }
    ensures too_big { result ≡ Err JumpFault.TooBig →
        (is_wide (freed_assign_plan frame.now.columns.items locals (map expression values.now))
        ((length frame.now.columns.items + all_product_count frame.now.columns.items (map expression values.now)) + length targets.now) ≡ false)
        × (all_fit (freed_assign_plan frame.now.columns.items locals (map expression values.now))
        ((length frame.now.columns.items + all_product_count frame.now.columns.items (map expression values.now)) + length targets.now) ≡ false) }
{
    let count = all_count(alloc, globals, values)?;
    if count == 0 {
        let conjs = assign(alloc, frame, targets, values)?;
        return Ok(all_exact(alloc, conjs)?);
    }
    let wide = widened(alloc, frame, locals, count)?;
    let made = all_freed(alloc, globals, locals, values)?;
    let conjs = assign(alloc, &wide, targets, made.exprs.as_slice())?;
    Ok(letters_over(alloc, frame, count, targets.len(), conjs.as_slice())?)
}
