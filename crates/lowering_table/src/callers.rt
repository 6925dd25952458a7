//! Procedures that call, and whether what they pass and what is asked of it may be asked: the form of each part fits.

ghost use Rattle.std.specs.Prelude.{◌≡◌, IsTrue, true, false, [], ◌∷◌, map};
ghost use Rattle.std.specs.List.{AllByRecursion};
ghost use Rattle.typed_tree.specs.TypedView.{expression, specification};
ghost use Rattle.typed_tree.specs.AffineForm.{forms_fit};
ghost use Rattle.typed_tree.specs.Scope.{is_constant_column};
ghost use Rattle.cond_jumps.specs.Frames.{fixed_in};
ghost use Rattle.icfg_lower.specs.CallJumps.CallLists.{ensured};

use boogie_tree::VarInfo;
use icfg_lower::program_layout::Layout;
use letter_acts::Frame;
use std::alloc::Global;
use typed_tree::{TExpr, TSpec, has_constant_form};

/// A procedure that calls: its frame, whose locals have numbers below `locals`, and the program's globals.
#[derive(Clone, Copy)]
pub(crate) struct Caller<'a> {
    pub(crate) globals: &'a [VarInfo],
    pub(crate) frame: &'a Frame,
    pub(crate) locals: u32,
    ghost constants: { fixed_in frame.now.columns.items ≡ is_constant_column globals.now },
}

/// The procedure of that number as one that calls.
pub(crate) fn caller_of<'a>(layout: &'a Layout<'_>, number: u32) -> Option<Caller<'a>> {
    let frame = layout.frame(number)?;
    let locals = layout.local_count(number)?;
    let globals = layout.program().globals();
    Some(Caller {
        globals,
        frame,
        locals,
    })
}

/// Whether the form of each part of an expression fits.
pub(crate) fn fits(alloc: Global, globals: &[VarInfo], expr: &TExpr) -> bool
    ensures { IsTrue result → forms_fit (is_constant_column globals.now) false (expression expr.now) ≡ true }
{
    has_constant_form(alloc, globals, false, expr).is_ok()
}

/// Whether those of all expressions fit.
pub(crate) fn all_fit(alloc: Global, globals: &[VarInfo], exprs: &[TExpr]) -> bool
    ensures { IsTrue result → AllByRecursion (λ e. forms_fit (is_constant_column globals.now) false e ≡ true) (map expression exprs.now) }
{
    for expr in exprs {
        if !fits(alloc, globals, expr) {
            return false;
        }
    }
    true
}

/// Whether those of a specification fit, if it is an ensures.
fn ensured_fits(alloc: Global, globals: &[VarInfo], spec: &TSpec) -> bool
    ensures { IsTrue result → AllByRecursion (λ e. forms_fit (is_constant_column globals.now) false e ≡ true) (ensured (specification spec.now ∷ [])) }
{
    match spec {
        TSpec::Requires(_) => true,
        TSpec::Ensures(claim) => fits(alloc, globals, &claim.cond),
    }
}

/// Whether those of all ensures fit.
pub(crate) fn ensures_fit(alloc: Global, globals: &[VarInfo], specs: &[TSpec]) -> bool
    ensures { IsTrue result → AllByRecursion (λ e. forms_fit (is_constant_column globals.now) false e ≡ true) (ensured (map specification specs.now)) }
{
    for spec in specs {
        if !ensured_fits(alloc, globals, spec) {
            return false;
        }
    }
    true
}
