//! The declarations of a program, as its procedures see them.

ghost use Rattle.std.specs.Prelude.{◌≡◌, map};
ghost use Rattle.boogie_tree.specs.View as view;
ghost use Rattle.boogie_types.specs.Ties.Numbers.{info_names};
ghost use Rattle.boogie_types.specs.Ties.Places.{procedure_texts};
ghost use Rattle.boogie_types.specs.Ties.Referred.{procedures_by};
ghost use Rattle.boogie_types.specs.Sorted.{declared_globals};

use crate::numbered::Numbered;
use boogie_tree::{Decl, Proc};
use typed_tree::VarInfo;

/// What a program declares for all of its procedures.
#[derive(Clone, Copy)]
pub(crate) struct Declared<'a, 'b> {
    /// All declarations.
    pub(crate) decls: &'a [Decl],
    /// The constants and globals, and their numbers.
    pub(crate) globals: &'b [VarInfo],
    pub(crate) global_numbers: &'b Numbered<'a>,
    /// The procedures, and their numbers.
    pub(crate) procs: &'b [&'a Proc],
    pub(crate) proc_numbers: &'b Numbered<'a>,
    ghost globals_are: { globals.now ≡ declared_globals (map view.declaration decls.now) },
    ghost global_numbers_are: { global_numbers.now ≡ info_names globals.now },
    ghost proc_numbers_are: { proc_numbers.now ≡ procedure_texts (procedures_by procs.now) },
}
