//! Procedures, or implementations, with the numbers of their names.

ghost use Rattle.std.specs.Prelude.{◌≡◌};
ghost use Rattle.boogie_types.specs.Ties.Places.{procedure_texts};
ghost use Rattle.boogie_types.specs.Ties.Referred.{procedures_by};

use crate::numbered::Numbered;
use crate::sorted::names_of;
use boogie_tree::Proc;
use std::alloc::Global;
use typed_tree::TypeFault;

/// Procedures, or implementations, in order, with the numbers of their names.
#[derive(Drop)]
pub(crate) struct Listed<'a> {
    pub(crate) procs: Vec<&'a Proc>,
    pub(crate) numbers: Numbered<'a>,
    ghost numbers_are: { numbers ≡ procedure_texts (procedures_by procs.items) },
}

impl<'a> Listed<'a> {
    ghost use Rattle.std.specs.Prelude.{true, map, IfOk, IfErr};
    ghost use Rattle.std.specs.List.{position_from};
    ghost use Rattle.std.specs.Option.{option_map};
    ghost use Rattle.std.specs.Str.{bytes_eq};
    ghost use Rattle.boogie_tree.specs.View as view;
    ghost use Rattle.boogie_types.specs.Ties.Numbers.{IsTwiceFault};
    ghost use Rattle.boogie_types.specs.Resolved.{is_set};
    ghost use Rattle.boogie_types.specs.Sorted as sorted;

    /// Numbers the names in order; the first that stands there already is the fault.
    pub(crate) fn new(alloc: Global, procs: Vec<&'a Proc>) -> Result<Self, TypeFault>
        ensures procs { IfOk result (λ l. l.procs.items ≡ procs.entry.items) }
        ensures set { IfOk result (λ _. is_set (map (λ p. p.name) (procedures_by procs.entry.items)) ≡ true) }
        ensures fault { IfErr result (λ f. IsTwiceFault (map (λ p. p.name) (procedures_by procs.entry.items)) f) }
    {
        let names = names_of(alloc, &procs)?;
        let numbers = Numbered::new(alloc, names)?;
        Ok(Listed { procs, numbers })
    }

    /// The number of the first of that name.
    pub(crate) fn number(&self, name: &[u8]) -> Option<u32>
        ensures { result ≡ position_from (λ p. bytes_eq name.now p.name.text) 0 (procedures_by self.now.procs.items) }
    {
        self.numbers.place(name)
    }

    /// The first of that name.
    pub(crate) fn first_named(&self, name: &[u8]) -> Option<&'a Proc>
        ensures { option_map (λ p. view.procedure p.now) result ≡ sorted.first_named name.now (procedures_by self.now.procs.items) }
    {
        let number = self.number(name)?;
        self.procs.get(number as usize).copied()
    }
}
