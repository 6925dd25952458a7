//! What names mean at a place.

ghost use Rattle.std.specs.Prelude.{◌≡◌, map, take, length, IfOk};
ghost use Rattle.typed_tree.specs.Scope.{seen};
ghost use Rattle.boogie_types.specs.Meanings.{number_from, column_of, if_visible};
ghost use Rattle.std.specs.Prelude.{option_and_then};
ghost use Rattle.boogie_types.specs.Ties.Numbers.{info_names, if_below};

use crate::numbered::Numbered;
use typed_tree::{Column, Scope};

/// What is seen at a place, with the numbers of the names.
#[derive(Clone, Copy)]
pub(crate) struct Names<'a, 'b> {
    /// The constants and globals.
    pub(crate) globals: &'b Numbered<'a>,
    /// All locals of the procedure, of which the first are seen.
    pub(crate) locals: &'b Numbered<'a>,
    /// What is seen.
    pub(crate) scope: Scope<'b>,
    ghost globals_are: { globals.now ≡ info_names scope.globals.now },
    ghost locals_are: { take (length scope.locals.now) locals.now ≡ info_names scope.locals.now },
}

/// The number, where it is below the count.
fn below(count: usize, number: Option<u32>) -> Option<u32>
    ensures { result ≡ if_below count number }
{
    match number {
        Some(number) if (number as usize) < count => Some(number),
        Some(_) | None => None,
    }
}

impl Names<'_, '_> {
    /// The number of a local that is seen.
    #[tactic(auto, using(crate::proofs::SeenNames::seen_number))]
    fn local(&self, name: &[u8]) -> Option<u32>
        ensures { result ≡ number_from 0 name.now self.now.scope.locals.now }
    {
        below(self.scope.locals.len(), self.locals.place(name))
    }

    /// The number of a constant or global.
    #[tactic(auto, using(crate::proofs::SeenNames::number_is_place))]
    fn global(&self, name: &[u8]) -> Option<u32>
        ensures { result ≡ number_from 0 name.now self.now.scope.globals.now }
    {
        self.globals.place(name)
    }

    /// The column of a constant or global that is seen.
    fn visible(&self, number: u32) -> Option<Column>
        ensures { result ≡ if_visible (seen self.now.scope) number }
    {
        let info = self.scope.globals.get(number as usize)?;
        if self.scope.variables || info.constant {
            Some(Column::Global(number))
        } else {
            None
        }
    }

    /// The column that a name means; none where it means nothing here.
    pub(crate) fn column(&self, name: &[u8]) -> Option<Column>
        ensures { result ≡ column_of (seen self.now.scope) name.now }
    {
        match self.local(name) {
            Some(number) => Some(Column::Local(number)),
            None => self.global_column(name),
        }
    }

    /// The column of the constant or global of a name that is seen.
    fn global_column(&self, name: &[u8]) -> Option<Column>
        ensures { result ≡ option_and_then (if_visible (seen self.now.scope)) (number_from 0 name.now self.now.scope.globals.now) }
    {
        let number = self.global(name)?;
        self.visible(number)
    }
}
