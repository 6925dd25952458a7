//! The way back: the columns set aside get their values, from the first to the last.

ghost use Rattle.std.specs.Prelude.{◌≡◌, [], length, map};
ghost use Rattle.fm_elim.specs.Answers.{Exactly, aside_of};
ghost use Rattle.fm_elim.specs.Ties.Climb.{climb, ClimbFits, SetColumns};
ghost use Rattle.fm_elim.specs.Elimination.{point};

use crate::types::{Aside, ElimFault};
use crate::values::value_of;
use frac::Frac;
use std::alloc::Global;

/// A value for each column, from what each left, the last column's first.
pub fn go_up(alloc: Global, columns: u32, asides: Vec<Aside>) -> Result<Vec<Frac>, ElimFault>
    requires height { length asides.items ≡ columns }
    requires set { SetColumns columns (map aside_of asides.items) }
    ensures { Exactly result (λ values. climb columns (map aside_of asides.items) (point []) ≡ point values.items)
        (ClimbFits columns (map aside_of asides.items) (point [])) }
{
    let mut asides = asides;
    let mut values = Vec::with_capacity(alloc, asides.len())?;
    let mut column = 0;
    while let Some(aside) = asides.pop() {
        let value = value_of(column, &values, &aside)?;
        values.push(value)?;
        column += 1;
    }
    Ok(values)
}
