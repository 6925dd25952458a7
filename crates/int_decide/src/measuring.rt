//! How large a system is: the test of what `plain` and `decide` ask of their callers.

ghost use Rattle.std.specs.Prelude.{◌≡◌, ◌≤◌, ◌^◌, suc, MatchBool, MatchOption};
ghost use Rattle.std.specs.List.{AllByRecursion};
ghost use Rattle.math_facts.specs.Terms.{IsBelow};
ghost use Rattle.lin_rows.specs.Rows.{RowsBelow};
ghost use Rattle.int_decide.specs.Sizes.{total, extent, SystemBelow};

use lin_rows::{Row, System};

/// How many rows and members a system has, those of its members counted, where all its columns are below `columns`: what the
/// conditions of `plain` and `decide` ask. `None` where a column is not below, or where there are 2^32 or more. It recurses
/// as deep as groups are nested, as dropping a system does.
#[cycle(measuring)]
pub fn measure(system: &System, columns: u32) -> Option<u32>
    ensures { MatchOption result
        (SystemBelow columns system.now → 2 ^ 32 ≤ extent system.now)
        (λ n. SystemBelow columns system.now × (extent system.now ≡ n)) }
{
    if !are_below(&system.rows, columns) {
        return None;
    }
    let mut sum = u32::try_from(system.rows.len()).ok()?;
    for group in &system.groups {
        sum = sum.checked_add(measure_members(group, columns)?)?;
    }
    Some(sum)
}

/// The same of the members of a group, which count themselves, too.
#[cycle(measuring)]
fn measure_members(members: &Vec<System>, columns: u32) -> Option<u32>
    ensures { MatchOption result
        (AllByRecursion (SystemBelow columns) members.now.items → 2 ^ 32 ≤ total (λ m. suc (extent m)) members.now.items)
        (λ n. AllByRecursion (SystemBelow columns) members.now.items × (total (λ m. suc (extent m)) members.now.items ≡ n)) }
{
    let mut sum = 0u32;
    for member in members {
        sum = sum.checked_add(measure(member, columns)?)?.checked_add(1)?;
    }
    Some(sum)
}

/// Whether all columns of the rows are below the number given.
fn are_below(rows: &[Row], columns: u32) -> bool
    ensures { MatchBool result (RowsBelow columns rows.now) (RowsBelow columns rows.now → ⊥) }
{
    for row in rows {
        if !is_below(row, columns) {
            return false;
        }
    }
    true
}

/// Whether all columns of the row are below the number given.
fn is_below(row: &Row, columns: u32) -> bool
    ensures { MatchBool result (IsBelow columns row.now.terms) (IsBelow columns row.now.terms → ⊥) }
{
    for (column, _) in row.terms() {
        if *column >= columns {
            return false;
        }
    }
    true
}
