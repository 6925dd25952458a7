ghost use Rattle.std.specs.Prelude.{◌≡◌, IfOk};
ghost use Rattle.std.specs.List.{AllByRecursion};
ghost use Rattle.lin_rows.specs.Rows.{IsRow};
ghost use Rattle.lin_rows.specs.Systems.{IsCopy, RelatedInPairs};

use crate::types::Row;
use std::alloc::{AllocError, Global};

/// Rows that all hold, and groups of systems: of each group a member holds.
#[derive(Drop)]
pub struct System {
    /// The rows, all of which hold.
    pub rows: Vec<Row>,
    /// The groups, of each of which a member holds.
    pub groups: Vec<Vec<System>>,
}

impl System {
    ghost use Rattle.lin_rows.specs.Systems.{IsCopy};

    /// A system that says the same. It recurses as deep as groups are nested, as dropping a system does.
    #[cycle(copying)]
    pub fn copy(&self) -> Result<Self, AllocError>
        ensures { IfOk result (IsCopy self.now) }
    {
        let rows = copied_rows(*self.rows.allocator(), &self.rows)?;
        let mut groups = Vec::new(*self.groups.allocator());
        for group in &self.groups {
            groups.push(copied_members(group)?)?;
        }
        Ok(System { rows, groups })
    }
}

/// Equal rows.
pub fn copied_rows(alloc: Global, rows: &[Row]) -> Result<Vec<Row>, AllocError>
    ensures value { IfOk result (λ copies. copies.items ≡ rows.now) }
    ensures valid { IfOk result (λ copies. AllByRecursion IsRow copies.items) }
{
    let mut copies = Vec::with_capacity(alloc, rows.len())?;
    for row in rows {
        copies.push(row.copy()?)?;
    }
    Ok(copies)
}

/// A copy of each member.
#[cycle(copying)]
fn copied_members(members: &Vec<System>) -> Result<Vec<System>, AllocError>
    ensures { IfOk result (λ copies. RelatedInPairs IsCopy members.now.items copies.items) }
{
    let mut copies = Vec::with_capacity(*members.allocator(), members.len())?;
    for member in members {
        copies.push(member.copy()?)?;
    }
    Ok(copies)
}
