ghost use Rattle.std.specs.Prelude.{◌≡◌, [], OnOk};
ghost use Rattle.lin_rows.specs.Systems.{rows_of, groups_of, members_of};

use lin_rows::{Row, System, system};
use std::alloc::{AllocError, Global};

/// The rows and groups of a system that is put together.
#[derive(Drop)]
pub(crate) struct Draft {
    pub(crate) rows: Vec<Row>,
    pub(crate) groups: Vec<Vec<System>>,
}

impl Draft {
    ghost use Rattle.triple_rows.specs.Systems.{only_rows};
    ghost use Rattle.triple_rows.specs.Ties.Drafts.{Adds};

    /// A draft without rows and groups.
    pub(crate) fn new(alloc: Global) -> Self
        ensures rows { result.rows.items ≡ [] }
        ensures groups { result.groups.items ≡ [] }
    {
        Draft {
            rows: Vec::new(alloc),
            groups: Vec::new(alloc),
        }
    }

    /// Adds rows.
    pub(crate) fn add_rows(&mut self, mut rows: Vec<Row>) -> Result<(), AllocError>
        ensures { OnOk result (Adds (only_rows rows.items) self.old self.new) }
    {
        self.rows.append(&mut rows)?;
        Ok(())
    }

    /// The system of these rows and groups.
    pub(crate) fn finish(self) -> System
        ensures rows { rows_of result ≡ self.rows.items }
        ensures groups { groups_of result ≡ members_of self.groups.items }
    {
        system(self.rows, self.groups)
    }
}
