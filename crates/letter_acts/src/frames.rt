ghost use Rattle.std.specs.Prelude.{◌≡◌, IfOk};

use boogie_tree::{Column, VarInfo};
use std::alloc::AllocError;

/// The columns of a procedure: the constants and globals, what those globals that may change had at its entry, and its
/// parameters, results and locals.
#[derive(Drop)]
pub struct Frame {
    /// Each column with what is known of it.
    pub columns: Vec<(Column, VarInfo)>,
}

impl Frame {
    /// An equal frame.
    pub fn copy(&self) -> Result<Self, AllocError>
        ensures { IfOk result (λ f. f.columns.items ≡ self.now.columns.items) }
    {
        let mut columns = Vec::with_capacity(*self.columns.allocator(), self.columns.len())?;
        for (column, info) in &self.columns {
            columns.push((*column, info.copy()?))?;
        }
        Ok(Frame { columns })
    }
}
