//! The start of reading.

ghost use Rattle.std.specs.Prelude.{◌≡◌, [], IfOk};

use crate::kept::Det;
use nwa_base::Nwa;
use std::alloc::{AllocError, Global};

/// Reads words in this automaton. No set is kept yet.
pub fn det(alloc: Global, nwa: &Nwa) -> Result<Det<'_>, AllocError>
    ensures { IfOk result (λ d. d ≡ record { nwa = nwa.now; sets = [] }) }
{
    Ok(Det::new(alloc, nwa))
}
