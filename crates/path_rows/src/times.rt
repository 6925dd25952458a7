//! Numbers that stand in a list many times.

ghost use Rattle.std.specs.Prelude.{◌≡◌, ◌++◌, OnOk};
ghost use Rattle.path_rows.specs.Paths.{repeated};

use std::alloc::AllocError;

/// Adds a number so many times.
pub fn add_times<N: Copy + Drop>(
    numbers: &mut Vec<N>,
    number: N,
    count: usize,
) -> Result<(), AllocError>
    ensures { OnOk result (numbers.new.items ≡ numbers.old.items ++ repeated number count) }
{
    for _i in 0..count {
        numbers.push(number)?;
    }
    Ok(())
}
