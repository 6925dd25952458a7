//! Labels at the end of a block.

ghost use Rattle.std.specs.Prelude.{◌≡◌, ℕ, map, drop, nat_le};
ghost use Rattle.std.specs.List.{list_all};
ghost use Rattle.typed_tree.specs.TypedView as view;
ghost use Rattle.boogie_run.specs.BoogiePoints.Stacks.{is_label};

use crate::program_layout::is_label;
use typed_tree::TStmt;

/// How many statements of a block stand before the labels at its end.
pub fn before_last_labels(block: &[TStmt]) -> usize
    ensures { (k : ℕ) → list_all is_label (map view.statement (drop k block.now)) ≡ nat_le result k }
{
    let mut count = block.len();
    while count > 0 {
        if !is_label(&block[count - 1]) {
            return count;
        }
        count -= 1;
    }
    count
}
