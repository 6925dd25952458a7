//! What the answers of Decide are worth.

ghost use Rattle.std.specs.Prelude.{◌≡◌, ◌≤◌, ◌↔◌, ℕ, [], map};
ghost use Rattle.lin_rows.specs.declared.systems.System.{System};
ghost use Rattle.lin_rows.specs.Rows.{IsRow};
ghost use Rattle.lin_rows.specs.Systems.{rows_of, groups_of};
ghost use Rattle.lin_rows.specs.Tightening.{tightened};
ghost use Rattle.fm_elim.specs.Worth.{IsSolvable};
ghost use Rattle.int_decide.specs.Decide.{decide, decide_groups};
ghost use Rattle.int_decide.specs.Numbers.{GroupsFit};
ghost use Rattle.int_decide.specs.Sizes.{group_count, AllRows, SystemBelow};
ghost use Rattle.int_decide.specs.Worth.{IsWorth, IsRefuted};

/// What Decide answers is true of the system: a refutation refutes but for its own numbers, and a whole point meets the
/// system.
pub fn decisions_are_sound()
    ensures { (n d : ℕ) (s : System) → AllRows IsRow s → SystemBelow n s → IsWorth n d s (decide n d s) }
{}

/// More groups than a system has make no difference.
pub fn group_count_is_enough()
    ensures decision { (f n d : ℕ) (s : System) → group_count s ≤ f →
        decide_groups f n d (map tightened (rows_of s)) (groups_of s) ≡ decide n d s }
    ensures numbers { (f n d : ℕ) (s : System) → group_count s ≤ f →
        GroupsFit f n d (map tightened (rows_of s)) (groups_of s) ↔
        GroupsFit (group_count s) n d (map tightened (rows_of s)) (groups_of s) }
{}

/// At depth 0, rows without groups are refuted exactly where no rational point meets the tightened rows (Farkas, 1902).
pub fn rows_are_refuted_exactly()
    ensures { (n : ℕ) (s : System) → AllRows IsRow s → SystemBelow n s → groups_of s ≡ [] →
        IsRefuted (decide n 0 s) ↔ (IsSolvable (map tightened (rows_of s)) → ⊥) }
{}
