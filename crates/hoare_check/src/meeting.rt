//! Whether a whole point meets a system.

ghost use Rattle.std.specs.Prelude.{ℕ, ℤ, IsTrue};
ghost use Rattle.lin_rows.specs.Points.{point_of};
ghost use Rattle.lin_rows.specs.Systems.{Meets, SomeMember};

use lin_rows::{System, all_hold};

/// Whether one of the points is seen to meet the system. The last ones, which often are of the same source, are tried first.
pub(crate) fn is_met_by_one(system: &System, points: &[Vec<i128>]) -> bool
    ensures { IsTrue result → (point : ℕ → ℤ) × Meets point system.now }
{
    for point in points.iter().rev() {
        if is_met(system, point) {
            return true;
        }
    }
    false
}

/// Whether the point with these values is seen to meet the system. It recurses as deep as groups are nested, as dropping a
/// system does.
#[cycle(meeting)]
pub(crate) fn is_met(system: &System, point: &[i128]) -> bool
    ensures { IsTrue result → Meets (point_of point.now) system.now }
{
    if !all_hold(&system.rows, point) {
        return false;
    }
    for group in &system.groups {
        if !has_met_member(group, point) {
            return false;
        }
    }
    true
}

/// Whether the point is seen to meet one of the members of a group.
#[cycle(meeting)]
fn has_met_member(members: &Vec<System>, point: &[i128]) -> bool
    ensures { IsTrue result → SomeMember (Meets (point_of point.now)) members.now.items }
{
    for member in members {
        if is_met(member, point) {
            return true;
        }
    }
    false
}
