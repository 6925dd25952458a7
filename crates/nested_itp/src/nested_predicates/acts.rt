//! The acts and frames of letters, and how many columns and bounds they have.

ghost use Rattle.std.specs.Prelude.{◌≡◌, Some, IsSome, filter, length};
ghost use Rattle.letter_acts.specs.Acts.{plain_act, act_of};
ghost use Rattle.letter_acts.specs.Frames.{is_local, is_variable};
ghost use Rattle.letter_acts.specs.Invariant.{alphabet_of};
ghost use Rattle.path_rows.specs.Versions.{local_columns, old_part};
ghost use Rattle.letter_acts.specs.FrameRows.Frames.{is_old};
ghost use Rattle.nested_itp.specs.NestedPredicates.Positions.{start_proc};
ghost use Rattle.nested_itp.specs.NestedPredicates.Walking.{is_bool, is_bool_at};

use boogie_tree::{Column, Ty, VarInfo};
use letter_acts::{Act, Icfg};
use nwa_base::Letter;

/// The act of a letter of the alphabet.
pub fn act_at(icfg: &Icfg, letter: Letter) -> &Act
    requires { IsSome (act_of (alphabet_of icfg.now) letter) }
    ensures { act_of (alphabet_of icfg.now) letter ≡ Some (plain_act result.now) }
{
    icfg.act_at(letter.id)
}

/// The procedure of the start.
pub fn start_proc(icfg: &Icfg) -> u32
    ensures { result ≡ start_proc icfg.now }
{
    let start = icfg.nwa().start();
    match icfg.place_procs().get(start as usize) {
        Some(proc) => *proc,
        None => 0,
    }
}

/// Whether the column is a parameter, a result or a local.
fn is_local(column: &(Column, VarInfo)) -> bool
    ensures { result ≡ is_local column.now }
{
    matches!(column.0, Column::Local(_))
}

/// Whether it is a global that may change.
fn is_variable(column: &(Column, VarInfo)) -> bool
    ensures { result ≡ is_variable column.now }
{
    matches!(column.0, Column::Global(_)) && !column.1.constant
}

/// Whether it is an old column.
fn is_old(column: &(Column, VarInfo)) -> bool
    ensures { result ≡ is_old column.now }
{
    matches!(column.0, Column::Old(_))
}

/// Whether it is a boolean.
pub fn is_bool(column: &(Column, VarInfo)) -> bool
    ensures { result ≡ is_bool column.now }
{
    matches!(column.1.ty, Ty::Bool)
}

/// Whether the column of this number is.
fn is_bool_at(frame: &[(Column, VarInfo)], column: u32) -> bool
    ensures { result ≡ is_bool_at frame.now column }
{
    match frame.get(column as usize) {
        Some(found) => is_bool(found),
        None => false,
    }
}

/// How many parameters, results and locals there are.
pub fn local_count(frame: &[(Column, VarInfo)]) -> usize
    ensures { result ≡ length (local_columns frame.now) }
{
    frame.iter().filter(|column| is_local(column)).count()
}

/// How many globals may change.
pub fn variable_count(frame: &[(Column, VarInfo)]) -> usize
    ensures { result ≡ length (filter is_variable frame.now) }
{
    frame.iter().filter(|column| is_variable(column)).count()
}

/// How many old columns.
pub fn old_count(frame: &[(Column, VarInfo)]) -> usize
    ensures { result ≡ length (old_part frame.now) }
{
    frame.iter().filter(|column| is_old(column)).count()
}

/// How many booleans.
pub fn bool_count(frame: &[(Column, VarInfo)]) -> usize
    ensures { result ≡ length (filter is_bool frame.now) }
{
    frame.iter().filter(|column| is_bool(column)).count()
}

/// How many booleans among the parameters, results and locals.
pub fn bool_local_count(frame: &[(Column, VarInfo)]) -> usize
    ensures { result ≡ length (filter is_bool (local_columns frame.now)) }
{
    frame
        .iter()
        .filter(|column| is_local(column))
        .filter(|column| is_bool(column))
        .count()
}

/// How many booleans among the old columns.
pub fn bool_old_count(frame: &[(Column, VarInfo)]) -> usize
    ensures { result ≡ length (filter is_bool (old_part frame.now)) }
{
    frame
        .iter()
        .filter(|column| is_old(column))
        .filter(|column| is_bool(column))
        .count()
}

/// How many of these columns are booleans.
pub fn bool_count_at(frame: &[(Column, VarInfo)], columns: &[u32]) -> usize
    ensures { result ≡ length (filter (is_bool_at frame.now) columns.now) }
{
    columns
        .iter()
        .filter(|column| is_bool_at(frame, **column))
        .count()
}
