//! Procedures and columns, found by their names.

ghost use Rattle.std.specs.Prelude.{◌≡◌, ◌^◌, [], ◌∷◌, bytes_eq, position, slice_get};
ghost use Rattle.proof_names.specs.Columns as spec;
ghost use Rattle.proof_names.specs.Numbers.{if_below};

use boogie_tree::{Column, Text, VarInfo};
use letter_acts::Icfg;

/// The letter before the colon that stands before the name of a column.
fn mark(column: Column) -> u8
    ensures { spec.mark column ≡ result ∷ 58 ∷ [] }
{
    match column {
        Column::Global(_) => b'g',
        Column::Old(_) => b'o',
        Column::Local(_) => b'l',
    }
}

/// Whether the text names the column.
fn is_named(column: &(Column, VarInfo), text: &[u8]) -> bool
    ensures { result ≡ bytes_eq (spec.column_text column.now) text.now }
{
    match text {
        [letter, b':', name @ ..] => { *letter == mark(column.0) && column.1.name.bytes() == name }
        _ => false,
    }
}

/// The place in the frame of the column that the text names.
fn column_place(frame: &[(Column, VarInfo)], text: &[u8]) -> Option<usize>
    ensures { result ≡ position (λ c. bytes_eq (spec.column_text c) text.now) frame.now }
{
    frame.iter().position(|column| is_named(column, text))
}

/// The number in 32 bits, if it fits them.
fn in_32_bits(place: usize) -> Option<u32>
    ensures { result ≡ if_below (2 ^ 32) place }
{
    match u32::try_from(place) {
        Ok(number) => Some(number),
        Err(_) => None,
    }
}

/// The number of the column of the frame that the text names: the first of that kind and name. `None` exactly where there is none,
/// or where its number has more than 32 bits.
pub fn column_named(frame: &[(Column, VarInfo)], text: &[u8]) -> Option<u32>
    ensures { result ≡ spec.column_named frame.now text.now }
{
    match column_place(frame, text) {
        Some(place) => in_32_bits(place),
        None => None,
    }
}

/// The place of the name among the names of procedures.
fn procedure_place(names: &[Text], name: &[u8]) -> Option<usize>
    ensures { result ≡ position (λ n. bytes_eq n name.now) names.now }
{
    names.iter().position(|other| other.bytes() == name)
}

/// Whether the procedure has a place where its body begins.
fn has_entry(entries: &[Option<u32>], place: usize) -> bool
    ensures { result ≡ spec.is_some_entry (slice_get entries.now place) }
{
    match entries.get(place) {
        Some(Some(_)) => true,
        _ => false,
    }
}

/// The procedure that the text names, if it has a body.
pub fn procedure_named(icfg: &Icfg, name: &[u8]) -> Option<u32>
    ensures { result ≡ spec.procedure_named icfg.now name.now }
{
    match procedure_place(icfg.names(), name) {
        Some(place) if has_entry(icfg.entries(), place) => in_32_bits(place),
        _ => None,
    }
}
