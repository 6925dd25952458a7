//! The coarse letters that triples name.

ghost use Rattle.std.specs.Prelude.{◌≡◌, ◌<◌, ◌^◌, ◌&&◌, ◌||◌, ◌++◌, ◌∷◌, [], ℕ, true, false, length, get_or, map, replicate, if◌then◌else◌, IfOk, OnOk};
ghost use Rattle.std.specs.List.{filter, range_with_len};
ghost use Rattle.letter_acts.specs.Invariant.{mark_at};
ghost use Rattle.proof_form.specs.Lines as lines;
ghost use Rattle.proof_names.specs.CoarseLines.CoarseLetters as spec;
ghost use Rattle.proof_names.specs.CoarseLines.CoarseLetters.{names_letter, is_told};

use crate::short_in;
use letter_acts::Icfg;
use proof_form::{Annotation, TripleLine};
use std::alloc::{AllocError, Global};

/// The letter that a triple's line names, if its number has 32 bits.
pub(crate) fn letter_named(triple: &TripleLine) -> Option<u32>
    ensures { result ≡ spec.letter_named (lines.triple triple.now) }
{
    match triple {
        TripleLine::Inside { letter, .. }
        | TripleLine::Call { letter, .. }
        | TripleLine::Back { letter, .. } => short_in(letter),
    }
}

/// Marks the letter that the triple names, if it is coarse.
fn mark(icfg: &Icfg, told: &mut Vec<bool>, triple: &TripleLine)
    requires { length told.old.items ≡ length icfg.now.acts }
    ensures size { length told.new.items ≡ length told.old.items }
    ensures marked { (n : ℕ) → get_or told.new.items n false ≡ (get_or told.old.items n false || (mark_at icfg.now n && names_letter n (lines.triple triple.now))) }
{
    let _acts = icfg.acts();
    let Some(letter) = letter_named(triple) else {
        return;
    };
    let place = letter as usize;
    if place < told.len() && icfg.is_coarse(letter) {
        told[place] = true;
    }
}

/// No mark for so many letters.
pub(crate) fn unmarked(alloc: Global, count: usize) -> Result<Vec<bool>, AllocError>
    ensures { IfOk result (λ v. v.items ≡ replicate count false) }
{
    vec![in alloc; false; count]
}

/// Of each letter of the graph whether it is coarse and one of the triples names it.
pub(crate) fn told_letters(
    alloc: Global,
    icfg: &Icfg,
    triples: &[TripleLine],
) -> Result<Vec<bool>, AllocError>
    ensures size { IfOk result (λ v. length v.items ≡ length icfg.now.acts) }
    ensures told { IfOk result (λ v. (n : ℕ) → get_or v.items n false ≡ is_told icfg.now (map lines.triple triples.now) n) }
{
    let mut told = unmarked(alloc, icfg.acts().len())?;
    for triple in triples {
        mark(icfg, &mut told, triple);
    }
    Ok(told)
}

/// Adds the number of the place, if it has a mark.
fn push_marked(places: &mut Vec<u32>, marks: &[bool], place: usize) -> Result<(), AllocError>
    requires within { place < length marks.now }
    requires small { get_or marks.now place false ≡ true → place < 2 ^ 32 }
    ensures { OnOk result (places.new.items ≡ (if get_or marks.now place false then places.old.items ++ place ∷ [] else places.old.items)) }
{
    if marks[place] {
        places.push(place as u32)?;
    }
    Ok(())
}

/// The numbers of the places with a mark.
fn marked_places(alloc: Global, marks: &[bool]) -> Result<Vec<u32>, AllocError>
    requires { (n : ℕ) → get_or marks.now n false ≡ true → n < 2 ^ 32 }
    ensures { IfOk result (λ v. v.items ≡ filter (λ n. get_or marks.now n false) (range_with_len 0 (length marks.now))) }
{
    let mut places = Vec::new(alloc);
    for place in 0..marks.len() {
        push_marked(&mut places, marks, place)?;
    }
    Ok(places)
}

/// The coarse letters that the triples of an annotation name, ascending, each once.
pub fn coarse_letters(
    alloc: Global,
    icfg: &Icfg,
    proof: &Annotation,
) -> Result<Vec<u32>, AllocError>
    ensures { IfOk result (λ v. v.items ≡ spec.coarse_letters icfg.now proof.now) }
{
    let _acts = icfg.acts();
    let told = told_letters(alloc, icfg, proof.triples())?;
    marked_places(alloc, &told)
}
