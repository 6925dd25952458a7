//! The lines that an annotation has are compared with those that its triples ask for.

ghost use Rattle.std.specs.Prelude.{◌≡◌, ◌<◌, ℕ, List, None, Some, Err, true, false, length, get_or, set, map, nat_eq, IfOk, OnOk};
ghost use Rattle.std.specs.List.{list_any, position_from};
ghost use Rattle.proof_form.specs.Lines as lines;
ghost use Rattle.proof_names.specs.declared.coarse_lines.fault.CoarseFault.TheVariants as CoarseFault;
ghost use Rattle.proof_names.specs.CoarseLines.CoarseLetters as spec;
ghost use Rattle.proof_names.specs.CoarseLines.CoarseLetters.{first_wrong_from, lacks_line};

use crate::coarse_lines::fault::CoarseFault;
use crate::coarse_lines::letters::{letter_named, told_letters, unmarked};
use letter_acts::Icfg;
use proof_form::{Annotation, TripleLine};
use std::alloc::{AllocError, Global};

/// Whether there is a mark at the place.
fn is_marked(marks: &[bool], place: usize) -> bool
    ensures { result ≡ get_or marks.now place false }
{
    place < marks.len() && marks[place]
}

/// The place of the first line whose letter has no mark or is not greater than that of the line before.
fn first_wrong(marks: &[bool], coarse: &[u32]) -> Option<usize>
    ensures { result ≡ first_wrong_from (λ n. get_or marks.now n false) 0 0 coarse.now }
{
    let mut low: u64 = 0;
    for place in 0..coarse.len() {
        let letter = u64::from(coarse[place]);
        if letter < low {
            return Some(place);
        }
        if !is_marked(marks, letter as usize) {
            return Some(place);
        }
        low = letter + 1;
    }
    None
}

/// Marks the letter, if it is one of those there.
fn mark(lined: &mut Vec<bool>, letter: u32)
    ensures { lined.new.items ≡ set lined.old.items letter true }
{
    let place = letter as usize;
    if place < lined.len() {
        lined[place] = true;
    }
}

/// A mark at each letter that has a line, among so many letters.
fn lined_letters(alloc: Global, count: usize, coarse: &[u32]) -> Result<Vec<bool>, AllocError>
    ensures size { IfOk result (λ v. length v.items ≡ count) }
    ensures marks { IfOk result (λ v. (n : ℕ) → n < count → get_or v.items n false ≡ list_any (nat_eq n) coarse.now) }
{
    let mut lined = unmarked(alloc, count)?;
    for letter in coarse {
        mark(&mut lined, *letter);
    }
    Ok(lined)
}

/// Whether the letter of the triple is coarse and has no line.
fn lacks_line(icfg: &Icfg, lined: &[bool], triple: &TripleLine) -> bool
    requires { length lined.now ≡ length icfg.now.acts }
    ensures { (coarse : List ℕ) → ((n : ℕ) → n < length lined.now → get_or lined.now n false ≡ list_any (nat_eq n) coarse) →
        result ≡ lacks_line icfg.now coarse (spec.letter_named (lines.triple triple.now)) }
{
    let _acts = icfg.acts();
    match letter_named(triple) {
        Some(letter) => {
            let place = letter as usize;
            place < lined.len() && icfg.is_coarse(letter) && !lined[place]
        }
        None => false,
    }
}

/// The place of the first triple whose letter is coarse and has no line.
fn first_missing(
    alloc: Global,
    icfg: &Icfg,
    coarse: &[u32],
    triples: &[TripleLine],
) -> Result<Option<usize>, AllocError>
    ensures { IfOk result (λ o. o ≡ position_from (λ t. lacks_line icfg.now coarse.now (spec.letter_named t)) 0 (map lines.triple triples.now)) }
{
    let lined = lined_letters(alloc, icfg.acts().len(), coarse)?;
    for place in 0..triples.len() {
        if lacks_line(icfg, &lined, &triples[place]) {
            return Ok(Some(place));
        }
    }
    Ok(None)
}

/// The place of the first coarse line that is wrong.
fn wrong_line(
    alloc: Global,
    icfg: &Icfg,
    coarse: &[u32],
    proof: &Annotation,
) -> Result<Option<usize>, AllocError>
    ensures { IfOk result (λ o. o ≡ spec.first_wrong icfg.now coarse.now proof.now) }
{
    let told = told_letters(alloc, icfg, proof.triples())?;
    Ok(first_wrong(&told, coarse))
}

/// Compares the coarse lines of an annotation with the coarse letters that its triples name. `Ok` comes exactly where they are the same, want of
/// memory apart; else the first wrong line is told, or where no line is wrong the first triple that lacks one.
pub fn compared(
    alloc: Global,
    icfg: &Icfg,
    coarse: &[u32],
    proof: &Annotation,
) -> Result<(), CoarseFault>
    ensures same { OnOk result (coarse.now ≡ spec.coarse_letters icfg.now proof.now) }
    ensures line { (k : ℕ) → result ≡ Err (CoarseFault.Line k) → spec.first_wrong icfg.now coarse.now proof.now ≡ Some k }
    ensures triple { (k : ℕ) → result ≡ Err (CoarseFault.Triple k) →
        (spec.first_wrong icfg.now coarse.now proof.now ≡ None) × (spec.first_missing icfg.now coarse.now proof.now ≡ Some k) }
{
    if let Some(place) = wrong_line(alloc, icfg, coarse, proof)? {
        return Err(CoarseFault::Line(place));
    }
    match first_missing(alloc, icfg, coarse, proof.triples())? {
        Some(place) => Err(CoarseFault::Triple(place)),
        None => Ok(()),
    }
}
