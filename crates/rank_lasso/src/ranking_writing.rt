//! Writes the texts of rankings.

ghost use Rattle.std.specs.Prelude.{◌≡◌, ◌<◌, ◌++◌, ◌∷◌, [], codes, length, map, IfOk, OnOk};
ghost use Rattle.std.specs.List.{AllByRecursion};
ghost use Rattle.std.specs.Fmt.{decimal};
ghost use Rattle.std.specs.String.{string_bytes};
ghost use Rattle.math_facts.specs.Fits.{Fits};
ghost use Rattle.proof_form.specs.Predicates.{term_text};
ghost use Rattle.proof_names.specs.ProofSpell.Nodes.{IsReadable, HasNumbers};
ghost use Rattle.rank_lasso.specs.LassoTurns.Claims.{IsFormOver};
ghost use Rattle.rank_lasso.specs.LassoRanks.Lassos.{plain_lasso};
ghost use Rattle.rank_lasso.specs.LassoRanks.Ranks.{plain_ranking};
ghost use Rattle.rank_lasso.specs.LassoText.{IsWritable, letters_line};
ghost use Rattle.rank_lasso.specs.RankingText.{rank_line, bound_line};
ghost use Rattle.rank_lasso.specs.Naming.{MayBeWritten};
ghost use Rattle.rank_lasso.specs.Lines.{line_text};
ghost use Rattle.rank_lasso.specs.Ties.Writing.{integer_form, term_form, IsSpelled, WritesProof, WritesEnding};
ghost use Rattle.rank_lasso.specs.Faults.{IsReadAs};

use crate::lasso_ranks::{Lasso, Ranking};
use crate::naming::entry_frame;
use boogie_tree::{Column, VarInfo};
use farkas_check::Refutation;
use letter_acts::Icfg;
use proof_form::write_ref;
use proof_names::proof_spell::{column_text, node_lines};
use std::alloc::{AllocError, Global};

/// The text of a ranking of a lasso whose loop has a letter or more. `read_ranking` reads the same again.
pub fn write_ranking(
    alloc: Global,
    icfg: &Icfg,
    lasso: &Lasso,
    ranking: &Ranking,
) -> Result<Vec<u8>, AllocError>
    requires lasso { IsWritable (plain_lasso lasso.now) }
    requires numbers { MayBeWritten icfg.now (plain_ranking ranking.now) }
    ensures { IfOk result (λ text. IsReadAs icfg.now text.items (plain_lasso lasso.now) (plain_ranking ranking.now)) }
{
    let mut text = way_text(alloc, lasso)?;
    push_ending(alloc, &mut text, icfg, ranking)?;
    Ok(text)
}

/// The lines of a ranking's text up to the loop.
fn way_text(alloc: Global, lasso: &Lasso) -> Result<Vec<u8>, AllocError>
    ensures { IfOk result (λ t. t.items ≡ (line_text (codes "ranking 1") [] ++ letters_line (codes "stem") lasso.now.stem.items) ++ letters_line (codes "loop") lasso.now.turn.items) }
{
    let mut text = String::from_str(alloc, "ranking 1\n")?;
    push_letters(&mut text, "stem", &lasso.stem)?;
    push_letters(&mut text, "loop", &lasso.turn)?;
    Ok(text.into_bytes())
}

/// Writes the line of the word and letters.
fn push_letters(text: &mut String, word: &str, letters: &[u32]) -> Result<(), AllocError>
    ensures { OnOk result (string_bytes text.new ≡ string_bytes text.old ++ letters_line word.now letters.now) }
{
    text.push_str(word)?;
    for letter in letters {
        push_letter(text, *letter)?;
    }
    text.push_str("\n")
}

fn push_letter(text: &mut String, letter: u32) -> Result<(), AllocError>
    ensures { OnOk result (string_bytes text.new ≡ string_bytes text.old ++ (32 ∷ decimal letter)) }
{
    write!(text, " {letter}")
}

/// Writes the lines behind the loop.
fn push_ending(
    alloc: Global,
    out: &mut Vec<u8>,
    icfg: &Icfg,
    ranking: &Ranking,
) -> Result<(), AllocError>
    requires { MayBeWritten icfg.now (plain_ranking ranking.now) }
    ensures { OnOk result (WritesEnding icfg.now (plain_ranking ranking.now) out.old.items out.new.items) }
{
    match ranking {
        Ranking::Rank {
            terms,
            bound,
            falls,
            bounded,
        } => {
            push_rank(alloc, out, entry_frame(icfg), terms)?;
            push_bound(alloc, out, *bound)?;
            push_proof(alloc, out, b"falls", falls)?;
            push_proof(alloc, out, b"bounded", bounded)?;
            out.extend_from_slice(b"end\n")
        }
        Ranking::Excluded(proof) => {
            push_proof(alloc, out, b"excluded", proof)?;
            out.extend_from_slice(b"end\n")
        }
    }
}

/// Writes the line of the terms of a rank.
fn push_rank(
    alloc: Global,
    out: &mut Vec<u8>,
    frame: &[(Column, VarInfo)],
    terms: &[(u32, i128)],
) -> Result<(), AllocError>
    requires readable { IsReadable frame.now }
    requires over { IsFormOver (length frame.now) terms.now }
    ensures written { OnOk result (out.new.items ≡ out.old.items ++ rank_line (map (term_form frame.now) terms.now)) }
    ensures spelled { OnOk result (AllByRecursion (IsSpelled frame.now) terms.now) }
{
    out.extend_from_slice(b"rank")?;
    for term in terms {
        push_term(alloc, out, frame, *term)?;
    }
    out.push(b'\n')?;
    Ok(())
}

/// Writes a coefficient and the name of its column, a space before each.
fn push_term(
    alloc: Global,
    out: &mut Vec<u8>,
    frame: &[(Column, VarInfo)],
    term: (u32, i128),
) -> Result<(), AllocError>
    requires readable { IsReadable frame.now }
    requires within { term.0 < length frame.now }
    requires fits { Fits term.1 }
    ensures written { OnOk result (out.new.items ≡ out.old.items ++ term_text (term_form frame.now term)) }
    ensures spelled { OnOk result (IsSpelled frame.now term) }
{
    let (column, coefficient) = term;
    let name = column_text(alloc, &frame[column as usize])?;
    let number = format!(in alloc; " {coefficient} ")?;
    out.extend_from_slice(number.as_bytes())?;
    out.extend_from_slice(name.bytes())
}

/// Writes the line of the bound of a rank.
fn push_bound(alloc: Global, out: &mut Vec<u8>, bound: i128) -> Result<(), AllocError>
    ensures { OnOk result (out.new.items ≡ out.old.items ++ bound_line (integer_form bound)) }
{
    let line = format!(in alloc; "bound {bound}\n")?;
    out.extend_from_slice(line.as_bytes())
}

/// Writes the line of the word and a refutation.
fn push_proof(
    alloc: Global,
    out: &mut Vec<u8>,
    word: &[u8],
    proof: &Refutation,
) -> Result<(), AllocError>
    requires { AllByRecursion HasNumbers proof.now }
    ensures { OnOk result (WritesProof word.now proof.now out.old.items out.new.items) }
{
    let nodes = node_lines(alloc, proof)?;
    let text = write_ref(alloc, &nodes)?;
    out.extend_from_slice(word)?;
    out.push(b' ')?;
    out.extend_from_slice(&text)?;
    out.push(b'\n')?;
    Ok(())
}
