//! The rankings that spelled ones name.

ghost use Rattle.std.specs.Prelude.{◌≡◌, Some, IfOk, IfErr};
ghost use Rattle.std.specs.Option.{option_map};
ghost use Rattle.proof_names.specs.Predicates.{terms_ascend};
ghost use Rattle.proof_names.specs.ProofSpell.Nodes.{IsReadable};
ghost use Rattle.rank_lasso.specs.LassoRanks.Ranks.{plain_ranking};
ghost use Rattle.rank_lasso.specs.RankingText.{IsForm};
ghost use Rattle.rank_lasso.specs.Naming as spec;
ghost use Rattle.rank_lasso.specs.Ties.Forms.{plain_form, IsNameFault};

use crate::forms::Form;
use crate::lasso_ranks::{LassoFault, Ranking};
use boogie_tree::{Column, Text, VarInfo};
use letter_acts::Icfg;
use proof_form::Numeral;
use proof_names::{number_in, refutation_of, terms_named};
use std::alloc::{AllocError, Global};

/// The ranking over the frame of the entry procedure, or the first line that names what is not there.
pub(crate) fn named(alloc: Global, icfg: &Icfg, form: &Form) -> Result<Ranking, LassoFault>
    requires { IsForm (plain_form form.now) }
    ensures value { IfOk result (λ r. spec.ranking_named icfg.now (plain_form form.now) ≡ Some (plain_ranking r)) }
    ensures fault { IfErr result (IsNameFault icfg.now (plain_form form.now)) }
{
    match form {
        Form::Rank {
            terms,
            bound,
            falls,
            bounded,
        } => {
            let Some(terms) = form_named(alloc, entry_frame(icfg), terms)? else {
                return Err(LassoFault::BadName { line: 4 });
            };
            let Some(bound) = number_in(bound) else {
                return Err(LassoFault::BadName { line: 5 });
            };
            let Some(falls) = refutation_of(alloc, falls)? else {
                return Err(LassoFault::BadName { line: 6 });
            };
            let Some(bounded) = refutation_of(alloc, bounded)? else {
                return Err(LassoFault::BadName { line: 7 });
            };
            Ok(Ranking::Rank {
                terms,
                bound,
                falls,
                bounded,
            })
        }
        Form::Excluded(nodes) => {
            let Some(proof) = refutation_of(alloc, nodes)? else {
                return Err(LassoFault::BadName { line: 4 });
            };
            Ok(Ranking::Excluded(proof))
        }
    }
}

/// The columns of the procedure of place 0.
pub(crate) fn entry_frame(icfg: &Icfg) -> &[(Column, VarInfo)]
    ensures value { result.now ≡ spec.entry_frame icfg.now }
    ensures readable { IsReadable result.now }
{
    icfg.columns(icfg.place_procs().first().copied().unwrap_or(0))
}

/// The terms, if all are in the frame and in its order, and all coefficients fit.
fn form_named(
    alloc: Global,
    frame: &[(Column, VarInfo)],
    terms: &[(Numeral, Text)],
) -> Result<Option<Vec<(u32, i128)>>, AllocError>
    ensures { IfOk result (λ o. option_map (λ v. v.items) o ≡ spec.form_named frame.now terms.now) }
{
    let Some(terms) = terms_named(alloc, frame, terms)? else {
        return Ok(None);
    };
    if ascend(&terms) {
        Ok(Some(terms))
    } else {
        Ok(None)
    }
}

/// Whether each column stands before the next in the frame.
fn ascend(terms: &[(u32, i128)]) -> bool
    ensures { result ≡ terms_ascend terms.now }
{
    let mut least: u64 = 0;
    for term in terms {
        let column = u64::from(term.0);
        if column < least {
            return false;
        }
        least = column + 1;
    }
    true
}
