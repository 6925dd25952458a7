//! Rankings of lassos: looked for, and checked.

ghost use Rattle.std.specs.Prelude.{◌≡◌, ◌≢◌, ◌≤◌, List, ℕ, length, Err, IfOk, IfSome};
ghost use Rattle.outer_io.specs.Faults.{Rose};
ghost use Rattle.outer_io.specs.Texts.{text_named};
ghost use Rattle.rank_lasso.specs.declared.lasso_ranks.lassos.LassoFault.TheVariants.{Memory};
ghost use Rattle.rank_lasso.specs.LassoRanks.Lassos.{plain_lasso, IsLassoOf};
ghost use Rattle.rank_lasso.specs.LassoRanks.Ranks.{plain_ranking, IsRankingOver};
ghost use Rattle.rank_lasso.specs.LassoText.{IsWritable};
ghost use Rattle.rank_lasso.specs.Faults.{IsReadAs};
ghost use Rattle.text_reports.specs.Answers.{answer_of};
ghost use Rattle.automizer_top.specs.Ties.Answers.{answered, TextIsGraph};
ghost use Rattle.text_reports.specs.ReportTexts.{failed_answer};
ghost use Rattle.automizer_top.specs.ReportTexts.{fault_answer};
ghost use Rattle.automizer_top.specs.Report.{ReportsSecond};
ghost use Rattle.automizer_top.specs.Rankings.{ReportsSearch, ReportsLassoText, ReportsLasso, ReportsRankingText, ReportsRanked};

use crate::answer::Answer;
use crate::words::Options;
use letter_acts::Icfg;
use outer_io::Shelf;
use proof_check::RejectCause;
use rank_lasso::{
    Lasso, LassoFault, Ranked, Ranking, check_rank, placed, rank, read_lasso, read_ranking,
    write_ranking,
};
use std::alloc::{AllocError, Global};
use text_reports::{Halt, PROGRAM_LIMIT, SECOND_LIMIT, TextAnswer, lowered_text, text_within};

/// What is answered where this cause is found at this line.
fn rejected(line: u64, cause: RejectCause) -> TextAnswer
    ensures { answer_of result ≡ failed_answer line cause }
{
    TextAnswer::Rejected {
        line: u128::from(line),
        cause,
    }
}

/// What is answered to a text that is none of a lasso or a ranking, or whose letters make no lasso.
fn faulty(fault: LassoFault) -> Result<TextAnswer, AllocError>
    ensures answer { IfOk result (λ a. answer_of a ≡ fault_answer fault) }
    ensures no_memory { IfOk result (λ a. fault ≢ Memory) }
{
    match fault {
        LassoFault::Syntax { line } => Ok(TextAnswer::Syntax {
            line: u128::from(line),
        }),
        LassoFault::BadName { line } => Ok(rejected(line, RejectCause::BadName)),
        LassoFault::BadStep { line } => Ok(rejected(line, RejectCause::BadStep)),
        LassoFault::Memory => Err(AllocError),
    }
}

/// What is answered to a lasso of a graph.
fn sought(alloc: Global, icfg: &Icfg, lasso: &Lasso, depth: u32) -> Result<Answer, AllocError>
    requires writable { IsWritable (plain_lasso lasso.now) }
    requires placed { IsLassoOf icfg.now (plain_lasso lasso.now) }
    ensures { IfOk result (λ a. ReportsSearch depth icfg.now (plain_lasso lasso.now) (answered a)) }
{
    match rank(alloc, icfg, lasso, depth)? {
        Ranked::Found(ranking) => {
            let text = write_ranking(alloc, icfg, lasso, &ranking)?;
            Ok(Answer::Ranking(text))
        }
        Ranked::NoRank => Ok(Answer::NoRanking),
        Ranked::Number => Ok(Answer::NoNumber),
    }
}

/// What is answered to a graph and to the text of a lasso.
fn sought_by(alloc: Global, icfg: &Icfg, text: &[u8], depth: u32) -> Result<Answer, AllocError>
    requires { length text.now ≤ SECOND_LIMIT }
    ensures { IfOk result (λ a. ReportsLassoText depth icfg.now text.now (answered a)) }
{
    let lasso = match read_lasso(alloc, text) {
        Ok(lasso) => lasso,
        Err(fault) => return Ok(Answer::OnText(faulty(fault)?)),
    };
    match placed(alloc, icfg, &lasso) {
        Ok(()) => sought(alloc, icfg, &lasso, depth),
        Err(fault) => Ok(Answer::OnText(faulty(fault)?)),
    }
}

/// What is answered to a graph and to the lasso in the text of that name.
fn sought_within<H: Shelf>(
    alloc: Global,
    shelf: &mut H,
    icfg: &Icfg,
    second: &str,
    depth: u32,
) -> Result<Answer, Halt>
    ensures texts { H.texts shelf.new ≡ H.texts shelf.old }
    ensures reported { IfOk result (λ a. IfSome (H.texts shelf.old) (λ shown.
        ReportsSecond (text_named second.now shown) (ReportsLassoText depth icfg.now) (answered a))) }
    ensures no_usage { IfOk result (λ a. (answered a).status ≢ 4) }
    ensures fault { result ≡ Err Halt.Fault → Rose (H.faults shelf.old) (H.faults shelf.new) }
    ensures no_fault { result ≢ Err Halt.Fault → H.faults shelf.new ≡ H.faults shelf.old }
    ensures never_falls { H.faults shelf.old ≤ H.faults shelf.new }
{
    let Some(lasso) = text_within(alloc, shelf, second, SECOND_LIMIT)? else {
        return Ok(Answer::OnText(TextAnswer::TooLong));
    };
    Ok(sought_by(alloc, icfg, &lasso, depth)?)
}

/// What is answered to a program text and to the lasso in the text of that name.
pub(crate) fn found<H: Shelf>(
    alloc: Global,
    shelf: &mut H,
    text: &[u8],
    second: &str,
    options: &Options<'_>,
) -> Result<Answer, Halt>
    requires { length text.now ≤ PROGRAM_LIMIT }
    ensures texts { H.texts shelf.new ≡ H.texts shelf.old }
    ensures reported { IfOk result (λ a. IfSome (H.texts shelf.old) (λ shown.
        ReportsLasso options.now.entry.now options.now.limits.depth text.now (text_named second.now shown) (answered a))) }
    ensures graph { IfOk result (λ a. (answered a).status ≡ 0 → TextIsGraph options.now.entry.now text.now) }
    ensures no_usage { IfOk result (λ a. (answered a).status ≢ 4) }
    ensures fault { result ≡ Err Halt.Fault → Rose (H.faults shelf.old) (H.faults shelf.new) }
    ensures no_fault { result ≢ Err Halt.Fault → H.faults shelf.new ≡ H.faults shelf.old }
    ensures never_falls { H.faults shelf.old ≤ H.faults shelf.new }
{
    match lowered_text(alloc, text, options.entry)? {
        Ok(icfg) => sought_within(alloc, shelf, &icfg, second, options.limits.depth),
        Err(answer) => Ok(Answer::OnText(answer)),
    }
}

/// What is answered to a graph, a lasso of it and its ranking.
fn held(
    alloc: Global,
    icfg: &Icfg,
    lasso: &Lasso,
    ranking: &Ranking,
) -> Result<TextAnswer, AllocError>
    requires placed { IsLassoOf icfg.now (plain_lasso lasso.now) }
    requires over { IsRankingOver icfg.now (plain_ranking ranking.now) }
    ensures { (text : List ℕ) → IsReadAs icfg.now text (plain_lasso lasso.now) (plain_ranking ranking.now) →
        IfOk result (λ a. ReportsRankingText icfg.now text (answer_of a)) }
{
    match check_rank(alloc, icfg, lasso, ranking)? {
        None => Ok(TextAnswer::Accepted),
        Some(line) => Ok(rejected(line, RejectCause::BadTriple)),
    }
}

/// What is answered to a graph and to the text of a ranking.
fn held_by(alloc: Global, icfg: &Icfg, text: &[u8]) -> Result<TextAnswer, AllocError>
    requires { length text.now ≤ SECOND_LIMIT }
    ensures { IfOk result (λ a. ReportsRankingText icfg.now text.now (answer_of a)) }
{
    let (lasso, ranking) = match read_ranking(alloc, icfg, text) {
        Ok(read) => read,
        Err(fault) => return faulty(fault),
    };
    match placed(alloc, icfg, &lasso) {
        Ok(()) => held(alloc, icfg, &lasso, &ranking),
        Err(fault) => faulty(fault),
    }
}

/// What is answered to a graph and to the ranking in the text of that name.
fn held_within<H: Shelf>(
    alloc: Global,
    shelf: &mut H,
    icfg: &Icfg,
    second: &str,
) -> Result<TextAnswer, Halt>
    ensures texts { H.texts shelf.new ≡ H.texts shelf.old }
    ensures reported { IfOk result (λ a. IfSome (H.texts shelf.old) (λ shown.
        ReportsSecond (text_named second.now shown) (ReportsRankingText icfg.now) (answer_of a))) }
    ensures fault { result ≡ Err Halt.Fault → Rose (H.faults shelf.old) (H.faults shelf.new) }
    ensures no_fault { result ≢ Err Halt.Fault → H.faults shelf.new ≡ H.faults shelf.old }
    ensures never_falls { H.faults shelf.old ≤ H.faults shelf.new }
{
    let Some(ranking) = text_within(alloc, shelf, second, SECOND_LIMIT)? else {
        return Ok(TextAnswer::TooLong);
    };
    Ok(held_by(alloc, icfg, &ranking)?)
}

/// What is answered to a program text and to the ranking in the text of that name.
pub(crate) fn checked<H: Shelf>(
    alloc: Global,
    shelf: &mut H,
    text: &[u8],
    second: &str,
    entry: &str,
) -> Result<TextAnswer, Halt>
    requires { length text.now ≤ PROGRAM_LIMIT }
    ensures texts { H.texts shelf.new ≡ H.texts shelf.old }
    ensures reported { IfOk result (λ a. IfSome (H.texts shelf.old) (λ shown.
        ReportsRanked entry.now text.now (text_named second.now shown) (answer_of a))) }
    ensures graph { IfOk result (λ a. (answer_of a).status ≡ 0 → TextIsGraph entry.now text.now) }
    ensures fault { result ≡ Err Halt.Fault → Rose (H.faults shelf.old) (H.faults shelf.new) }
    ensures no_fault { result ≢ Err Halt.Fault → H.faults shelf.new ≡ H.faults shelf.old }
    ensures never_falls { H.faults shelf.old ≤ H.faults shelf.new }
{
    match lowered_text(alloc, text, entry)? {
        Ok(icfg) => held_within(alloc, shelf, &icfg, second),
        Err(answer) => Ok(answer),
    }
}
