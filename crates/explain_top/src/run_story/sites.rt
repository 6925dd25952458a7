//! The item at which a step stands.

ghost use Rattle.std.specs.Prelude.{◌≡◌, List, map, slice_get};
ghost use Rattle.std.specs.Option.{option_map};
ghost use Rattle.boogie_tree.specs.Tree.{Declaration};
ghost use Rattle.typed_tree.specs.TypingRules.TypedParts.{typed_program};
ghost use Rattle.boogie_run.specs.RunView.{config_of, FitsProgram};
ghost use Rattle.explain_top.specs.RunStory.Items.{global_items, headings};
ghost use Rattle.explain_top.specs.RunStory.Sites as spec;
ghost use Rattle.explain_top.specs.RunStory.Seen.{item_of};
ghost use Rattle.explain_top.specs.RunStory.Tables.{IsTable, heading_of};

use crate::run_story::sources::{Source, Word};
use crate::run_story::tables::{Heading, Table};
use boogie_run::boogie_points::span_at;
use boogie_run::{Config, locals_at, running};
use boogie_tree::Span;
use typed_tree::typing_rules::Typed;

/// Where a local of that number is declared: in the head, or on a line of its own.
fn local_site<'a>(heading: Option<&Heading<'a>>, number: usize) -> Source<'a>
    ensures { item_of result ≡ spec.local_site (option_map (λ h. heading_of h.now) heading.entry) number }
{
    let Some(heading) = heading else {
        return Source::Nowhere;
    };
    let procedure = heading.procedure;
    if let Some(param) = procedure.params.get(number) {
        return Source::Head(param.name.span, procedure);
    }
    let number = number - procedure.params.len();
    if let Some(declared) = procedure.results.get(number) {
        return Source::Head(declared.name.span, procedure);
    }
    match heading.locals.get(number - procedure.results.len()) {
        Some(local) => Source::Variable(Word::Var, local),
        None => Source::Head(procedure.span, procedure),
    }
}

/// Where a procedure returns.
fn return_site<'a>(heading: Option<&Heading<'a>>) -> Source<'a>
    ensures { item_of result ≡ spec.return_site (option_map (λ h. heading_of h.now) heading.entry) }
{
    match heading {
        Some(heading) => Source::Return(heading.procedure),
        None => Source::Nowhere,
    }
}

/// The item that stands there.
pub(crate) fn item_at<'a>(table: &Table<'a>, at: Span) -> Source<'a>
    ensures { (ds : List Declaration) → IsTable ds table.now → item_of result ≡ spec.item_at ds at }
{
    match table.items.get(&at) {
        Some(found) => *found,
        None => Source::Nowhere,
    }
}

/// The constant or global of that number.
fn global_site<'a>(table: &Table<'a>, number: usize) -> Source<'a>
    ensures { (ds : List Declaration) → IsTable ds table.now → item_of result ≡ spec.or_nowhere (slice_get (global_items ds) number) }
{
    match table.globals.get(number) {
        Some(found) => *found,
        None => Source::Nowhere,
    }
}

/// The procedure of that number in a list.
fn listed_heading<'c, 'a>(headings: &'c [Heading<'a>], number: usize) -> Option<&'c Heading<'a>>
    ensures { option_map (λ h. heading_of h.now) result ≡ slice_get (map heading_of headings.now) number }
{
    headings.get(number)
}

/// The procedure of that number.
fn heading_at<'c, 'a>(table: &'c Table<'a>, number: usize) -> Option<&'c Heading<'a>>
    ensures { (ds : List Declaration) → IsTable ds table.now → option_map (λ h. heading_of h.now) result ≡ slice_get (headings ds) number }
{
    listed_heading(&table.procedures, number)
}

/// The item of a procedure at that place, or where the procedure returns.
pub(crate) fn site_at<'a>(table: &Table<'a>, proc: usize, at: Option<Span>) -> Source<'a>
    ensures { (ds : List Declaration) → IsTable ds table.now → item_of result ≡ spec.site_at ds proc at }
{
    match at {
        Some(at) => item_at(table, at),
        None => return_site(heading_at(table, proc)),
    }
}

/// The item at which the next step stands.
pub(crate) fn site<'a>(table: &Table<'a>, program: &Typed, config: &Config<'_>) -> Source<'a>
    requires { FitsProgram program.now config.now }
    ensures { (ds : List Declaration) → IsTable ds table.now → item_of result ≡ spec.site (typed_program program.now) ds (config_of config.now) }
{
    let chosen = config.globals().len();
    if chosen < program.globals().len() {
        return global_site(table, chosen);
    }
    let frame = running(program, config);
    let heading = heading_at(table, frame.proc() as usize);
    let chosen = frame.locals().len();
    if chosen < locals_at(program, frame.proc()).len() {
        return local_site(heading, chosen);
    }
    match span_at(program, frame.proc(), frame.point()) {
        Some(at) => item_at(table, at),
        None => return_site(heading),
    }
}
