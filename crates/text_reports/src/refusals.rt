//! The lines of programs that are refused.

ghost use Rattle.std.specs.Prelude.{◌≡◌, IfOk};
ghost use Rattle.std.specs.String.{string_bytes};
ghost use Rattle.text_reports.specs.Refusals.{what_name, which_name, refusal};
ghost use Rattle.text_reports.specs.TypeRefusals.{rule_line, type_refusal};

use boogie_parse::{Fault, What, Which};
use boogie_types::{Span, TypeFault};
use std::alloc::{AllocError, Global};

/// The name of a part of Boogie that is left out.
fn what_name(what: What) -> &'static str
    ensures { result.now ≡ what_name what }
{
    match what {
        What::Map => "map",
        What::Quantifier => "quantifier",
        What::Declaration => "declaration",
        What::Operator => "operator",
        What::Conditional => "conditional",
        What::Concurrency => "concurrency",
        What::Real => "real",
    }
}

/// The name of a limit.
fn which_name(which: Which) -> &'static str
    ensures { result.now ≡ which_name which }
{
    match which {
        Which::Literal => "literal",
        Which::Nesting => "nesting",
        Which::Procedures => "procedures",
        Which::Variables => "variables",
    }
}

/// The line of a refused program; empty for want of memory, which no refused program has.
pub(crate) fn refusal_text(alloc: Global, fault: &Fault) -> Result<String, AllocError>
    ensures { IfOk result (λ text. string_bytes text ≡ refusal fault.now) }
{
    match fault {
        Fault::Syntax { line, col } => format!(in alloc; "refused Syntax {line} {col}\n"),
        Fault::Unsupported { what, line, col } => {
            let name = what_name(*what);
            format!(in alloc; "refused Unsupported {name} {line} {col}\n")
        }
        Fault::Limit { which, line, col } => {
            let name = which_name(*which);
            format!(in alloc; "refused Limit {name} {line} {col}\n")
        }
        Fault::Memory => Ok(String::new(alloc)),
    }
}

/// The line of a program that breaks a rule there: `refused`, the rule, the line and the column, both counted from 1. The one error is want of memory.
pub fn rule_line(alloc: Global, rule: &str, at: Span) -> Result<String, AllocError>
    ensures { IfOk result (λ text. string_bytes text ≡ rule_line rule.now at) }
{
    let Span { line, col } = at;
    format!(in alloc; "refused {rule} {line} {col}\n")
}

/// The line of a program that breaks a typing rule; empty for want of memory, which breaks none.
pub(crate) fn type_refusal_text(alloc: Global, fault: &TypeFault) -> Result<String, AllocError>
    ensures { IfOk result (λ text. string_bytes text ≡ type_refusal fault.now) }
{
    match fault {
        TypeFault::Unknown(at) => rule_line(alloc, "Unknown", *at),
        TypeFault::Twice(at) => rule_line(alloc, "Twice", *at),
        TypeFault::Mismatch(at) => rule_line(alloc, "Mismatch", *at),
        TypeFault::NotAssignable(at) => rule_line(alloc, "NotAssignable", *at),
        TypeFault::NotModified(at) => rule_line(alloc, "NotModified", *at),
        TypeFault::NoEntry => rule_line(alloc, "NoEntry", Span { line: 1, col: 1 }),
        TypeFault::ZeroDivisor(at) => rule_line(alloc, "ZeroDivisor", *at),
        TypeFault::NonLinear(at) => rule_line(alloc, "NonLinear", *at),
        TypeFault::BadGoto(at) => rule_line(alloc, "BadGoto", *at),
        TypeFault::TooBig(at) => rule_line(alloc, "TooBig", *at),
        TypeFault::Memory => Ok(String::new(alloc)),
    }
}
