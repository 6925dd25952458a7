//! Variables with their types, parameters and results.

ghost use Rattle.std.specs.Prelude.{◌≡◌, IfOk};
ghost use Rattle.boogie_parse.specs.Rules.GrammarLists as grammar;
ghost use Rattle.boogie_parse.specs.Reading.ListReading as spec;
ghost use Rattle.boogie_parse.specs.Reading.ListViews.{Gives, found, same, items};

use super::lists::seen;
use super::parser::Parser;
use crate::fault::Fault;
use crate::symbols::{Fixed, Sign, Symbol};
use boogie_tree::{Name, Ty, Vary};
use std::alloc::{AllocFailed, Global};

/// So many parentheses may be open at once.
pub(crate) const PARENTHESES: u8 = 200;

/// The type that a symbol says.
fn type_said(sign: &Sign) -> Option<Ty>
    ensures { result ≡ spec.type_said sign.now }
{
    match sign {
        Sign::Fixed(Fixed::Int) => Some(Ty::Int),
        Sign::Fixed(Fixed::Bool) => Some(Ty::Bool),
        _ => None,
    }
}

/// Variables of one type, by their names.
fn of_type(alloc: Global, ty: Ty, names: Vec<Name>) -> Result<Vec<Vary>, AllocFailed<Vary>>
    ensures { IfOk result (λ vs. vs.items ≡ grammar.of_type ty names.items) }
{
    let mut variables = Vec::new(alloc);
    for name in names {
        variables.push(Vary { name, ty })?;
    }
    Ok(variables)
}

impl Parser {
    /// A type.
    #[tactic(auto, unfolding(crate::specs::Reading::ListReading::type_at))]
    fn ty<'a>(&self, symbols: &'a [Symbol]) -> Result<(Ty, &'a [Symbol]), Fault>
        ensures { Gives (found same) result (spec.type_at self.now.end symbols.now) }
    {
        match symbols {
            [first, rest @ ..] => match type_said(&first.sign) {
                Some(ty) => Ok((ty, rest)),
                None => Err(self.refused(symbols)),
            },
            [] => Err(self.refused(symbols)),
        }
    }

    /// Names of one type, so many at most.
    #[tactic(auto, unfolding(crate::specs::Reading::ListReading::group_at))]
    fn typed_group<'a>(
        &self,
        room: usize,
        symbols: &'a [Symbol],
    ) -> Result<(Vec<Vary>, &'a [Symbol]), Fault>
        ensures { Gives (found items) result (spec.group_at self.now.end room symbols.now) }
    {
        let (names, rest) = self.names(room, symbols)?;
        let (_, rest) = self.behind(Fixed::Colon, rest)?;
        let (ty, rest) = self.ty(rest)?;
        Ok((of_type(self.alloc, ty, names)?, rest))
    }

    /// Groups of names with commas between them, so many names at most.
    fn variables<'a>(
        &self,
        room: usize,
        symbols: &'a [Symbol],
    ) -> Result<(Vec<Vary>, &'a [Symbol]), Fault>
        ensures { Gives (found items) result (spec.variables_at self.now.end room symbols.now) }
    {
        let mut variables = Vec::new(self.alloc);
        let mut rest = symbols;
        for _turn in 0..symbols.len() {
            let (mut group, behind) = self.typed_group(room.saturating_sub(variables.len()), rest)?;
            variables.append(&mut group)?;
            match seen(Fixed::Comma, behind) {
                None => return Ok((variables, behind)),
                Some((_, next)) => rest = next,
            }
        }
        Err(self.refused(rest))
    }

    /// Variables up to their semicolon, so many at most.
    #[tactic(auto, unfolding(crate::specs::Reading::ListReading::declared_behind))]
    pub(crate) fn declared<'a>(
        &self,
        room: usize,
        symbols: &'a [Symbol],
    ) -> Result<(Vec<Vary>, &'a [Symbol]), Fault>
        ensures { Gives (found items) result (spec.declared_behind self.now.end room symbols.now) }
    {
        let (variables, rest) = self.variables(room, symbols)?;
        self.ended_by(Fixed::Semicolon, variables, rest)
    }

    /// Parameters or results in parentheses, so many at most.
    #[tactic(auto, unfolding(crate::specs::Reading::ListReading::formals_at))]
    pub(crate) fn formals<'a>(
        &self,
        room: usize,
        symbols: &'a [Symbol],
    ) -> Result<(Vec<Vary>, &'a [Symbol]), Fault>
        ensures { Gives (found items) result (spec.formals_at self.now.end 200 room symbols.now) }
    {
        let (_, rest) = self.opened(Fixed::OpenParenthesis, PARENTHESES, symbols)?;
        if let Some((_, rest)) = seen(Fixed::CloseParenthesis, rest) {
            return Ok((Vec::new(self.alloc), rest));
        }
        let (variables, rest) = self.variables(room, rest)?;
        self.ended_by(Fixed::CloseParenthesis, variables, rest)
    }

    /// Results, if there are any, so many at most.
    #[tactic(auto, unfolding(crate::specs::Reading::ListReading::results_at))]
    pub(crate) fn results<'a>(
        &self,
        room: usize,
        symbols: &'a [Symbol],
    ) -> Result<(Vec<Vary>, &'a [Symbol]), Fault>
        ensures { Gives (found items) result (spec.results_at self.now.end 200 room symbols.now) }
    {
        match seen(Fixed::Returns, symbols) {
            None => Ok((Vec::new(self.alloc), symbols)),
            Some((_, rest)) => self.formals(room, rest),
        }
    }
}
