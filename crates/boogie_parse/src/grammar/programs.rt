//! Programs.

ghost use Rattle.std.specs.Prelude.{◌≡◌, ◌-◌, [], ◌∷◌, map, None, Some};
ghost use Rattle.boogie_tree.specs.View as view;
ghost use Rattle.boogie_parse.specs.Rules.GrammarLimits as limits;
ghost use Rattle.boogie_parse.specs.Reading.ListReading as list;
ghost use Rattle.boogie_parse.specs.Reading.ProgramReading as spec;
ghost use Rattle.boogie_parse.specs.Ties.ProgramViews.{head};
ghost use Rattle.boogie_parse.specs.Reading.ListViews.{Gives, found, found_if, items_as};

use super::blocks::there;
use super::declarations::{Head, VARIABLES, alone, constants, globals};
use super::lists::seen;
use super::parser::{Parser, past_limit};
use crate::fault::{Fault, Which};
use crate::symbols::{Fixed, Sign, Symbol};
use boogie_tree::{Decl, Program, Span};

/// A program may declare so many procedures.
const PROCEDURES: usize = 1000;

/// Some declarations and the symbols behind them.
type FoundDecls<'a> = (Vec<Decl>, &'a [Symbol]);

/// How many procedures a declaration declares: one or none.
fn procedures(declaration: &Decl) -> usize
    ensures { result ≡ limits.procedures_counted (view.declaration declaration.now ∷ []) }
{
    match declaration {
        Decl::Procedure(_) => 1,
        Decl::Const(_) | Decl::Global(_) | Decl::Axiom(_, _) | Decl::Implementation(_) => 0,
    }
}

/// How many more procedures there is room for behind these declarations.
fn room_behind(most: usize, declarations: &[Decl]) -> usize
    ensures { result ≡ most - limits.procedures_counted (map view.declaration declarations.now) }
{
    let mut room = most;
    for declaration in declarations {
        room = room.saturating_sub(procedures(declaration));
    }
    room
}

/// Each takes the place of the declaration's first word and the symbols behind it.
impl Parser {
    #[tactic(auto, unfolding(crate::specs::Reading::ProgramReading::constants_at))]
    fn constant_group<'a>(&self, symbols: &'a [Symbol]) -> Result<FoundDecls<'a>, Fault>
        ensures { Gives (found (items_as view.declaration)) result
            (spec.constants_at (list.expression_at self.now.end) self.now.end 200 200 1000 symbols.now) }
    {
        let (variables, rest) = self.declared(VARIABLES, symbols)?;
        Ok((constants(self.alloc, variables)?, rest))
    }

    #[tactic(auto, unfolding(crate::specs::Reading::ProgramReading::globals_at))]
    fn global_group<'a>(&self, symbols: &'a [Symbol]) -> Result<FoundDecls<'a>, Fault>
        ensures { Gives (found (items_as view.declaration)) result
            (spec.globals_at (list.expression_at self.now.end) self.now.end 200 200 1000 symbols.now) }
    {
        let (variables, rest) = self.declared(VARIABLES, symbols)?;
        Ok((globals(self.alloc, variables)?, rest))
    }

    /// One declaration alone.
    fn single<'a>(&self, declaration: Decl, symbols: &'a [Symbol]) -> Result<FoundDecls<'a>, Fault>
        ensures { Gives (found (items_as view.declaration)) result (list.read (view.declaration declaration ∷ []) symbols.now) }
    {
        Ok((alone(self.alloc, declaration)?, symbols))
    }

    #[tactic(auto, unfolding(crate::specs::Reading::ProgramReading::axiom_at))]
    fn axiom<'a>(&self, span: Span, symbols: &'a [Symbol]) -> Result<FoundDecls<'a>, Fault>
        ensures { Gives (found (items_as view.declaration)) result
            (spec.axiom_at (list.expression_at self.now.end) self.now.end 200 span symbols.now) }
    {
        let (condition, rest) = self.claim(symbols)?;
        self.single(Decl::Axiom(span, condition), rest)
    }

    /// A procedure that has no body, behind the semicolon of its front.
    fn without_body<'a>(&self, front: Head, symbols: &'a [Symbol]) -> Result<FoundDecls<'a>, Fault>
        ensures { Gives (found (items_as view.declaration)) result
            (spec.procedure_by (list.expression_at self.now.end) self.now.end 200 200 1000 (head front) symbols.now (Some (record { value = front.span; rest = symbols.now }))) }
    {
        let (specs, rest) = self.specifications(symbols)?;
        self.single(Decl::Procedure(front.procedure(specs, None)), rest)
    }

    /// A procedure that has a body, behind its front.
    fn with_body<'a>(&self, front: Head, symbols: &'a [Symbol]) -> Result<FoundDecls<'a>, Fault>
        ensures { Gives (found (items_as view.declaration)) result
            (spec.procedure_by (list.expression_at self.now.end) self.now.end 200 200 1000 (head front) symbols.now None) }
    {
        let (specs, rest) = self.specifications(symbols)?;
        let (body, rest) = self.body(front.room_behind(), rest)?;
        self.single(Decl::Procedure(front.procedure(specs, Some(body))), rest)
    }

    #[tactic(auto, unfolding(crate::specs::Reading::ProgramReading::procedure_at))]
    fn procedure<'a>(&self, span: Span, symbols: &'a [Symbol]) -> Result<FoundDecls<'a>, Fault>
        ensures { Gives (found (items_as view.declaration)) result
            (spec.procedure_at (list.expression_at self.now.end) self.now.end 200 200 1000 span symbols.now) }
    {
        let (head, rest) = self.head(span, symbols)?;
        match seen(Fixed::Semicolon, rest) {
            Some((_, rest)) => self.without_body(head, rest),
            None => self.with_body(head, rest),
        }
    }

    #[tactic(auto, unfolding(crate::specs::Reading::ProgramReading::implementation_at))]
    fn implementation<'a>(&self, span: Span, symbols: &'a [Symbol]) -> Result<FoundDecls<'a>, Fault>
        ensures { Gives (found (items_as view.declaration)) result
            (spec.implementation_at (list.expression_at self.now.end) self.now.end 200 200 1000 span symbols.now) }
    {
        let (head, rest) = self.head(span, symbols)?;
        let (body, rest) = self.body(head.room_behind(), rest)?;
        let procedure = head.procedure(Vec::new(self.alloc), Some(body));
        self.single(Decl::Implementation(procedure), rest)
    }

    /// A procedure, if there is room for one more.
    #[tactic(auto, unfolding(crate::specs::Reading::ProgramReading::new_procedure))]
    fn new_procedure<'a>(
        &self,
        room: usize,
        span: Span,
        symbols: &'a [Symbol],
    ) -> Result<FoundDecls<'a>, Fault>
        ensures { Gives (found (items_as view.declaration)) result
            (spec.new_procedure (list.expression_at self.now.end) self.now.end 200 200 1000 room span symbols.now) }
    {
        if room == 0 {
            return Err(past_limit(Which::Procedures, span));
        }
        self.procedure(span, symbols)
    }

    /// A declaration of the text, if one stands there, with so many procedures at most.
    #[tactic(auto, unfolding(crate::specs::Reading::ProgramReading::declaration_at))]
    fn declaration<'a>(
        &self,
        room: usize,
        symbols: &'a [Symbol],
    ) -> Result<Option<FoundDecls<'a>>, Fault>
        ensures { Gives (found_if (items_as view.declaration)) result
            (spec.declaration_at (list.expression_at self.now.end) self.now.end 200 200 1000 room symbols.now) }
    {
        let Some((first, rest)) = symbols.split_first() else {
            return Ok(None);
        };
        let span = first.span;
        match &first.sign {
            Sign::Fixed(Fixed::Const) => there(self.constant_group(rest)),
            Sign::Fixed(Fixed::Var) => there(self.global_group(rest)),
            Sign::Fixed(Fixed::Axiom) => there(self.axiom(span, rest)),
            Sign::Fixed(Fixed::Procedure) => there(self.new_procedure(room, span, rest)),
            Sign::Fixed(Fixed::Implementation) => there(self.implementation(span, rest)),
            _ => Ok(None),
        }
    }

    /// The declarations that stand there, with so many procedures at most.
    fn declarations<'a>(&self, most: usize, symbols: &'a [Symbol]) -> Result<FoundDecls<'a>, Fault>
        ensures { Gives (found (items_as view.declaration)) result
            (spec.declarations_at (list.expression_at self.now.end) self.now.end 200 200 1000 most symbols.now) }
    {
        let mut declarations = Vec::new(self.alloc);
        let mut room = most;
        let mut rest = symbols;
        for _turn in 0..symbols.len() {
            match self.declaration(room, rest)? {
                None => return Ok((declarations, rest)),
                Some((mut more, behind)) => {
                    room = room_behind(room, &more);
                    declarations.append(&mut more)?;
                    rest = behind;
                }
            }
        }
        Ok((declarations, rest))
    }

    /// The program that the symbols spell, or the fault at the first symbol that can't stand there or goes past a limit.
    #[tactic(auto, unfolding(crate::specs::Reading::ProgramReading::program_at))]
    pub(crate) fn program(&self, symbols: &[Symbol]) -> Result<Program, Fault>
        ensures { Gives view.program result
            (spec.program_at (list.expression_at self.now.end) self.now.end 200 200 1000 1000 symbols.now) }
    {
        let (decls, rest) = self.declarations(PROCEDURES, symbols)?;
        if !rest.is_empty() {
            return Err(self.refused(rest));
        }
        Ok(Program { decls })
    }
}
