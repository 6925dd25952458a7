//! Specifications, bodies and declarations.

ghost use Rattle.std.specs.Prelude.{◌≡◌, map, [], ◌∷◌, IfOk};
ghost use Rattle.boogie_tree.specs.View as view;
ghost use Rattle.boogie_tree.specs.Tree as tree;
ghost use Rattle.boogie_parse.specs.Reading.ListReading as list;
ghost use Rattle.boogie_parse.specs.Rules.GrammarProgram as grammar;
ghost use Rattle.boogie_parse.specs.Reading.ProgramReading as spec;
ghost use Rattle.boogie_parse.specs.Ties.ProgramViews.{head};
ghost use Rattle.boogie_parse.specs.Reading.ListViews.{Gives, found, found_if, items, items_as};

use super::blocks::there;
use super::lists::seen;
use super::parser::Parser;
use crate::fault::Fault;
use crate::symbols::{Fixed, Symbol};
use boogie_tree::{Body, Decl, Name, Proc, Span, Spec, Vary};
use std::alloc::{AllocFailed, Global};

/// So many blocks may be open at once.
const BLOCKS: u8 = 200;

/// One declaration of the text may declare so many variables.
pub(super) const VARIABLES: usize = 1000;

/// The front of a procedure or an implementation.
#[derive(Drop)]
pub(crate) struct Head {
    pub span: Span,
    pub name: Name,
    pub params: Vec<Vary>,
    pub results: Vec<Vary>,
}

impl Head {
    /// How many more variables may be declared behind it.
    pub(super) fn room_behind(&self) -> usize
        ensures { result ≡ spec.room_behind 1000 (head self.now) }
    {
        VARIABLES
            .saturating_sub(self.params.len())
            .saturating_sub(self.results.len())
    }

    /// The procedure with that front.
    pub(super) fn procedure(self, specs: Vec<Spec>, body: Option<Body>) -> Proc
        ensures { view.procedure result
            ≡ grammar.procedure_read (head self) (items_as view.specification specs) (view.body_of body) }
    {
        let Head {
            span,
            name,
            params,
            results,
        } = self;
        Proc {
            span,
            name,
            params,
            results,
            specs,
            body,
        }
    }
}

/// Declarations of constants.
pub(super) fn constants(alloc: Global, variables: Vec<Vary>) -> Result<Vec<Decl>, AllocFailed<Decl>>
    ensures { IfOk result (λ ds. map view.declaration ds.items ≡ map tree.Const variables.items) }
{
    let mut declarations = Vec::new(alloc);
    for variable in variables {
        declarations.push(Decl::Const(variable))?;
    }
    Ok(declarations)
}

/// Declarations of globals.
pub(super) fn globals(alloc: Global, variables: Vec<Vary>) -> Result<Vec<Decl>, AllocFailed<Decl>>
    ensures { IfOk result (λ ds. map view.declaration ds.items ≡ map tree.Global variables.items) }
{
    let mut declarations = Vec::new(alloc);
    for variable in variables {
        declarations.push(Decl::Global(variable))?;
    }
    Ok(declarations)
}

/// A list of one declaration.
pub(super) fn alone(alloc: Global, declaration: Decl) -> Result<Vec<Decl>, AllocFailed<Decl>>
    ensures { IfOk result (λ ds. ds.items ≡ declaration ∷ []) }
{
    let mut declarations = Vec::new(alloc);
    declarations.push(declaration)?;
    Ok(declarations)
}

impl Parser {
    /// The locals of one `var`, if it stands there, so many at most.
    #[tactic(auto, unfolding(crate::specs::Reading::ProgramReading::local_at))]
    fn local<'a>(
        &self,
        room: usize,
        symbols: &'a [Symbol],
    ) -> Result<Option<(Vec<Vary>, &'a [Symbol])>, Fault>
        ensures { Gives (found_if items) result (spec.local_at self.now.end room symbols.now) }
    {
        match seen(Fixed::Var, symbols) {
            None => Ok(None),
            Some((_, rest)) => there(self.declared(room, rest)),
        }
    }

    /// The locals that stand there, so many at most.
    fn locals<'a>(
        &self,
        room: usize,
        symbols: &'a [Symbol],
    ) -> Result<(Vec<Vary>, &'a [Symbol]), Fault>
        ensures { Gives (found items) result (spec.locals_at self.now.end room symbols.now) }
    {
        let mut locals = Vec::new(self.alloc);
        let mut rest = symbols;
        for _turn in 0..symbols.len() {
            match self.local(room.saturating_sub(locals.len()), rest)? {
                None => return Ok((locals, rest)),
                Some((mut more, behind)) => {
                    locals.append(&mut more)?;
                    rest = behind;
                }
            }
        }
        Ok((locals, rest))
    }

    /// A modifies list, behind its word.
    #[tactic(auto, unfolding(crate::specs::Reading::ProgramReading::modifies_at))]
    fn modifies<'a>(&self, symbols: &'a [Symbol]) -> Result<(Spec, &'a [Symbol]), Fault>
        ensures { Gives (found view.specification) result (spec.modifies_at self.now.end symbols.now) }
    {
        if let Some((_, rest)) = seen(Fixed::Semicolon, symbols) {
            return Ok((Spec::Modifies(Vec::new(self.alloc)), rest));
        }
        let (names, rest) = self.listed_names(symbols)?;
        Ok((Spec::Modifies(names), rest))
    }

    #[tactic(auto, unfolding(crate::specs::Reading::ProgramReading::requires_at))]
    fn requirement<'a>(
        &self,
        free: bool,
        span: Span,
        symbols: &'a [Symbol],
    ) -> Result<(Spec, &'a [Symbol]), Fault>
        ensures { Gives (found view.specification) result
            (spec.requires_at (list.expression_at self.now.end) self.now.end 200 free (record { value = span; rest = symbols.now })) }
    {
        let (condition, rest) = self.condition(free, span, symbols)?;
        Ok((Spec::Requires(condition), rest))
    }

    #[tactic(auto, unfolding(crate::specs::Reading::ProgramReading::ensures_at))]
    fn assurance<'a>(
        &self,
        free: bool,
        span: Span,
        symbols: &'a [Symbol],
    ) -> Result<(Spec, &'a [Symbol]), Fault>
        ensures { Gives (found view.specification) result
            (spec.ensures_at (list.expression_at self.now.end) self.now.end 200 free (record { value = span; rest = symbols.now })) }
    {
        let (condition, rest) = self.condition(free, span, symbols)?;
        Ok((Spec::Ensures(condition), rest))
    }

    /// A requires or an ensures, if it stands there.
    #[tactic(auto, unfolding(crate::specs::Reading::ProgramReading::claimed_at))]
    fn claimed<'a>(
        &self,
        free: bool,
        symbols: &'a [Symbol],
    ) -> Result<Option<(Spec, &'a [Symbol])>, Fault>
        ensures { Gives (found_if view.specification) result
            (spec.claimed_at (list.expression_at self.now.end) self.now.end 200 free symbols.now) }
    {
        if let Some((span, rest)) = seen(Fixed::Requires, symbols) {
            return there(self.requirement(free, span, rest));
        }
        match seen(Fixed::Ensures, symbols) {
            None => Ok(None),
            Some((span, rest)) => there(self.assurance(free, span, rest)),
        }
    }

    /// A requires or an ensures, which must stand there and is free.
    #[tactic(auto, unfolding(crate::specs::Reading::ProgramReading::free_at))]
    fn free_claim<'a>(&self, symbols: &'a [Symbol]) -> Result<Option<(Spec, &'a [Symbol])>, Fault>
        ensures { Gives (found_if view.specification) result
            (spec.free_at (list.expression_at self.now.end) self.now.end 200 symbols.now) }
    {
        match self.claimed(true, symbols)? {
            None => Err(self.refused(symbols)),
            Some(found) => Ok(Some(found)),
        }
    }

    /// A specification, if one stands there.
    #[tactic(auto, unfolding(crate::specs::Reading::ProgramReading::specification_at))]
    fn specification<'a>(
        &self,
        symbols: &'a [Symbol],
    ) -> Result<Option<(Spec, &'a [Symbol])>, Fault>
        ensures { Gives (found_if view.specification) result
            (spec.specification_at (list.expression_at self.now.end) self.now.end 200 symbols.now) }
    {
        if let Some((_, rest)) = seen(Fixed::Free, symbols) {
            return self.free_claim(rest);
        }
        match seen(Fixed::Modifies, symbols) {
            None => self.claimed(false, symbols),
            Some((_, rest)) => there(self.modifies(rest)),
        }
    }

    /// The specifications that stand there.
    pub(super) fn specifications<'a>(
        &self,
        symbols: &'a [Symbol],
    ) -> Result<(Vec<Spec>, &'a [Symbol]), Fault>
        ensures { Gives (found (items_as view.specification)) result
            (spec.specifications_at (list.expression_at self.now.end) self.now.end 200 symbols.now) }
    {
        let mut specifications = Vec::new(self.alloc);
        let mut rest = symbols;
        for _turn in 0..symbols.len() {
            match self.specification(rest)? {
                None => return Ok((specifications, rest)),
                Some((specification, behind)) => {
                    specifications.push(specification)?;
                    rest = behind;
                }
            }
        }
        Ok((specifications, rest))
    }

    /// A body, with so many locals at most.
    #[tactic(auto, unfolding(crate::specs::Reading::ProgramReading::body_at))]
    pub(super) fn body<'a>(
        &self,
        room: usize,
        symbols: &'a [Symbol],
    ) -> Result<(Body, &'a [Symbol]), Fault>
        ensures { Gives (found view.body) result
            (spec.body_at (list.expression_at self.now.end) self.now.end 200 200 room symbols.now) }
    {
        let (blocks, rest) = self.opened(Fixed::OpenBrace, BLOCKS, symbols)?;
        let (locals, rest) = self.locals(room, rest)?;
        let (stmts, rest) = self.list(blocks, rest)?;
        self.ended_by(Fixed::CloseBrace, Body { locals, stmts }, rest)
    }

    /// The front of a procedure or an implementation, behind its word.
    #[tactic(auto, unfolding(crate::specs::Reading::ProgramReading::head_at))]
    pub(super) fn head<'a>(
        &self,
        span: Span,
        symbols: &'a [Symbol],
    ) -> Result<(Head, &'a [Symbol]), Fault>
        ensures { Gives (found head) result (spec.head_at self.now.end 200 1000 span symbols.now) }
    {
        let (name, rest) = self.name(symbols)?;
        let (params, rest) = self.formals(VARIABLES, rest)?;
        let (results, rest) = self.results(VARIABLES.saturating_sub(params.len()), rest)?;
        let head = Head {
            span,
            name,
            params,
            results,
        };
        Ok((head, rest))
    }
}
