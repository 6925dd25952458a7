//! What reading lists, statements and programs has to do with the grammar.

ghost use Rattle.std.specs.Prelude.{◌≡◌, ℕ, ◌≤◌, List, None, Err, length, IfOk};
ghost use Rattle.boogie_tree.specs.declared.span.Span.{Span};
ghost use Rattle.boogie_parse.specs.declared.symbols.Symbol.{Symbol};
ghost use Rattle.boogie_parse.specs.Rules.GrammarLists.{ReadsVariables, ReadsFormals, ReadsInvariants};
ghost use Rattle.boogie_parse.specs.Rules.GrammarStatements.{ReadsBlock, ReadsList};
ghost use Rattle.boogie_parse.specs.Rules.GrammarLimits.{IsShallowBlock};
ghost use Rattle.boogie_tree.specs.View.{block};
ghost use Rattle.boogie_parse.specs.Reading.ListReading as reading;
ghost use Rattle.boogie_parse.specs.Reading.StatementReading as statements;
ghost use Rattle.boogie_parse.specs.Reading.ProgramReading as programs;
ghost use Rattle.boogie_parse.specs.Spelling.ProgramSpelling.{Spells};
ghost use Rattle.boogie_parse.specs.Ties.ProgramGrowth.{Keeps, IsSameRoom};
ghost use Rattle.boogie_parse.specs.Reading.ExpressionReading.{expression};
ghost use Rattle.boogie_parse.specs.Ties.Settled.{IsSettled};
ghost use Rattle.boogie_parse.specs.declared.fault.Fault.TheVariants.{Limit};
ghost use Rattle.boogie_parse.specs.declared.fault.Which.{Which};
ghost use Rattle.boogie_tree.specs.declared.tree.Vary.{Vary};
ghost use Rattle.boogie_tree.specs.Tree.{Block, Declaration, Guard};
ghost use Rattle.boogie_parse.specs.Rules.GrammarLists.{ReadsGuard};
ghost use Rattle.boogie_parse.specs.Rules.GrammarLimits.{IsShallowGuard};

/// What is read as variables or parameters is so by the grammar, and no more than there is room for.
pub(crate) fn variables_are_read()
    ensures variables { (end : Span) (n : ℕ) (ts : List Symbol) →
        IfOk (reading.variables_at end n ts) (λ x. ReadsVariables ts x.value x.rest × (length x.value ≤ n)) }
    ensures formals { (end : Span) (p n : ℕ) (ts : List Symbol) →
        IfOk (reading.formals_at end p n ts) (λ x. ReadsFormals p ts x.value x.rest × (length x.value ≤ n)) }
    ensures invariants { (end : Span) (p : ℕ) (ts : List Symbol) →
        IfOk (reading.invariants_at (reading.expression_at end) end p ts) (λ x. ReadsInvariants p ts x.value x.rest) }
{}

/// What is read as statements is so by the grammar, where so many parentheses and blocks may be open at once.
pub(crate) fn statements_are_read()
    ensures { (end : Span) (p b : ℕ) (ts : List Symbol) →
        IfOk (statements.list_at (reading.expression_at end) end p (statements.inside_at (reading.expression_at end) end p b) ts)
        (λ x. ReadsList p b ts (block x.value) x.rest × IsShallowBlock (block x.value)) }
{}

/// What is read as a program is one by the grammar, and within the limits: p parentheses and b blocks may be open at once, each declaration of the
/// text may declare v variables, and the program q procedures.
pub(crate) fn programs_are_read()
    ensures { (end : Span) (p b v q : ℕ) (ts : List Symbol) →
        IfOk (programs.program_at (reading.expression_at end) end p b v q ts) (Spells p b v q ts) }
{}

/// What are parameters or a guard by the grammar, and within the limits, are read as them.
pub(crate) fn lists_are_complete()
    ensures formals { (end : Span) (p n : ℕ) (ts : List Symbol) (vs : List Vary) (r : List Symbol) →
        ReadsFormals p ts vs r → length vs ≤ n → reading.formals_at end p n ts ≡ reading.read vs r }
    ensures guard { (end : Span) (p : ℕ) (ts : List Symbol) (g : Guard) (r : List Symbol) →
        ReadsGuard p ts g r → IsShallowGuard g → reading.guard_at (reading.expression_at end) end p ts ≡ reading.read g r }
{}

/// What is a block by the grammar, and within the limits, is read as it, where so many parentheses and blocks may be open at once.
pub(crate) fn blocks_are_complete()
    ensures { (end : Span) (p b : ℕ) (ts : List Symbol) (x : Block) (r : List Symbol) → ReadsBlock p b ts x r → IsShallowBlock x →
        (statements.inside_at (reading.expression_at end) end p b).block ts ≡ reading.read x r }
{}

/// What is a program by the grammar, and within the limits, is read as it.
pub(crate) fn programs_are_complete()
    ensures { (end : Span) (p b v q : ℕ) (ts : List Symbol) (program : List Declaration) → Spells p b v q ts program →
        programs.program_at (reading.expression_at end) end p b v q ts ≡ Ok program }
{}

/// What is read as a program or refused is so with more room: more parentheses, blocks, depth, variables and procedures. What is past a limit is so
/// where the room of that kind is the same.
pub(crate) fn programs_grow()
    ensures { (end : Span) (d p q b c v w n m : ℕ) (ts : List Symbol) → 200 ≤ d → p ≤ q → b ≤ c → v ≤ w → n ≤ m →
        Keeps (IsSameRoom d p q b c v w n m)
        (programs.program_at (reading.expression_at end) end p b v n ts) (programs.program_at (λ a us. expression end a d us) end q c w m ts) }
{}

/// A limit of a program stands at a symbol, and is the same fault whatever follows this one.
pub(crate) fn limits_are_settled()
    ensures { (end : Span) (p b v n : ℕ) (ts : List Symbol) (kind : Which) (line col : ℕ) →
        programs.program_at (reading.expression_at end) end p b v n ts ≡ Err (Limit kind line col) →
        IsSettled (List Declaration) (programs.program_at (reading.expression_at end) end p b v n) ts kind line col }
{}
