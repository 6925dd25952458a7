//! What reading expressions has to do with the grammar.

ghost use Rattle.std.specs.Prelude.{◌≡◌, ℕ, ◌≤◌, List, Ok, Err};
ghost use Rattle.boogie_tree.specs.declared.span.Span.{Span};
ghost use Rattle.boogie_tree.specs.declared.level.Level.TheVariants.{Equivalence};
ghost use Rattle.boogie_tree.specs.Tree.{Expression};
ghost use Rattle.boogie_parse.specs.declared.fault.Fault.TheVariants as faults;
ghost use Rattle.boogie_parse.specs.declared.symbols.Symbol.{Symbol};
ghost use Rattle.boogie_parse.specs.Rules.Grammar.{Reads};
ghost use Rattle.boogie_parse.specs.Rules.GrammarLimits.{depth};
ghost use Rattle.boogie_parse.specs.Reading.Outcomes.{Read};
ghost use Rattle.boogie_parse.specs.Reading.ExpressionReading.{expression, done};
ghost use Rattle.boogie_parse.specs.Ties.ExpressionLaws.{Ends, Grows};

/// What is read as an expression is one by the grammar, within the limits. Where nothing follows that would carry it on, each expression by the
/// grammar and within the limits is read as it. More room for parentheses and depth changes no answer but a limit.
pub(crate) fn reading_follows_the_grammar()
    ensures sound { (end : Span) (p d : ℕ) (ts : List Symbol) (x : Read Expression) →
        expression end p d ts ≡ Ok x → Reads p Equivalence ts x.value x.rest × (depth x.value ≤ d) }
    ensures complete { (end : Span) (p d : ℕ) (ts : List Symbol) (e : Expression) (r : List Symbol) →
        Reads p Equivalence ts e r → depth e ≤ d → Ends Equivalence r → expression end p d ts ≡ done e r }
    ensures more_room { (end : Span) (p q d f : ℕ) (ts : List Symbol) →
        p ≤ q → d ≤ f → Grows (expression end p d ts) (expression end q f ts) }
{}

/// Symbols begin with one expression at most. Those that are refused as no syntax begin with none, however many parentheses and however much depth are allowed.
pub(crate) fn one_expression()
    ensures one { (p q : ℕ) (ts : List Symbol) (a b : Expression) (r s : List Symbol) →
        Reads p Equivalence ts a r → Reads q Equivalence ts b s → Ends Equivalence r → Ends Equivalence s → (a ≡ b) × (r ≡ s) }
    ensures none { (end : Span) (p d line col : ℕ) (ts : List Symbol) → expression end p d ts ≡ Err (faults.Syntax line col) →
        (q : ℕ) (e : Expression) (r : List Symbol) → Reads q Equivalence ts e r → Ends Equivalence r → ⊥ }
{}
