ghost use Rattle.std.specs.Prelude.{◌≡◌, false};
ghost use Rattle.typed_tree.specs.declared.fault.TypeFault.{TypeFault};
ghost use Rattle.typed_tree.specs.TypedTree.{TypedProgram};
ghost use Rattle.typed_tree.specs.TypingRules.Rules.{keeps_typing};
ghost use Rattle.typed_tree.specs.TypingRules.BrokenTyping.{IsProgramBroken};
ghost use Rattle.typed_tree.specs.TypingRules.Laws as law;

/// A program with a fault does not keep the typing rules.
pub fn typing_faults_are_broken_rules()
    ensures { (t : TypedProgram) → (f : TypeFault) → IsProgramBroken t f → keeps_typing t ≡ false }
{}

/// What the invariant of a typed program says of its parts. `Typed::globals` says that it holds.
pub fn typed_programs_are_typed()
    ensures axioms { law.AxiomsAreTyped }
    ensures specifications { law.SpecificationsAreTyped }
    ensures statements { law.StatementsAreTyped }
    ensures scopes { law.StatementsSeeLocals }
    ensures targets { law.TargetsVary }
    ensures calls { law.CallsAgree }
    ensures havocs { law.HavocsChoose }
    ensures locals { law.LocalsAreEnough }
    ensures gotos { law.GotosNameLabels }
    ensures labels { law.LabelsCount }
    ensures entry { law.EntryHasBody }
    ensures numbers { law.NumbersFit }
{}

/// What an expression that keeps the rules reads.
pub fn typed_expressions_read_what_is_seen()
    ensures types { law.RightOnesHaveTypes }
    ensures columns { law.ColumnsAreSeen }
    ensures old { law.NoOldColumns }
{}
