//! Laws of feasible words and of what letters allow, over the definitions that contracts cite.

ghost use Rattle.std.specs.Prelude.{◌≡◌, ◌↔◌, ◌+◌, ◌<◌, ℕ, ℤ, List, length};
ghost use Rattle.std.specs.List.{AllByRecursion};
ghost use Rattle.math_facts.specs.Terms.{IsBelow};
ghost use Rattle.lin_rows.specs.Rows.{LinearRow};
ghost use Rattle.boogie_tree.specs.declared.tree.VarInfo.{VarInfo};
ghost use Rattle.nwa_base.specs.declared.letters.Kind.TheVariants.{Back};
ghost use Rattle.nwa_base.specs.declared.letters.Letter.{Letter};
ghost use Rattle.nwa_base.specs.Members.{Member};
ghost use Rattle.nwa_base.specs.Automata.{Automaton};
ghost use Rattle.nwa_base.specs.Acceptance.{Accepts};
ghost use Rattle.letter_acts.specs.Frames.{Columns, IsFrame};
ghost use Rattle.letter_acts.specs.Acts.{Alphabet, frame_of};
ghost use Rattle.letter_acts.specs.Values.{RowsHold, HoldBeyond};
ghost use Rattle.letter_acts.specs.Meaning.{InsideLeads, CallLeads, BackLeads};
ghost use Rattle.letter_acts.specs.Reading.{InsideReads, CallReads, BackReads};
ghost use Rattle.letter_acts.specs.Feasible.{IsFeasible, MachineRun, FeasibleWay};
ghost use Rattle.letter_acts.specs.Invariant.{Graph, IsGraph, alphabet_of, InsideIsActed, BackIsActed};
ghost use Rattle.letter_acts.specs.Known.{FramesAgree, InsideKnown, CallKnown, BackKnown};

/// A word is accepted and feasible exactly where the stack machine, whose stack are the open calls, has a run over it.
pub fn machine_runs()
    ensures { (m : Automaton) (al : Alphabet) (w : List Letter) → (Accepts m w × IsFeasible al w) ↔ MachineRun m al w }
{}

/// A word is feasible exactly where some way leads from a situation through it.
pub fn feasible_by_way()
    ensures { (al : Alphabet) (w : List Letter) → IsFeasible al w ↔ FeasibleWay al w }
{}

/// Helpers as a list and helpers as another point say the same of rows over the values and so many helpers.
pub fn helpers_as_point()
    ensures { (values : List ℤ) (count : ℕ) (rows : List LinearRow) →
        AllByRecursion (λ r. IsBelow (length values + count) r.terms) rows → RowsHold values count rows ↔ HoldBeyond values rows }
{}

/// What an inside act allows, column by column.
pub fn inside_read()
    ensures { (al : Alphabet) (p : ℕ) (written : List ℕ) (helpers : ℕ) (rows : List LinearRow) (s t : List ℤ) →
        InsideIsActed al p written helpers rows →
        InsideLeads (frame_of al p) written helpers rows s t ↔ InsideReads (frame_of al p) written helpers rows s t }
{}

/// What a call allows, column by column.
pub fn call_read()
    ensures { (globals : List VarInfo) (caller callee : Columns) (helpers : ℕ) (rows : List LinearRow) (s t : List ℤ) →
        IsFrame globals caller → IsFrame globals callee →
        CallLeads caller callee helpers rows s t ↔ CallReads caller callee helpers rows s t }
{}

/// What a return allows, column by column.
pub fn back_read()
    ensures { (globals : List VarInfo) (caller callee : Columns) (helpers : ℕ) (rows : List LinearRow) (targets : List ℕ) (exit before after : List ℤ) →
        IsFrame globals caller → IsFrame globals callee → BackIsActed caller callee helpers targets →
        BackLeads caller callee helpers rows targets exit before after ↔ BackReads caller callee helpers rows targets exit before after }
{}

/// Frames with the same globals agree on where these and their old columns stand.
pub fn frames_agree()
    ensures { (globals : List VarInfo) (a b : Columns) → IsFrame globals a → IsFrame globals b → FramesAgree a b }
{}

/// All frames of a graph have the same globals.
pub fn frames_laid_out()
    ensures { (g : Graph) → IsGraph g →
        (globals : List VarInfo) × ((p : ℕ) → p < length g.frames → IsFrame globals (frame_of (alphabet_of g) p)) }
{}

/// What is known of the letter of an inside edge.
pub fn inside_edge_known()
    ensures { (g : Graph) → IsGraph g → (q e : ℕ) (a : Letter) → Member g.automaton.insides (q, a, e) → InsideKnown g q a e }
{}

/// What is known of the letter of a call edge.
pub fn call_edge_known()
    ensures { (g : Graph) → IsGraph g → (q e : ℕ) (a : Letter) → Member g.automaton.calls (q, a, e) → CallKnown g q a e }
{}

/// What is known of the letter of a return edge.
pub fn back_edge_known()
    ensures { (g : Graph) → IsGraph g → (q p e : ℕ) (r : Letter) → r.kind ≡ Back → Member g.automaton.backs (q, p, r, e) → BackKnown g q p r e }
{}
