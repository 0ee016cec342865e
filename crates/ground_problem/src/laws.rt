//! What holds of the instances of any formula and of any table.

ghost use Rattle.std.specs.Prelude.{◌≡◌, ◌↔◌, ◌++◌, ◌+◌, ◌<◌, Bool, true, ℕ, IsTrue, List, []};
ghost use Rattle.std.specs.Prelude.{Contains, length};
ghost use Rattle.std.specs.List.{list_all};
ghost use Rattle.text_ast.specs.Words.{IsText};
ghost use Rattle.form_formula.specs.NormalForm.{IsNormal};
ghost use Rattle.form_formula.specs.Over.{IsOver};
ghost use Rattle.form_formula.specs.Trees.{Formula};
ghost use Rattle.form_formula.specs.declared.node.Node.{Node};
ghost use Rattle.form_formula.specs.declared.structure.Signature.{Signature};
ghost use Rattle.form_terms.specs.GroundTerms.{GroundTerm, no_terms};
ghost use Rattle.form_terms.specs.Reading.{Reads};
ghost use Rattle.ground_terms.specs.declared.node.TermNode.{TermNode};
ghost use Rattle.ground_gates.specs.Clauses.{meets_clause};
ghost use Rattle.ground_gates.specs.declared.gate.Literal.{Literal};
ghost use Rattle.form_terms.specs.Passing.{IsSatisfiableOver};
ghost use Rattle.form_tables.specs.Clauses.{base_clauses, congruence_clauses};
ghost use Rattle.form_tables.specs.Facts.{Assignment, Clause, Fact, is_met, table_for};
ghost use Rattle.form_tables.specs.Models.{IsLawful, Model, assignment_of};
ghost use Rattle.form_tables.specs.Vocabulary.{IsVocabulary, Vocabulary};
ghost use Rattle.form_tables.specs.Table.{Table, holds, is_there};
ghost use Rattle.ground_instances.specs.GroundAtoms.{GroundAtom, holds_at};
ghost use Rattle.ground_instances.specs.Inputs.{input_value};
ghost use Rattle.ground_instances.specs.Made.{AreInstancesOf};
ghost use Rattle.ground_instances.specs.Readings.{reading};
ghost use Rattle.ground_instances.specs.declared.input.Input.{Input};
ghost use Rattle.ground_instances.specs.declared.instantiation.Instances.{Instances};
ghost use Rattle.ground_problem.specs.GroundClauses.{AreGroundClauses, HaveFacts};
ghost use Rattle.ground_problem.specs.Says.{says};
ghost use Rattle.ground_problem.specs.InputFacts.{are_facts, atom_facts, input_facts};

/// An atom of a formula holds in a table exactly where the table says so of the atom at values.
pub fn atoms_agree()
    ensures { (g : Signature) (table : Table) (scope : List ℕ) (env : List GroundTerm)
        (atom : Formula) →
        IsOver g scope atom → length env ≡ length scope →
        holds table env atom ≡ holds_at (says table) env atom }
{}

/// A formula is read over a table exactly where its instances are, if the terms are there that are
/// so in the table, and atoms at values hold where the table says so.
pub fn readings_agree()
    ensures reads { (g : Signature) (f : Formula) (terms : List GroundTerm) (table : Table) →
        IsOver g [] f →
        (Reads g (is_there table) (holds table) terms 0 [] no_terms f
        ↔ Reads g (is_there table) (holds_at (says table)) terms 0 [] no_terms f) }
    ensures tests { (g : Signature) (f : Formula) (terms : List GroundTerm) (table : Table) →
        IsOver g [] f →
        (Reads g (is_there table) (holds table) terms 0 [] no_terms f
        ↔ (reading g terms (is_there table) (says table) 0 [] no_terms f ≡ true)) }
{}

/// What an input stands for is so, in the table that an assignment stands for, exactly where the
/// input's facts are facts; and never if it has none.
pub fn inputs_are_facts()
    ensures atoms { (a : Assignment) (atom : GroundAtom) →
        says (table_for a) atom ≡ are_facts a (atom_facts atom) }
    ensures inputs { (nodes : List Node) (terms : List TermNode) (a : Assignment) (input : Input) →
        input_value nodes terms (is_there (table_for a)) (says (table_for a)) input
        ≡ are_facts a (input_facts nodes terms input) }
{}

/// Where the variables of facts have the values that an assignment gives these, and meet the
/// clauses, the assignment meets the clauses on facts and the formula is read by it; and where it
/// is so, there are such values.
pub fn ground_clauses_are_readings()
    ensures sound { (g : Signature) (f : Formula) (terms : List GroundTerm) (cs : List Clause)
        (nodes : List Node) (made : Instances) (facts : List Fact) (end : ℕ)
        (clauses : List (List Literal)) (a : Assignment) (values : ℕ → Bool) →
        IsOver g [] f → AreInstancesOf g nodes f terms made →
        AreGroundClauses facts made nodes cs end clauses →
        HaveFacts facts a values → IsTrue (list_all (meets_clause values) clauses) →
        IsTrue (list_all (is_met a) cs)
        × Reads g (is_there (table_for a)) (holds (table_for a)) terms 0 [] no_terms f }
    ensures complete { (g : Signature) (f : Formula) (terms : List GroundTerm) (cs : List Clause)
        (nodes : List Node) (made : Instances) (facts : List Fact) (end : ℕ)
        (clauses : List (List Literal)) (a : Assignment) →
        IsOver g [] f → AreInstancesOf g nodes f terms made →
        AreGroundClauses facts made nodes cs end clauses →
        IsTrue (list_all (is_met a) cs) →
        Reads g (is_there (table_for a)) (holds (table_for a)) terms 0 [] no_terms f →
        (values : ℕ → Bool) × HaveFacts facts a values
        × IsTrue (list_all (meets_clause values) clauses) }
{}

/// If some structure passes a formula over a list of terms, then decision procedures find a lawful
/// model, and a search values that meet the clauses, in which facts are as in the model; whichever
/// of the clauses of the table are listed.
///
/// If there are such values, and those on one term are listed and the model meets those of
/// congruence, listed or not, then the model meets them all, and the formula is read by it.
pub fn ground_clauses_are_complete()
    ensures found { (g : Signature) (f : Formula) (terms : List GroundTerm) (v : Vocabulary)
        (cs : List Clause) (texts : List (List ℕ)) (nodes : List Node) (made : Instances)
        (facts : List Fact) (end : ℕ) (clauses : List (List Literal)) →
        IsOver g [] f → IsNormal f → IsVocabulary g f terms v →
        ((w : List ℕ) → Contains texts w → IsText w) →
        AreInstancesOf g nodes f terms made →
        AreGroundClauses facts made nodes cs end clauses →
        ((c : Clause) → Contains cs c →
        Contains (base_clauses g v ++ congruence_clauses g v) c) →
        IsSatisfiableOver g f (Contains terms) → (spare : ℕ → List ℕ) × (m : Model)
        × (values : ℕ → Bool) × IsLawful g texts spare m v
        × HaveFacts facts (assignment_of g texts spare m) values
        × IsTrue (list_all (meets_clause values) clauses) }
    ensures enough { (g : Signature) (f : Formula) (terms : List GroundTerm) (v : Vocabulary)
        (cs : List Clause) (texts : List (List ℕ)) (nodes : List Node) (made : Instances)
        (facts : List Fact) (end : ℕ) (clauses : List (List Literal)) (spare : ℕ → List ℕ) (m : Model)
        (values : ℕ → Bool) →
        IsOver g [] f → IsNormal f → IsVocabulary g f terms v →
        ((w : List ℕ) → Contains texts w → IsText w) →
        AreInstancesOf g nodes f terms made →
        AreGroundClauses facts made nodes cs end clauses →
        ((c : Clause) → Contains (base_clauses g v) c → Contains cs c) →
        IsLawful g texts spare m v → HaveFacts facts (assignment_of g texts spare m) values →
        IsTrue (list_all (meets_clause values) clauses) →
        IsTrue (list_all (is_met (assignment_of g texts spare m)) (congruence_clauses g v)) →
        IsTrue (list_all (is_met (assignment_of g texts spare m))
        (base_clauses g v ++ congruence_clauses g v))
        × Reads g (is_there (table_for (assignment_of g texts spare m)))
        (holds (table_for (assignment_of g texts spare m))) terms 0 [] no_terms f }
{}

/// The variables of the clauses are below their end, so others can be added from there on.
pub fn ground_clauses_are_below()
    ensures { (cs : List Clause) (nodes : List Node) (made : Instances) (facts : List Fact)
        (end : ℕ) (clauses : List (List Literal)) (clause : List Literal) (l : Literal) →
        AreGroundClauses facts made nodes cs end clauses →
        Contains clauses clause → Contains clause l → l.var < end }
{}
