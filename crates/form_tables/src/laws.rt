//! What holds of the tables of any formula and any list of terms.

ghost use Rattle.std.specs.Prelude.{◌≡◌, ◌↔◌, ◌==◌, ℕ, IsTrue, List, [], ◌++◌, Some, Contains};
ghost use Rattle.std.specs.Prelude.{int_lt};
ghost use Rattle.std.specs.Ordering.{int_eq};
ghost use Rattle.std.specs.List.{list_all};
ghost use Rattle.text_ast.specs.Words.{IsText};
ghost use Rattle.form_formula.specs.NormalForm.{IsNormal};
ghost use Rattle.form_formula.specs.Over.{IsOver};
ghost use Rattle.form_formula.specs.Trees.{Formula};
ghost use Rattle.form_formula.specs.declared.structure.Range.TheVariants as Range;
ghost use Rattle.form_formula.specs.declared.structure.Signature.{Signature};
ghost use Rattle.form_formula.specs.declared.structure.Structure.{Structure};
ghost use Rattle.form_terms.specs.GroundTerms.{GroundTerm, no_terms};
ghost use Rattle.form_terms.specs.Listing.{Lists};
ghost use Rattle.form_terms.specs.Passing.{Choice, IsChoice, IsSatisfiableOver, PassesWith};
ghost use Rattle.form_terms.specs.Reading.{Agree, Reads};
ghost use Rattle.form_terms.specs.Satisfying.{SatisfiesWith, leading_elements};
ghost use Rattle.form_terms.specs.Structures.{IsStructure};
ghost use Rattle.form_terms.specs.Universe.{ArisesWithin, IsClosedSet, IsHerbrandTerm};
ghost use Rattle.form_tables.specs.Clauses.{IsTyped, base_clauses, congruence_clauses};
ghost use Rattle.form_tables.specs.Consistent.{IsConsistent, range_of};
ghost use Rattle.form_tables.specs.Facts.{Assignment, Fact, Noun, below, facts_at, term, is_fact};
ghost use Rattle.form_tables.specs.Facts.{is_met, raised, same, table_for, text};
ghost use Rattle.form_tables.specs.Made.{made, made_choice, table_of};
ghost use Rattle.form_tables.specs.Models.{IsLawful, IsNumeric, Model, assignment_of, noun_number};
ghost use Rattle.form_tables.specs.Table.{Table, holds, is_there};
ghost use Rattle.form_tables.specs.Vocabulary.{AreFormed, IsVocabulary, Vocabulary, told};

/// A formula has a vocabulary over each list of terms that are formed of each other, as are those
/// that arise within so many rounds and those of a stratified formula.
pub fn vocabularies_exist()
    ensures exists { (g : Signature) (f : Formula) (terms : List GroundTerm) →
        IsOver g [] f → AreFormed g f terms → (v : Vocabulary) × IsVocabulary g f terms v }
    ensures within { (g : Signature) (f : Formula) (n : ℕ) (terms : List GroundTerm) →
        IsOver g [] f → Lists (ArisesWithin g f n) terms → AreFormed g f terms }
    ensures herbrand { (g : Signature) (f : Formula) (terms : List GroundTerm) →
        IsOver g [] f → Lists (IsHerbrandTerm g f) terms → AreFormed g f terms }
{}

/// A structure with a choice has a table, which is consistent, with which it agrees, and over which
/// each formula is read that the structure passes.
pub fn structure_has_table()
    ensures consistent { (g : Signature) (f : Formula) (s : Structure) (c : Choice)
        (terms : List GroundTerm) (v : Vocabulary) →
        IsStructure g s → IsChoice g s f c → IsVocabulary g f terms v →
        IsConsistent g v (table_of s c) }
    ensures agrees { (g : Signature) (f : Formula) (s : Structure) (c : Choice)
        (terms : List GroundTerm) (v : Vocabulary) →
        IsStructure g s → IsChoice g s f c → IsVocabulary g f terms v →
        Agree g f s c v.named (is_there (table_of s c)) (holds (table_of s c)) }
    ensures reads { (g : Signature) (f : Formula) (s : Structure) (c : Choice)
        (terms : List GroundTerm) (v : Vocabulary) →
        IsOver g [] f → IsNormal f → IsStructure g s → IsVocabulary g f terms v →
        PassesWith g f (Contains terms) s c →
        Reads g (is_there (table_of s c)) (holds (table_of s c)) terms 0 [] no_terms f }
{}

/// A consistent table has a structure with a choice. It passes each formula that is read over the
/// table; and it satisfies that formula if the terms are closed and the table names no more.
pub fn table_has_structure()
    ensures structure { (g : Signature) (f : Formula) (terms : List GroundTerm) (v : Vocabulary)
        (table : Table) →
        IsOver g [] f → IsVocabulary g f terms v → IsConsistent g v table →
        IsStructure g (made g v table) }
    ensures passes { (g : Signature) (f : Formula) (terms : List GroundTerm) (v : Vocabulary)
        (table : Table) →
        IsOver g [] f → IsNormal f → IsVocabulary g f terms v → IsConsistent g v table →
        Reads g (is_there table) (holds table) terms 0 [] no_terms f →
        PassesWith g f (Contains terms) (made g v table) (made_choice g v table) }
    ensures satisfies { (g : Signature) (f : Formula) (terms : List GroundTerm) (v : Vocabulary)
        (table : Table) →
        IsOver g [] f → IsNormal f → IsVocabulary g f terms v → IsConsistent g v table →
        Reads g (is_there table) (holds table) terms 0 [] no_terms f →
        IsClosedSet g f (Contains terms) →
        ((t : GroundTerm) → Contains v.named t → Contains terms t) →
        SatisfiesWith g f (made g v table) (leading_elements (made_choice g v table) 0 f) }
{}

/// Some structure passes a formula over a list of terms exactly where the formula is read over them
/// by some consistent table.
pub fn tables_are_complete()
    ensures { (g : Signature) (f : Formula) (terms : List GroundTerm) (v : Vocabulary) →
        IsOver g [] f → IsNormal f → IsVocabulary g f terms v →
        (IsSatisfiableOver g f (Contains terms) ↔ ((table : Table) × IsConsistent g v table
        × Reads g (is_there table) (holds table) terms 0 [] no_terms f)) }
{}

/// An assignment meets the clauses exactly where the table that it stands for is consistent.
pub fn clauses_are_consistency()
    ensures { (g : Signature) (f : Formula) (terms : List GroundTerm) (v : Vocabulary)
        (a : Assignment) →
        IsVocabulary g f terms v → IsTyped g v a →
        (IsTrue (list_all (is_met a) (base_clauses g v ++ congruence_clauses g v))
        ↔ IsConsistent g v (table_for a)) }
{}

/// Some structure passes a formula over a list of terms exactly where some assignment meets the
/// clauses, and the formula is read over the terms by it.
pub fn assignments_are_complete()
    ensures { (g : Signature) (f : Formula) (terms : List GroundTerm) (v : Vocabulary) →
        IsOver g [] f → IsNormal f → IsVocabulary g f terms v →
        (IsSatisfiableOver g f (Contains terms) ↔ ((a : Assignment) × IsTyped g v a
        × IsTrue (list_all (is_met a) (base_clauses g v ++ congruence_clauses g v))
        × Reads g (is_there (table_for a)) (holds (table_for a)) terms 0 [] no_terms f)) }
{}

/// An atom holds in the table that an assignment stands for exactly where its facts are facts.
pub fn atoms_are_facts()
    ensures { (a : Assignment) (env : List GroundTerm) (atom : Formula) (facts : List Fact) →
        facts_at env atom ≡ Some facts →
        holds (table_for a) env atom ≡ list_all (is_fact a) facts }
{}

/// What decision procedures find stands for an assignment: each term has what its range asks;
/// elements and texts are the same where their classes are, and numbers and truth values are those
/// that were found.
pub fn models_are_assignments()
    ensures typed { (g : Signature) (v : Vocabulary) (texts : List (List ℕ)) (spare : ℕ → List ℕ)
        (m : Model) →
        IsLawful g texts spare m v → IsTyped g v (assignment_of g texts spare m) }
    ensures elements { (g : Signature) (v : Vocabulary) (texts : List (List ℕ))
        (spare : ℕ → List ℕ) (m : Model) (t u : GroundTerm) (sort : ℕ) →
        IsLawful g texts spare m v →
        range_of g t ≡ Some (Range.Rec sort) → range_of g u ≡ Some (Range.Rec sort) →
        is_fact (assignment_of g texts spare m) (same (term t) (term u))
        ≡ (m.class t == m.class u) }
    ensures texts { (g : Signature) (v : Vocabulary) (texts : List (List ℕ)) (spare : ℕ → List ℕ)
        (m : Model) (t u : GroundTerm) →
        IsLawful g texts spare m v → Contains (told v) t → Contains (told v) u →
        range_of g t ≡ Some Range.Str → range_of g u ≡ Some Range.Str →
        is_fact (assignment_of g texts spare m) (same (term t) (term u))
        ≡ (m.class t == m.class u) }
    ensures literals { (g : Signature) (v : Vocabulary) (texts : List (List ℕ))
        (spare : ℕ → List ℕ) (m : Model) (t : GroundTerm) (w : List ℕ) →
        IsLawful g texts spare m v → Contains (told v) t → Contains texts w →
        range_of g t ≡ Some Range.Str →
        is_fact (assignment_of g texts spare m) (same (term t) (text w))
        ≡ (m.class t == m.text_class w) }
    ensures numbers { (g : Signature) (v : Vocabulary) (texts : List (List ℕ))
        (spare : ℕ → List ℕ) (m : Model) (x y : Noun) →
        IsLawful g texts spare m v → IsNumeric g x → IsNumeric g y →
        is_fact (assignment_of g texts spare m) (same x y)
        ≡ int_eq (noun_number m x) (noun_number m y) }
    ensures order { (g : Signature) (v : Vocabulary) (texts : List (List ℕ))
        (spare : ℕ → List ℕ) (m : Model) (x y : Noun) →
        IsLawful g texts spare m v → IsNumeric g x → IsNumeric g y →
        is_fact (assignment_of g texts spare m) (below x y)
        ≡ int_lt (noun_number m x) (noun_number m y) }
    ensures flags { (g : Signature) (v : Vocabulary) (texts : List (List ℕ))
        (spare : ℕ → List ℕ) (m : Model) (t : GroundTerm) →
        IsLawful g texts spare m v → range_of g t ≡ Some Range.Flag →
        is_fact (assignment_of g texts spare m) (raised t) ≡ m.raised t }
{}

/// Some structure passes a formula over a list of terms exactly where decision procedures find a
/// lawful model by which the clauses are met and the formula is read over the terms.
pub fn models_are_complete()
    ensures { (g : Signature) (f : Formula) (terms : List GroundTerm) (v : Vocabulary)
        (texts : List (List ℕ)) →
        IsOver g [] f → IsNormal f → IsVocabulary g f terms v →
        ((w : List ℕ) → Contains texts w → IsText w) →
        (IsSatisfiableOver g f (Contains terms) ↔ ((spare : ℕ → List ℕ) × (m : Model)
        × IsLawful g texts spare m v
        × IsTrue (list_all (is_met (assignment_of g texts spare m))
        (base_clauses g v ++ congruence_clauses g v))
        × Reads g (is_there (table_for (assignment_of g texts spare m)))
        (holds (table_for (assignment_of g texts spare m))) terms 0 [] no_terms f)) }
{}
