//! What holds of the formulas, the structures and the terms of any signature.

ghost use Rattle.std.specs.Prelude.{◌≡◌, ◌↔◌, Bool, IsTrue, ℕ, suc, Contains, List, [], length};
ghost use Rattle.form_formula.specs.NormalForm.{IsNormal};
ghost use Rattle.form_formula.specs.Over.{IsOver};
ghost use Rattle.form_formula.specs.Trees.{Formula};
ghost use Rattle.form_formula.specs.declared.structure.Signature.{Signature};
ghost use Rattle.form_formula.specs.declared.structure.Structure.{Structure};
ghost use Rattle.form_terms.specs.Cut.{IsNamedThroughout, cut, leading_places};
ghost use Rattle.form_strata.specs.SortGraph.{IsStratified};
ghost use Rattle.form_terms.specs.Counts.{count_after, node_count, term_count, terms_counted};
ghost use Rattle.form_terms.specs.Examples.{eighteen, nineteen, nothing_left, nothing_left_terms};
ghost use Rattle.form_terms.specs.Examples.{twenty, two_sorts, unreached};
ghost use Rattle.form_terms.specs.Listing.{Lists, herbrand_terms, of_sort, terms_after};
ghost use Rattle.form_terms.specs.GroundTerms.{GroundTerm, no_terms};
ghost use Rattle.form_terms.specs.Passing.{Choice, IsChoice, IsSatisfiableOver, Passes, PassesWith};
ghost use Rattle.form_terms.specs.Reading.{Agree, Reads, Speaks};
ghost use Rattle.form_terms.specs.Satisfying.{IsSatisfiable, Satisfies, SatisfiesWith};
ghost use Rattle.form_terms.specs.Satisfying.{leading_elements};
ghost use Rattle.form_terms.specs.Structures.{IsStructure};
ghost use Rattle.form_terms.specs.Universe.{ArisesWithin, IsClosedSet, IsHerbrandTerm, IsShallowTerm};
ghost use Rattle.form_terms.specs.Universe.{HasNeeded, is_needed};

/// A structure that satisfies a formula passes it, whatever the terms.
pub fn satisfied_passes()
    ensures listed { (g : Signature) (f : Formula) (s : Structure) (terms : List GroundTerm) →
        Satisfies g f s → Passes g f (Contains terms) s }
    ensures herbrand { (g : Signature) (f : Formula) (s : Structure) →
        Satisfies g f s → Passes g f (IsHerbrandTerm g f) s }
    ensures shallow { (g : Signature) (f : Formula) (s : Structure) →
        Satisfies g f s → Passes g f (IsShallowTerm g f) s }
{}

/// A structure that passes a formula over a list of terms which is closed satisfies the formula
/// when it is cut down to the elements that the terms name, and the `exists` that the formula
/// begins with hold at the elements that were chosen for them.
pub fn passing_is_cut()
    ensures satisfies { (g : Signature) (f : Formula) (s : Structure) (c : Choice)
        (terms : List GroundTerm) →
        IsOver g [] f → IsNormal f → IsStructure g s → IsClosedSet g f (Contains terms) →
        PassesWith g f (Contains terms) s c → Satisfies g f (cut g s c terms) }
    ensures leading { (g : Signature) (f : Formula) (s : Structure) (c : Choice)
        (terms : List GroundTerm) →
        IsOver g [] f → IsNormal f → IsStructure g s → IsClosedSet g f (Contains terms) →
        PassesWith g f (Contains terms) s c →
        SatisfiesWith g f (cut g s c terms) (leading_places g s c terms 0 f) }
{}

/// A structure that passes a formula over a closed list of terms satisfies it as it is, if each
/// element is named by a term or is the default of its sort.
pub fn passing_is_whole()
    ensures { (g : Signature) (f : Formula) (s : Structure) (c : Choice) (terms : List GroundTerm) →
        IsOver g [] f → IsNormal f → IsStructure g s → IsClosedSet g f (Contains terms) →
        IsNamedThroughout g s c terms → PassesWith g f (Contains terms) s c →
        SatisfiesWith g f s (leading_elements c 0 f) }
{}

/// The terms of a stratified formula are closed.
pub fn stratified_is_closed()
    ensures { (g : Signature) (f : Formula) (terms : List GroundTerm) →
        IsOver g [] f → IsStratified g f → Lists (IsHerbrandTerm g f) terms →
        IsClosedSet g f (Contains terms) }
{}

/// A stratified formula is satisfiable if it is so over its terms.
pub fn stratified_is_complete()
    ensures { (g : Signature) (f : Formula) →
        IsOver g [] f → IsNormal f → IsStratified g f →
        IsSatisfiableOver g f (IsHerbrandTerm g f) → IsSatisfiable g f }
{}

/// A formula is read over terms, where those that name elements are there and atoms hold where they
/// are true of these elements, exactly where the structure passes it over the terms.
pub fn reading_is_passing()
    ensures passes { (g : Signature) (f : Formula) (s : Structure) (c : Choice)
        (terms spoken : List GroundTerm)
        (is_there : GroundTerm → Bool) (holds : List GroundTerm → Formula → Bool) →
        IsOver g [] f → IsNormal f → Speaks g f terms spoken → IsChoice g s f c →
        Agree g f s c spoken is_there holds → Reads g is_there holds terms 0 [] no_terms f →
        PassesWith g f (Contains terms) s c }
    ensures reads { (g : Signature) (f : Formula) (s : Structure) (c : Choice)
        (terms spoken : List GroundTerm)
        (is_there : GroundTerm → Bool) (holds : List GroundTerm → Formula → Bool) (n : ℕ) →
        IsOver g [] f → IsNormal f → Speaks g f terms spoken → IsStructure g s →
        ((t : GroundTerm) → Contains terms t → ArisesWithin g f n t) →
        Agree g f s c spoken is_there holds → PassesWith g f (Contains terms) s c →
        Reads g is_there holds terms 0 [] no_terms f }
{}

/// The needed sorts are the fewest that have those of the formula and whatever total functions
/// lead to.
pub fn needed_is_least()
    ensures needed { (g : Signature) (f : Formula) → IsOver g [] f → HasNeeded g f (is_needed g f) }
    ensures least { (g : Signature) (f : Formula) (test : ℕ → Bool) (sort : ℕ) →
        HasNeeded g f test → IsTrue (is_needed g f sort) → IsTrue (test sort) }
{}

/// The terms that arise within so many rounds are a list, and so are all terms of a stratified
/// formula; passing over the list is passing over the terms.
pub fn terms_are_listed()
    ensures within { (g : Signature) (f : Formula) (n : ℕ) →
        IsOver g [] f → Lists (ArisesWithin g f n) (terms_after g f n) }
    ensures stratified { (g : Signature) (f : Formula) →
        IsOver g [] f → IsStratified g f → Lists (IsHerbrandTerm g f) (herbrand_terms g f) }
    ensures herbrand { (g : Signature) (f : Formula) (s : Structure) (terms : List GroundTerm) →
        Lists (IsHerbrandTerm g f) terms →
        Passes g f (Contains terms) s ↔ Passes g f (IsHerbrandTerm g f) s }
    ensures shallow { (g : Signature) (f : Formula) (s : Structure) (terms : List GroundTerm) →
        Lists (IsShallowTerm g f) terms →
        Passes g f (Contains terms) s ↔ Passes g f (IsShallowTerm g f) s }
{}

/// A list of the terms that arise within so many rounds, or of all terms of a stratified formula,
/// is as long as they are counted, in all and by sorts; and there one round more adds none.
pub fn terms_are_counted()
    ensures within { (g : Signature) (f : Formula) (n : ℕ) (terms : List GroundTerm) →
        IsOver g [] f → Lists (ArisesWithin g f n) terms → length terms ≡ terms_counted g f n }
    ensures within_sort { (g : Signature) (f : Formula) (n sort : ℕ) (terms : List GroundTerm) →
        IsOver g [] f → Lists (ArisesWithin g f n) terms →
        length (of_sort g f sort terms) ≡ count_after g f n sort }
    ensures stratified { (g : Signature) (f : Formula) (terms : List GroundTerm) →
        IsOver g [] f → IsStratified g f → Lists (IsHerbrandTerm g f) terms →
        length terms ≡ terms_counted g f g.sorts }
    ensures stratified_sort { (g : Signature) (f : Formula) (sort : ℕ) (terms : List GroundTerm) →
        IsOver g [] f → IsStratified g f → Lists (IsHerbrandTerm g f) terms →
        length (of_sort g f sort terms) ≡ count_after g f g.sorts sort }
    ensures settled { (g : Signature) (f : Formula) (sort : ℕ) →
        IsOver g [] f → IsStratified g f →
        count_after g f (suc g.sorts) sort ≡ count_after g f g.sorts sort }
{}

/// The counts of formulas that were counted by hand. The first can't be read over its terms.
pub fn examples_are_counted()
    ensures five { term_count two_sorts nothing_left ≡ 5 }
    ensures five_listed { herbrand_terms two_sorts nothing_left ≡ nothing_left_terms }
    ensures five_not_read { (is_there : GroundTerm → Bool)
        (holds : List GroundTerm → Formula → Bool) →
        Reads two_sorts is_there holds nothing_left_terms 0 [] no_terms nothing_left → ⊥ }
    ensures twenty { term_count twenty (unreached 19) ≡ 445 }
    ensures twenty_nodes { node_count twenty (unreached 19) ≡ 126 }
    ensures nineteen { term_count nineteen (unreached 18) ≡ 404 }
    ensures nineteen_nodes { node_count nineteen (unreached 18) ≡ 120 }
    ensures eighteen { term_count eighteen (unreached 17) ≡ 365 }
{}
