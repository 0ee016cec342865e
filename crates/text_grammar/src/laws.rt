//! What holds of the trees of any tokens.

ghost use Rattle.std.specs.Prelude.{[], ℕ, List, true, ◌≡◌, ◌≤◌, ◌∷◌};
ghost use Rattle.text_ast.specs.Pieces.{Piece};
ghost use Rattle.text_tree.specs.ExprGrammar.{Part};
ghost use Rattle.text_tree.specs.Forms.{may};
ghost use Rattle.text_tree.specs.Texts.{IsSpelled, IsSpelledAt, first_of};
ghost use Rattle.text_tree.specs.Grammar.{most_levels, spec_form, script_form};
ghost use Rattle.text_tree.specs.declared.models.Spec.{Spec};
ghost use Rattle.text_tree.specs.declared.commands.Script.{Script};
ghost use Rattle.text_grammar.specs.Answers.{Means, answer};
ghost use Rattle.text_grammar.specs.Firsts.{BeginsItself};
ghost use Rattle.text_grammar.specs.Reading.{Got};

/// Tokens spell at most one specification and at most one script, however many items they have and
/// however deep they nest.
pub fn one_tree()
    ensures spec { (n m : ℕ) (ls : List Piece) (s t : Spec) →
        IsSpelledAt n spec_form s ls → IsSpelledAt m spec_form t ls → s ≡ t }
    ensures script { (n m : ℕ) (ls : List Piece) (s t : Script) →
        IsSpelledAt n script_form s ls → IsSpelledAt m script_form t ls → s ≡ t }
{}

/// The reader of a specification reads the tree that all of the tokens spell within the limits, and
/// else it answers for the first cause at its place.
pub fn spec_answers()
    ensures tree { (x : Spec) (ls : List Piece) → IsSpelled spec_form x ls →
        answer spec_form ls ≡ Got x [] }
    ensures means { (m : ℕ) → most_levels ≤ m → (ls : List Piece) →
        Means m spec_form ls (answer spec_form ls) }
{}

/// The reader of a script reads the tree that all of the tokens spell within the limits, and else
/// it answers for the first cause at its place.
pub fn script_answers()
    ensures tree { (x : Script) (ls : List Piece) → IsSpelled script_form x ls →
        answer script_form ls ≡ Got x [] }
    ensures means { (m : ℕ) → most_levels ≤ m → (ls : List Piece) →
        Means m script_form ls (answer script_form ls) }
{}

/// An expression or a set begins with a token exactly where `first_of` lists it. No other stands
/// first in it, so that this is no matter of levels.
pub fn first_tokens_begin()
    ensures begin { (p : Part) (l : Piece) → may (first_of p) l ≡ true →
        BeginsItself p (l ∷ []) }
    ensures only { (p : Part) (l : Piece) (ls : List Piece) → BeginsItself p (l ∷ ls) →
        may (first_of p) l ≡ true }
{}
