//! What is answered for any tokens.

ghost use Rattle.std.specs.Prelude.{[], ℕ, List, ◌≡◌, ◌⊎◌};
ghost use Rattle.text_ast.specs.Pieces.{Piece};
ghost use Rattle.text_tree.specs.Forms.{Cause};
ghost use Rattle.text_tree.specs.Texts.{IsSpelled};
ghost use Rattle.text_tree.specs.Grammar.{spec_form, script_form};
ghost use Rattle.text_tree.specs.declared.models.Spec.{Spec};
ghost use Rattle.text_tree.specs.declared.commands.Script.{Script};
ghost use Rattle.text_grammar.specs.Answers.{answer};
ghost use Rattle.text_grammar.specs.Reading.{Got, Stuck};
ghost use Rattle.text_grammar.specs.Causes.{IsRefused, Stands};

/// Tokens spell a specification within the limits, or they are refused for one cause at one place,
/// and never both; the reader answers so.
pub fn one_spec_answer()
    ensures some { (ls : List Piece) →
        ((x : Spec) × IsSpelled spec_form x ls)
        ⊎ ((c : Cause) × (rest : List Piece) × IsRefused spec_form c ls rest) }
    ensures tree { (x : Spec) (c : Cause) (ls rest : List Piece) →
        IsSpelled spec_form x ls → ¬ (Stands c spec_form ls rest) }
    ensures refusal { (c d : Cause) (ls rest other : List Piece) →
        IsRefused spec_form c ls rest → IsRefused spec_form d ls other →
        (c ≡ d) × (rest ≡ other) }
    ensures got { (x : Spec) (ls rest : List Piece) →
        answer spec_form ls ≡ Got x rest → (rest ≡ []) × IsSpelled spec_form x ls }
    ensures stuck { (c : Cause) (ls rest : List Piece) →
        answer spec_form ls ≡ Stuck c rest → IsRefused spec_form c ls rest }
{}

/// Tokens spell a script within the limits, or they are refused for one cause at one place, and
/// never both; the reader answers so.
pub fn one_script_answer()
    ensures some { (ls : List Piece) →
        ((x : Script) × IsSpelled script_form x ls)
        ⊎ ((c : Cause) × (rest : List Piece) × IsRefused script_form c ls rest) }
    ensures tree { (x : Script) (c : Cause) (ls rest : List Piece) →
        IsSpelled script_form x ls → ¬ (Stands c script_form ls rest) }
    ensures refusal { (c d : Cause) (ls rest other : List Piece) →
        IsRefused script_form c ls rest → IsRefused script_form d ls other →
        (c ≡ d) × (rest ≡ other) }
    ensures got { (x : Script) (ls rest : List Piece) →
        answer script_form ls ≡ Got x rest → (rest ≡ []) × IsSpelled script_form x ls }
    ensures stuck { (c : Cause) (ls rest : List Piece) →
        answer script_form ls ≡ Stuck c rest → IsRefused script_form c ls rest }
{}
