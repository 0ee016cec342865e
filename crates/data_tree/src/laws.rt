//! What is answered for any tokens.

ghost use Rattle.std.specs.Prelude.{[], ℕ, List, ◌≡◌, ◌⊎◌};
ghost use Rattle.text_ast.specs.Pieces.{Piece};
ghost use Rattle.text_tree.specs.Forms.{Cause};
ghost use Rattle.data_tree.specs.Texts.{IsSpelled};
ghost use Rattle.data_tree.specs.Grammar.{data_form};
ghost use Rattle.data_tree.specs.declared.tables.TableLit.{TableLit};
ghost use Rattle.data_tree.specs.Answers.{answer};
ghost use Rattle.text_grammar.specs.Reading.{Got, Stuck};
ghost use Rattle.data_tree.specs.Causes.{IsRefused, Stands};

/// Tokens spell tables within the limit of levels, or they are refused for one cause at one place,
/// and never both; they spell one tree at most, and the reader answers so.
pub fn one_data_answer()
    ensures some { (ls : List Piece) →
        ((x : List TableLit) × IsSpelled data_form x ls)
        ⊎ ((c : Cause) × (rest : List Piece) × IsRefused data_form c ls rest) }
    ensures one { (x y : List TableLit) (ls : List Piece) →
        IsSpelled data_form x ls → IsSpelled data_form y ls → x ≡ y }
    ensures tree { (x : List TableLit) (c : Cause) (ls rest : List Piece) →
        IsSpelled data_form x ls → ¬ (Stands c data_form ls rest) }
    ensures refusal { (c d : Cause) (ls rest other : List Piece) →
        IsRefused data_form c ls rest → IsRefused data_form d ls other →
        (c ≡ d) × (rest ≡ other) }
    ensures got { (x : List TableLit) (ls rest : List Piece) →
        answer data_form ls ≡ Got x rest → (rest ≡ []) × IsSpelled data_form x ls }
    ensures stuck { (c : Cause) (ls rest : List Piece) →
        answer data_form ls ≡ Stuck c rest → IsRefused data_form c ls rest }
{}
