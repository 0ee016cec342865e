//! What holds of any text.

ghost use Rattle.std.specs.Prelude.{ℕ, List, ◌≡◌, ◌⊎◌};
ghost use Rattle.data_tree.specs.Grammar.{data_form};
ghost use Rattle.data_tree.specs.Texts.{IsDataText};
ghost use Rattle.data_tree.specs.declared.tables.TableLit.{TableLit};
ghost use Rattle.data_parse.specs.Refused.{IsRefusedAs};
ghost use Rattle.text_parse.specs.declared.syntax_err.SyntaxErr.{SyntaxErr};

/// A text spells the tables of a database, or it is refused for one cause at one place, and never
/// both.
pub fn one_data_text()
    ensures some { (text : List ℕ) →
        ((x : List TableLit) × IsDataText text x)
        ⊎ ((err : SyntaxErr) × IsRefusedAs data_form text err) }
    ensures one { (text : List ℕ) (x y : List TableLit) →
        IsDataText text x → IsDataText text y → x ≡ y }
    ensures tree { (text : List ℕ) (x : List TableLit) (err : SyntaxErr) →
        IsDataText text x → ¬ (IsRefusedAs data_form text err) }
    ensures refusal { (text : List ℕ) (err other : SyntaxErr) →
        IsRefusedAs data_form text err → IsRefusedAs data_form text other → err ≡ other }
{}
