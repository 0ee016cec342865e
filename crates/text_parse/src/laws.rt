//! What holds of any text.

ghost use Rattle.std.specs.Prelude.{ℕ, List, ◌≡◌, ◌⊎◌};
ghost use Rattle.text_lexer.specs.Literal.{IsLiteral};
ghost use Rattle.text_tree.specs.Grammar.{script_form, spec_form};
ghost use Rattle.text_tree.specs.LiteralValue.{literal_value};
ghost use Rattle.text_tree.specs.Texts.{IsScriptText, IsSpecText};
ghost use Rattle.text_tree.specs.declared.models.Spec.{Spec};
ghost use Rattle.text_tree.specs.declared.commands.Script.{Script};
ghost use Rattle.text_parse.specs.Refused.{IsRefusedAs};
ghost use Rattle.text_parse.specs.declared.syntax_err.SyntaxErr.{SyntaxErr};

/// A text spells one specification, or it is refused for one cause at one place, and never both.
pub fn one_spec_text()
    ensures some { (text : List ℕ) →
        ((x : Spec) × IsSpecText text x) ⊎ ((err : SyntaxErr) × IsRefusedAs spec_form text err) }
    ensures one { (text : List ℕ) (x y : Spec) → IsSpecText text x → IsSpecText text y → x ≡ y }
    ensures tree { (text : List ℕ) (x : Spec) (err : SyntaxErr) →
        IsSpecText text x → ¬ (IsRefusedAs spec_form text err) }
    ensures refusal { (text : List ℕ) (err other : SyntaxErr) →
        IsRefusedAs spec_form text err → IsRefusedAs spec_form text other → err ≡ other }
{}

/// A text spells one script, or it is refused for one cause at one place, and never both.
pub fn one_script_text()
    ensures some { (text : List ℕ) →
        ((x : Script) × IsScriptText text x)
        ⊎ ((err : SyntaxErr) × IsRefusedAs script_form text err) }
    ensures one { (text : List ℕ) (x y : Script) →
        IsScriptText text x → IsScriptText text y → x ≡ y }
    ensures tree { (text : List ℕ) (x : Script) (err : SyntaxErr) →
        IsScriptText text x → ¬ (IsRefusedAs script_form text err) }
    ensures refusal { (text : List ℕ) (err other : SyntaxErr) →
        IsRefusedAs script_form text err → IsRefusedAs script_form text other → err ≡ other }
{}

/// A tree has of a text in quotes the bytes that the text stands for.
pub fn literals_have_their_value()
    ensures { (bytes value : List ℕ) → IsLiteral bytes value → literal_value bytes ≡ value }
{}
