//! What holds of any line.

ghost use Rattle.std.specs.Prelude.{ℕ, List, Option, ◌≡◌, ◌⊎◌};
ghost use Rattle.door_requests.specs.Grammar.{line_form};
ghost use Rattle.door_requests.specs.Texts.{IsLineOf};
ghost use Rattle.door_requests.specs.declared.requests.Request.{Request};
ghost use Rattle.door_requests.specs.Refused.{IsRefusedAs};
ghost use Rattle.text_parse.specs.declared.syntax_err.SyntaxErr.{SyntaxErr};

/// A line spells one request or has no token, or it is refused for one cause at one place, and never
/// both.
pub fn one_line()
    ensures some { (line : List ℕ) →
        ((x : Option Request) × IsLineOf line x)
        ⊎ ((err : SyntaxErr) × IsRefusedAs line_form line err) }
    ensures one { (line : List ℕ) (x y : Option Request) →
        IsLineOf line x → IsLineOf line y → x ≡ y }
    ensures tree { (line : List ℕ) (x : Option Request) (err : SyntaxErr) →
        IsLineOf line x → ¬ (IsRefusedAs line_form line err) }
    ensures refusal { (line : List ℕ) (err other : SyntaxErr) →
        IsRefusedAs line_form line err → IsRefusedAs line_form line other → err ≡ other }
{}
