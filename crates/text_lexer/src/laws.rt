//! What holds of the tokens of any text.

ghost use Rattle.text_lexer.specs.Lexeme.{IsLexeme, Lexeme};
ghost use Rattle.text_lexer.specs.Lexes.{Lexes, is_blank};
ghost use Rattle.text_lexer.specs.Literal.{IsLiteral};
ghost use Rattle.text_lexer.specs.Refused.{Refuses};
ghost use Rattle.text_lexer.specs.Token.{IsBefore, IsIn, lexeme_of, lexemes_of};
ghost use Rattle.text_lexer.specs.Written.{IsPart, Spaced, are_apart, lexemes, places};
ghost use Rattle.text_lexer.specs.Written.{text_of_lexemes};
ghost use Rattle.text_lexer.specs.declared.lex_err.LexErr.{LexErr};
ghost use Rattle.text_lexer.specs.declared.limits.TheConstants.{MOST_TEXT_BYTES};
ghost use Rattle.text_lexer.specs.declared.token.Token.{Token};
ghost use Rattle.text_lexer.specs.declared.token.TokenKind.TheVariants.{Text};
ghost use Rattle.std.specs.List.{All, AllPairs, list_all};
ghost use Rattle.std.specs.Prelude.{IsTrue, List, length, ℕ, ◌≡◌, ◌≤◌, ◌⊎◌};
ghost use Rattle.std.specs.Str.{IsUtf8};

/// A text has at most one list of tokens.
pub fn one_token_list()
    ensures { (text : List ℕ) (tokens others : List Token) →
        Lexes text tokens → Lexes text others → tokens ≡ others }
{}

/// The tokens of a text stand in it, one after another.
pub fn tokens_in_order()
    ensures in_text { (text : List ℕ) (tokens : List Token) →
        Lexes text tokens → All (IsIn text) tokens }
    ensures in_order { (text : List ℕ) (tokens : List Token) →
        Lexes text tokens → AllPairs IsBefore tokens }
{}

/// The bytes of each token of a text are a lexeme of its kind.
pub fn tokens_are_lexemes()
    ensures { (text : List ℕ) (tokens : List Token) →
        Lexes text tokens → All (λ token. IsLexeme (lexeme_of text token)) tokens }
{}

/// A text has tokens, or it is refused for one cause at one place, and never both.
pub fn one_answer()
    ensures some { (text : List ℕ) →
        ((tokens : List Token) × Lexes text tokens) ⊎ ((err : LexErr) × Refuses text err) }
    ensures tokens { (text : List ℕ) (tokens : List Token) (err : LexErr) →
        Lexes text tokens → ¬ (Refuses text err) }
    ensures refusal { (text : List ℕ) (err other : LexErr) →
        Refuses text err → Refuses text other → err ≡ other }
{}

/// Lexemes that are written apart are the tokens of their text, each at its place.
pub fn written_lexemes_are_tokens()
    ensures lexes { (end : List ℕ) (parts : List Spaced) →
        IsTrue (are_apart parts) → All IsPart (lexemes parts) → IsTrue (list_all is_blank end) →
        Lexes (text_of_lexemes end parts) (places 0 parts) }
    ensures lexemes { (end : List ℕ) (parts : List Spaced) →
        lexemes_of (text_of_lexemes end parts) (places 0 parts) ≡ lexemes parts }
{}

/// A literal stands for one list of bytes, and in a text that is UTF-8 for a text.
pub fn literals_are_texts()
    ensures one { (bytes value other : List ℕ) →
        IsLiteral bytes value → IsLiteral bytes other → value ≡ other }
    ensures text { (text : List ℕ) (token : Token) (value : List ℕ) →
        IsUtf8 text → IsLiteral (lexeme_of text token).bytes value → IsUtf8 value }
    ensures short { (lexeme : Lexeme) (value : List ℕ) →
        IsLexeme lexeme → lexeme.kind ≡ Text → IsLiteral lexeme.bytes value →
        length value ≤ MOST_TEXT_BYTES }
{}
