//! A token: what it is, and where it stands in its text.

ghost use Rattle.std.specs.Prelude.{◌≡◌};
ghost use Rattle.text_lexer.specs.Token.{IsIn, lexeme_of};

/// What a token is: a word by its first letter, a number, a text in quotes, or one of the signs.
///
/// A reserved word is an `Upper` or a `Lower`.
#[derive(Clone, Copy, Debug, PartialEq, Eq, PartialOrd, Ord, Hash)]
pub enum TokenKind {
    /// A word that begins with an upper-case letter.
    Upper,
    /// A word that begins with a lower-case letter.
    Lower,
    /// A run of digits.
    Number,
    /// A text between quotes, in one line.
    Text,
    /// `(`
    ParenOpen,
    /// `)`
    ParenClose,
    /// `[`
    BracketOpen,
    /// `]`
    BracketClose,
    /// `{`
    BraceOpen,
    /// `}`
    BraceClose,
    /// `,`
    Comma,
    /// `:`
    Colon,
    /// `::`
    ColonColon,
    /// `.`
    Dot,
    /// `->`
    Arrow,
    /// `-`
    Minus,
    /// `+`
    Plus,
    /// `==`
    EqEq,
    /// `!=`
    NotEq,
    /// `<`
    Less,
    /// `<=`
    LessEq,
    /// `>`
    Greater,
    /// `>=`
    GreaterEq,
    /// `!`
    Not,
    /// `&&`
    AndAnd,
    /// `||`
    OrOr,
    /// `|`
    Bar,
    /// `@`
    At,
}

/// A token and its place: it is the bytes from `at` on, up to and without `end`, of its text.
#[derive(Clone, Copy, Debug, PartialEq, Eq, PartialOrd, Ord, Hash)]
pub struct Token {
    pub kind: TokenKind,
    /// The offset of its first byte.
    pub at: u32,
    /// The offset after its last byte.
    pub end: u32,
}

/// The bytes of a token in its text.
pub fn bytes_of(text: &[u8], token: Token) -> &[u8]
    requires { IsIn text.now token }
    ensures { result.now ≡ (lexeme_of text.now token).bytes }
{
    &text[token.at as usize..token.end as usize]
}
