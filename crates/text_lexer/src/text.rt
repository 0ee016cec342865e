//! The tokens of a whole text.

ghost use Rattle.text_lexer.specs.Front.{front, placed};
ghost use Rattle.text_lexer.specs.Lexes.{IsTokenOf, Lexes};
ghost use Rattle.text_lexer.specs.Refused.{Refuses};
ghost use Rattle.text_lexer.specs.Lexeme.{IsLexeme};
ghost use Rattle.text_lexer.specs.Token.{IsBefore, IsIn, lexeme_of};
ghost use Rattle.text_lexer.specs.declared.token.Token.{Token};
ghost use Rattle.std.specs.List.{All, AllPairs};
ghost use Rattle.std.specs.Prelude.{IfErr, IfOk, List, MatchResult, drop, length, ◌<◌, ◌^◌, ◌≡◌};
ghost use Rattle.std.specs.Prelude.{◌≢◌};
ghost use Rattle.std.specs.Str.{IsUtf8};

use crate::front::front_token;
use crate::gap::gap_end;
use crate::lex_err::LexErr;
use crate::token::Token;
use std::alloc::Global;
use std::str::from_utf8;

/// Refuses what is not UTF-8.
fn check_utf8(text: &[u8]) -> Result<(), LexErr>
    requires { length text.now < 2 ^ 32 }
    ensures ok { IfOk result (λ _. IsUtf8 text.now) }
    ensures err { IfErr result (Refuses text.now) }
{
    match from_utf8(text) {
        Ok(_) => Ok(()),
        Err(e) => Err(LexErr::NotText {
            at: e.valid_up_to() as u32,
        }),
    }
}

/// The token that begins at `at`.
fn token_at(text: &[u8], at: usize) -> Result<Token, LexErr>
    requires begins { at < length text.now }
    requires small { length text.now < 2 ^ 32 }
    ensures value { result ≡ placed at (front (drop at text.now)) }
    ensures ok { IfOk result (λ token. (token.at ≡ at) × IsTokenOf text.now token) }
    ensures only { (token : Token) → token.at ≡ at → IsTokenOf text.now token → result ≡ Ok token }
    ensures within { IfOk result (IsIn text.now) }
{
    match front_token(&text[at..]) {
        Ok(front) => Ok(Token {
            kind: front.kind,
            at: at as u32,
            end: (at + front.len) as u32,
        }),
        Err(fault) => Err(fault.cause.refusal((at + fault.at) as u32)),
    }
}

/// The tokens of a text, in order, or why it has none, and where.
///
/// What is not UTF-8 is sought in the whole text first, and the other causes in reading order.
pub fn lex(alloc: Global, text: &[u8]) -> Result<Vec<Token>, LexErr>
    requires { length text.now < 2 ^ 32 }

    ensures ok { IfOk result (λ tokens. Lexes text.now tokens.items) }
    ensures only { IfOk result (λ tokens. (others : List Token) → Lexes text.now others →
        others ≡ tokens.items) }
    ensures refused { IfErr result (λ err. err ≢ LexErr.OutOfMemory → Refuses text.now err) }

    // What callers read the tokens by.
    ensures lexemes { IfOk result
        (λ tokens. All (λ token. IsLexeme (lexeme_of text.now token)) tokens.items) }
    ensures in_text { IfOk result (λ tokens. All (IsIn text.now) tokens.items) }
    ensures in_order { IfOk result (λ tokens. AllPairs IsBefore tokens.items) }
{
    check_utf8(text)?;
    let mut tokens = Vec::new(alloc);
    let mut at = gap_end(text);
    while at < text.len() {
        let token = token_at(text, at)?;
        tokens.push(token)?;
        let end = token.end as usize;
        at = end + gap_end(&text[end..]);
    }
    Ok(tokens)
}
