//! Whole lines.

ghost use Rattle.std.specs.Prelude.{[], IfErr, IfOk, length, Option, ◌<◌, ◌^◌, ◌≡◌, ◌≢◌};
ghost use Rattle.text_ast.specs.Pieces.{pieces_of};
ghost use Rattle.door_requests.specs.Answers.{answer};
ghost use Rattle.door_requests.specs.Grammar.{line_form};
ghost use Rattle.door_requests.specs.Texts.{IsLineOf};
ghost use Rattle.door_requests.specs.declared.requests.Request as code;
ghost use Rattle.text_grammar.specs.Answers.{to_end};
ghost use Rattle.text_grammar.specs.Reading.{Answer};
ghost use Rattle.text_syntax.specs.Pieces.{AreTokensIn};
ghost use Rattle.text_syntax.specs.Reads.{Reads};
ghost use Rattle.text_parse.specs.Judged.{Judges, IsPlaced, refusal_of};
ghost use Rattle.text_parse.specs.Refused.{offset};
ghost use Rattle.door_requests.specs.Refused.{IsRefusedAs};

use crate::productions::Requests;
use crate::requests::Request;
use std::alloc::Global;
use text_lexer::{Token, lex};
use text_parse::{SyntaxErr, What};
use text_syntax::{Cursor, Stop};

/// The offset of the next token.
fn next_offset(cursor: &Cursor<'_>) -> u32
    requires { cursor.now ≢ [] }
    ensures { result ≡ offset cursor.now }
{
    match cursor.first() {
        Some(piece) => piece.at(),
        None => unreachable!(),
    }
}

/// What is answered where the text was not read at this place of so many tokens.
fn refusal(stop: Stop, cursor: &Cursor<'_>, count: usize) -> SyntaxErr
    requires placed { IsPlaced stop count cursor.now }
    requires few { count < 2 ^ 32 }
    ensures { result ≡ refusal_of stop count cursor.now }
{
    match stop {
        Stop::NotGrammar => SyntaxErr::NotGrammar {
            token: (count - cursor.len()) as u32,
        },
        Stop::TooDeep => SyntaxErr::TooDeep {
            at: next_offset(cursor),
        },
        Stop::TooManyTokens => SyntaxErr::TooManyTokens {
            at: next_offset(cursor),
        },
        Stop::TooManyStatics => SyntaxErr::TooMany {
            what: What::Statics,
            at: next_offset(cursor),
        },
        Stop::TooManyModels => SyntaxErr::TooMany {
            what: What::Models,
            at: next_offset(cursor),
        },
        Stop::TooManyFields => SyntaxErr::TooMany {
            what: What::Fields,
            at: next_offset(cursor),
        },
        Stop::TooManyCommands => SyntaxErr::TooMany {
            what: What::Commands,
            at: next_offset(cursor),
        },
        Stop::OutOfMemory => SyntaxErr::OutOfMemory,
    }
}

/// What is answered for so many tokens, of which this was read and those at the cursor are left.
fn judged(
    read: Result<Option<Request>, Stop>,
    cursor: &Cursor<'_>,
    count: usize,
) -> Result<Option<Request>, SyntaxErr>
    requires placed { IfErr read (λ stop. IsPlaced stop count cursor.now) }
    requires few { count < 2 ^ 32 }
    ensures { (answer : Answer (Option code.Request)) → Reads answer read cursor.now →
        Judges answer count result }
{
    match read {
        Ok(line) => Ok(line),
        Err(stop) => Err(refusal(stop, cursor, count)),
    }
}

/// What was read, if no token is left.
fn ended(read: Option<Request>, cursor: &Cursor<'_>) -> Result<Option<Request>, Stop>
    ensures { Reads (to_end read cursor.now) result cursor.now }
{
    if cursor.is_empty() {
        Ok(read)
    } else {
        Err(Stop::NotGrammar)
    }
}

/// What all tokens spell.
#[tactic(auto, unfolding(crate::specs::Answers::answer))]
fn whole(alloc: Global, cursor: &mut Cursor<'_>) -> Result<Option<Request>, Stop>
    ensures { Reads (answer line_form cursor.old) result cursor.new }
{
    let requests = Requests { alloc };
    let line = requests.line(cursor)?;
    ended(line, cursor)
}

/// What the tokens of a line spell.
fn line_of(alloc: Global, text: &[u8], tokens: &[Token]) -> Result<Option<Request>, SyntaxErr>
    requires tokens { AreTokensIn text.now tokens.now }
    requires few { length tokens.now < 2 ^ 32 }
    ensures { Judges (answer line_form (pieces_of text.now tokens.now))
        (length tokens.now) result }
{
    let mut cursor = Cursor::new(text, tokens);
    let read = whole(alloc, &mut cursor);
    judged(read, &cursor, tokens.len())
}

/// The request that a line spells, or none where the line has no token; or why it spells none, and
/// where.
pub fn parse_request(alloc: Global, text: &[u8]) -> Result<Option<Request>, SyntaxErr>
    requires { length text.now < 2 ^ 32 }
    ensures ok { IfOk result (λ found. IsLineOf text.now found) }
    ensures only { IfOk result (λ found. (other : Option code.Request) →
        IsLineOf text.now other → other ≡ found) }
    ensures refused { IfErr result (λ err. err ≢ SyntaxErr.OutOfMemory →
        IsRefusedAs line_form text.now err) }
    ensures none { IfErr result (λ err. err ≢ SyntaxErr.OutOfMemory →
        (found : Option code.Request) → ¬ (IsLineOf text.now found)) }
{
    let tokens = lex(alloc, text)?;
    line_of(alloc, text, tokens.as_slice())
}
