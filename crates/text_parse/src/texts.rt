//! Whole texts.

ghost use Rattle.std.specs.Prelude.{[], IfErr, IfOk, length, ◌<◌, ◌^◌, ◌≡◌, ◌≢◌};
ghost use Rattle.text_ast.specs.Pieces.{pieces_of};
ghost use Rattle.text_tree.specs.Grammar as form;
ghost use Rattle.text_tree.specs.Texts.{IsScriptText, IsSpecText};
ghost use Rattle.text_tree.specs.declared.models.Spec.{Spec};
ghost use Rattle.text_tree.specs.declared.commands.Script.{Script};
ghost use Rattle.text_grammar.specs.Reading.{Answer};
ghost use Rattle.text_grammar.specs.Answers.{answer, to_end};
ghost use Rattle.text_syntax.specs.Pieces.{AreTokensIn};
ghost use Rattle.text_syntax.specs.Reads.{Reads};
ghost use Rattle.text_parse.specs.Refused.{IsRefusedAs, offset};
ghost use Rattle.text_parse.specs.Judged.{Judges, IsPlaced, refusal_of};

use crate::commands::script;
use crate::models::spec;
use crate::syntax_err::{SyntaxErr, What};
use std::alloc::Global;
use text_lexer::{Token, lex};
use text_syntax::{Cursor, Stop};
use text_tree::{Script, Spec};

/// The offset of the next token.
fn next_offset(cursor: &Cursor<'_>) -> u32
    requires { cursor.now ≢ [] }
    ensures { result ≡ offset cursor.now }
{
    match cursor.first() {
        Some(piece) => piece.at(),
        None => unreachable!(),
    }
}

/// What is answered where a form was not read at this place of so many tokens.
fn refusal(stop: Stop, cursor: &Cursor<'_>, count: usize) -> SyntaxErr
    requires placed { IsPlaced stop count cursor.now }
    requires few { count < 2 ^ 32 }
    ensures { result ≡ refusal_of stop count cursor.now }
{
    match stop {
        Stop::NotGrammar => SyntaxErr::NotGrammar {
            token: (count - cursor.len()) as u32,
        },
        Stop::TooDeep => SyntaxErr::TooDeep {
            at: next_offset(cursor),
        },
        Stop::TooManyTokens => SyntaxErr::TooManyTokens {
            at: next_offset(cursor),
        },
        Stop::TooManyStatics => SyntaxErr::TooMany {
            what: What::Statics,
            at: next_offset(cursor),
        },
        Stop::TooManyModels => SyntaxErr::TooMany {
            what: What::Models,
            at: next_offset(cursor),
        },
        Stop::TooManyFields => SyntaxErr::TooMany {
            what: What::Fields,
            at: next_offset(cursor),
        },
        Stop::TooManyCommands => SyntaxErr::TooMany {
            what: What::Commands,
            at: next_offset(cursor),
        },
        Stop::OutOfMemory => SyntaxErr::OutOfMemory,
    }
}

/// What is answered for so many tokens, of which this was read and those at the cursor are left.
fn judged<T: Drop>(read: Result<T, Stop>, cursor: &Cursor<'_>, count: usize) -> Result<T, SyntaxErr>
    requires placed { IfErr read (λ stop. IsPlaced stop count cursor.now) }
    requires few { count < 2 ^ 32 }
    ensures { (answer : Answer T) → Reads answer read cursor.now → Judges answer count result }
{
    match read {
        Ok(tree) => Ok(tree),
        Err(stop) => Err(refusal(stop, cursor, count)),
    }
}

/// What was read, if no token is left.
fn ended<T: Drop>(read: T, cursor: &Cursor<'_>) -> Result<T, Stop>
    ensures { Reads (to_end read cursor.now) result cursor.now }
{
    if cursor.is_empty() {
        Ok(read)
    } else {
        Err(Stop::NotGrammar)
    }
}

/// The specification that all tokens spell.
#[tactic(auto, unfolding(text_grammar::specs::Answers::answer))]
fn whole_spec(alloc: Global, cursor: &mut Cursor<'_>) -> Result<Spec, Stop>
    ensures { Reads (answer form.spec_form cursor.old) result cursor.new }
{
    let spec = spec(alloc, cursor)?;
    ended(spec, cursor)
}

/// The script that all tokens spell.
#[tactic(auto, unfolding(text_grammar::specs::Answers::answer))]
fn whole_script(alloc: Global, cursor: &mut Cursor<'_>) -> Result<Script, Stop>
    ensures { Reads (answer form.script_form cursor.old) result cursor.new }
{
    let script = script(alloc, cursor)?;
    ended(script, cursor)
}

/// The specification that the tokens of a text spell.
fn spec_of(alloc: Global, text: &[u8], tokens: &[Token]) -> Result<Spec, SyntaxErr>
    requires tokens { AreTokensIn text.now tokens.now }
    requires few { length tokens.now < 2 ^ 32 }
    ensures { Judges (answer form.spec_form (pieces_of text.now tokens.now))
        (length tokens.now) result }
{
    let mut cursor = Cursor::new(text, tokens);
    let read = whole_spec(alloc, &mut cursor);
    judged(read, &cursor, tokens.len())
}

/// The script that the tokens of a text spell.
fn script_of(alloc: Global, text: &[u8], tokens: &[Token]) -> Result<Script, SyntaxErr>
    requires tokens { AreTokensIn text.now tokens.now }
    requires few { length tokens.now < 2 ^ 32 }
    ensures { Judges (answer form.script_form (pieces_of text.now tokens.now))
        (length tokens.now) result }
{
    let mut cursor = Cursor::new(text, tokens);
    let read = whole_script(alloc, &mut cursor);
    judged(read, &cursor, tokens.len())
}

/// The specification that a text spells, or why it spells none, and where.
pub fn parse_spec(alloc: Global, text: &[u8]) -> Result<Spec, SyntaxErr>
    requires { length text.now < 2 ^ 32 }
    ensures ok { IfOk result (λ found. IsSpecText text.now found) }
    ensures only { IfOk result (λ found. (other : Spec) → IsSpecText text.now other → other
        ≡ found) }
    ensures refused { IfErr result (λ err. err ≢ SyntaxErr.OutOfMemory →
        IsRefusedAs form.spec_form text.now err) }
    ensures none { IfErr result (λ err. err ≢ SyntaxErr.OutOfMemory →
        (found : Spec) → ¬ (IsSpecText text.now found)) }
{
    let tokens = lex(alloc, text)?;
    spec_of(alloc, text, tokens.as_slice())
}

/// The script that a text spells, or why it spells none, and where.
pub fn parse_script(alloc: Global, text: &[u8]) -> Result<Script, SyntaxErr>
    requires { length text.now < 2 ^ 32 }
    ensures ok { IfOk result (λ found. IsScriptText text.now found) }
    ensures only { IfOk result (λ found. (other : Script) →
        IsScriptText text.now other → other ≡ found) }
    ensures refused { IfErr result (λ err. err ≢ SyntaxErr.OutOfMemory →
        IsRefusedAs form.script_form text.now err) }
    ensures none { IfErr result (λ err. err ≢ SyntaxErr.OutOfMemory →
        (found : Script) → ¬ (IsScriptText text.now found)) }
{
    let tokens = lex(alloc, text)?;
    script_of(alloc, text, tokens.as_slice())
}
