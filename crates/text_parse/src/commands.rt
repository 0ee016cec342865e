//! Commands and whole scripts.

ghost use Rattle.std.specs.Prelude.{◌≡◌, codes};
ghost use Rattle.text_tree.specs.declared.commands.Command.TheVariants as command;
ghost use Rattle.text_tree.specs.Forms.{first};
ghost use Rattle.text_tree.specs.Grammar as form;
ghost use Rattle.text_tree.specs.Grammar.{most_levels, named_command};
ghost use Rattle.text_tree.specs.Texts.{first_of};
ghost use Rattle.text_grammar.specs.Reading.{starts};
ghost use Rattle.text_syntax.specs.Reads.{Reads, reading};
ghost use Rattle.text_parse.specs.Items.{commands_from};
ghost use Rattle.text_parse.specs.Parts.{create_model, word_with_name};
ghost use Rattle.text_parse.specs.Turns.{Turns};

use crate::closed::closed;
use crate::models::model;
use crate::of_model::model_command;
use sqlite_items::Items;
use std::alloc::Global;
use text_ast::limits::MOST_COMMANDS;
use text_lexer::TokenKind;
use text_syntax::{Cursor, Stop};
use text_tree::{Command, Named, Script};

/// `CreateModel`.
#[tactic(auto, using(text_syntax::proofs::Folds::made_made), unfolding(text_grammar::specs::Reading::read))]
fn create(alloc: Global, cursor: &mut Cursor<'_>) -> Result<Command, Stop>
    ensures { Reads (reading most_levels create_model cursor.old) result cursor.new }
{
    let word = cursor.word(TokenKind::Upper, b"CreateModel")?;
    cursor.sign(TokenKind::ParenOpen)?;
    let model = model(alloc, cursor)?;
    closed(
        cursor,
        TokenKind::ParenClose,
        Command::CreateModel(model, word.at()),
    )
}

/// This word with a name in parentheses, and the offset of the word.
#[tactic(auto, unfolding(text_grammar::specs::Reading::read))]
fn word_with_name(alloc: Global, cursor: &mut Cursor<'_>, word: &[u8]) -> Result<(Named, u32), Stop>
    ensures { Reads (reading most_levels (word_with_name word.now) cursor.old) result cursor.new }
{
    let word = cursor.word(TokenKind::Upper, word)?;
    cursor.sign(TokenKind::ParenOpen)?;
    let name = cursor.upper()?;
    cursor.sign(TokenKind::ParenClose)?;
    Ok((name.named(alloc)?, word.at()))
}

/// `DeleteModel`.
#[tactic(auto, using(text_syntax::proofs::Folds::made_made), unfolding(text_grammar::specs::Reading::read))]
fn delete_model(alloc: Global, cursor: &mut Cursor<'_>) -> Result<Command, Stop>
    ensures { Reads (reading most_levels
        (named_command (codes "DeleteModel") command.DeleteModel) cursor.old) result cursor.new }
{
    let (name, at) = word_with_name(alloc, cursor, b"DeleteModel")?;
    Ok(Command::DeleteModel(name, at))
}

/// `AddStatic`.
#[tactic(auto, using(text_syntax::proofs::Folds::made_made), unfolding(text_grammar::specs::Reading::read))]
fn add_static(alloc: Global, cursor: &mut Cursor<'_>) -> Result<Command, Stop>
    ensures { Reads (reading most_levels
        (named_command (codes "AddStatic") command.AddStatic) cursor.old) result cursor.new }
{
    let (name, at) = word_with_name(alloc, cursor, b"AddStatic")?;
    Ok(Command::AddStatic(name, at))
}

/// `RemoveStatic`.
#[tactic(auto, using(text_syntax::proofs::Folds::made_made), unfolding(text_grammar::specs::Reading::read))]
fn remove_static(alloc: Global, cursor: &mut Cursor<'_>) -> Result<Command, Stop>
    ensures { Reads (reading most_levels
        (named_command (codes "RemoveStatic") command.RemoveStatic) cursor.old) result cursor.new }
{
    let (name, at) = word_with_name(alloc, cursor, b"RemoveStatic")?;
    Ok(Command::RemoveStatic(name, at))
}

/// `AddPrincipal`.
#[tactic(auto, using(text_syntax::proofs::Folds::made_made), unfolding(text_grammar::specs::Reading::read))]
fn add_principal(alloc: Global, cursor: &mut Cursor<'_>) -> Result<Command, Stop>
    ensures { Reads (reading most_levels
        (named_command (codes "AddPrincipal") command.AddPrincipal) cursor.old) result cursor.new }
{
    let (name, at) = word_with_name(alloc, cursor, b"AddPrincipal")?;
    Ok(Command::AddPrincipal(name, at))
}

/// A command.
fn command(alloc: Global, cursor: &mut Cursor<'_>) -> Result<Command, Stop>
    ensures { Reads (reading most_levels form.command_form cursor.old) result cursor.new }
{
    if cursor.sees_word(TokenKind::Upper, b"CreateModel") {
        return create(alloc, cursor);
    }
    if cursor.sees_word(TokenKind::Upper, b"DeleteModel") {
        return delete_model(alloc, cursor);
    }
    if cursor.sees_word(TokenKind::Upper, b"AddStatic") {
        return add_static(alloc, cursor);
    }
    if cursor.sees_word(TokenKind::Upper, b"RemoveStatic") {
        return remove_static(alloc, cursor);
    }
    if cursor.sees_word(TokenKind::Upper, b"AddPrincipal") {
        return add_principal(alloc, cursor);
    }
    model_command(alloc, cursor)
}

/// Whether a command begins with the next token.
#[tactic(auto, using(crate::proofs::CommandStarts::command_starts))]
fn sees_command(cursor: &Cursor<'_>) -> bool
    ensures { result ≡ starts (first first_of form.command_form) cursor.now }
{
    cursor.sees_word(TokenKind::Upper, b"CreateModel")
        || cursor.sees_word(TokenKind::Upper, b"DeleteModel")
        || cursor.sees_word(TokenKind::Upper, b"AddStatic")
        || cursor.sees_word(TokenKind::Upper, b"RemoveStatic")
        || cursor.sees_word(TokenKind::Upper, b"AddPrincipal")
        || cursor.sees_upper()
}

/// The next command, where so many may come; or none.
fn next_command(
    alloc: Global,
    cursor: &mut Cursor<'_>,
    left: usize,
) -> Result<Option<Command>, Stop>
    ensures { Turns commands_from left cursor.old result cursor.new }
{
    if !sees_command(cursor) {
        return Ok(None);
    }
    if left == 0 {
        return Err(Stop::TooManyCommands);
    }
    Ok(Some(command(alloc, cursor)?))
}

/// The commands.
fn commands(alloc: Global, cursor: &mut Cursor<'_>) -> Result<Items<Command>, Stop>
    ensures { Reads (commands_from MOST_COMMANDS cursor.old) result cursor.new }
{
    let mut commands = Items::new(alloc);
    let mut left = MOST_COMMANDS;
    while let Some(command) = next_command(alloc, cursor, left)? {
        commands.push(command)?;
        left -= 1;
    }
    Ok(commands)
}

/// A script.
#[tactic(auto, unfolding(text_grammar::specs::Reading::read, text_tree::specs::Grammar::script_form, crate::specs::Items::commands_from))]
pub fn script(alloc: Global, cursor: &mut Cursor<'_>) -> Result<Script, Stop>
    ensures { Reads (reading most_levels form.script_form cursor.old) result cursor.new }
{
    let commands = commands(alloc, cursor)?;
    Ok(Script { commands })
}
