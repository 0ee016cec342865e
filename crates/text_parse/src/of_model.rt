//! Commands that begin with the name of a model.

ghost use Rattle.std.specs.Prelude.{◌≡◌, IfOk};
ghost use Rattle.text_tree.specs.ExprGrammar.{named};
ghost use Rattle.text_tree.specs.Grammar as form;
ghost use Rattle.text_tree.specs.Grammar.{most_levels};
ghost use Rattle.text_grammar.specs.Reading.{made};
ghost use Rattle.text_syntax.specs.Parts.{applied};
ghost use Rattle.text_syntax.specs.Reads.{Reads, reading};
ghost use Rattle.text_parse.specs.Parts.{of_model};

use crate::added::{Added, added};
use crate::closed::closed;
use crate::rights::{field_right_list, model_right_list, reasoned};
use std::alloc::{AllocError, Global};
use text_lexer::TokenKind;
use text_syntax::{Cursor, Stop, Word};
use text_tree::{Command, FieldDef, Named};

/// Three names, and what was read, which is dropped here where memory is wanting.
fn with_names<T: Drop>(
    alloc: Global,
    model: &Word<'_>,
    field: &Word<'_>,
    of: &Word<'_>,
    read: T,
) -> Result<((Named, Named, Named), T), AllocError>
    ensures { IfOk result (λ r. (r.0.0 ≡ named model.now) × (r.0.1 ≡ named field.now)
        × (r.0.2 ≡ named of.now) × (r.1 ≡ read)) }
{
    let model = model.named(alloc)?;
    let field = field.named(alloc)?;
    let of = of.named(alloc)?;
    Ok(((model, field, of), read))
}

/// The command that adds such a field to this model.
fn field_added(
    alloc: Global,
    model: &Word<'_>,
    field: &Word<'_>,
    added: Added<'_>,
) -> Result<Command, AllocError>
    ensures { IfOk result (λ command. command ≡ Command.AddField (named model.now)
        (form.field_of field.now added.entry.0.0 (added.entry.0.1, added.entry.0.2))
        (named added.entry.1) added.entry.2 model.now.at) }
{
    let (rights, record, init) = added;
    let (names, read) = with_names(alloc, model, field, &record, (rights, init))?;
    let (of, name, record) = names;
    let ((ty, read, write), init) = read;
    let field = FieldDef {
        name,
        ty,
        read,
        write,
    };
    Ok(Command::AddField(of, field, record, init, model.at()))
}

/// `AddField` of this model.
#[tactic(auto, unfolding(text_grammar::specs::Reading::read, text_tree::specs::Grammar::add_field))]
fn add_field(alloc: Global, cursor: &mut Cursor<'_>, model: &Word<'_>) -> Result<Command, Stop>
    ensures { Reads (made (applied model.now)
        (reading most_levels form.add_field cursor.old)) result cursor.new }
{
    cursor.word(TokenKind::Upper, b"AddField")?;
    cursor.sign(TokenKind::ParenOpen)?;
    let field = cursor.lower()?;
    cursor.sign(TokenKind::Colon)?;
    let added = added(alloc, cursor)?;
    let added = closed(cursor, TokenKind::ParenClose, added)?;
    Ok(field_added(alloc, model, &field, added)?)
}

/// `RemoveField` of this model.
#[tactic(auto, unfolding(text_grammar::specs::Reading::read, text_tree::specs::Grammar::remove_field))]
fn remove_field(alloc: Global, cursor: &mut Cursor<'_>, model: &Word<'_>) -> Result<Command, Stop>
    ensures { Reads (made (applied model.now)
        (reading most_levels form.remove_field cursor.old)) result cursor.new }
{
    let of = model.named(alloc)?;
    cursor.word(TokenKind::Upper, b"RemoveField")?;
    cursor.sign(TokenKind::ParenOpen)?;
    let field = cursor.lower()?.named(alloc)?;
    cursor.sign(TokenKind::ParenClose)?;
    Ok(Command::RemoveField(of, field, model.at()))
}

/// `UpdateFieldPolicy` of this model.
#[tactic(auto, using(text_syntax::proofs::Folds::made_made), unfolding(text_grammar::specs::Reading::read, text_tree::specs::Grammar::update_field))]
fn update_field(alloc: Global, cursor: &mut Cursor<'_>, model: &Word<'_>) -> Result<Command, Stop>
    ensures { Reads (made (applied model.now)
        (reading most_levels form.update_field cursor.old)) result cursor.new }
{
    let of = model.named(alloc)?;
    cursor.word(TokenKind::Upper, b"UpdateFieldPolicy")?;
    cursor.sign(TokenKind::ParenOpen)?;
    let field = cursor.lower()?.named(alloc)?;
    cursor.sign(TokenKind::Comma)?;
    let (read, write) = field_right_list(alloc, cursor)?;
    let command = Command::UpdateFieldPolicy(of, field, read, write, model.at());
    closed(cursor, TokenKind::ParenClose, command)
}

/// `WeakenFieldPolicy` of this model.
#[tactic(auto, using(text_syntax::proofs::Folds::made_made), unfolding(text_grammar::specs::Reading::read, text_tree::specs::Grammar::weaken_field))]
fn weaken_field(alloc: Global, cursor: &mut Cursor<'_>, model: &Word<'_>) -> Result<Command, Stop>
    ensures { Reads (made (applied model.now)
        (reading most_levels form.weaken_field cursor.old)) result cursor.new }
{
    let of = model.named(alloc)?;
    cursor.word(TokenKind::Upper, b"WeakenFieldPolicy")?;
    cursor.sign(TokenKind::ParenOpen)?;
    let field = cursor.lower()?.named(alloc)?;
    cursor.sign(TokenKind::Comma)?;
    let rights = field_right_list(alloc, cursor)?;
    let ((read, write), reason) = reasoned(alloc, cursor, rights)?;
    let command = Command::WeakenFieldPolicy(of, field, read, write, reason, model.at());
    closed(cursor, TokenKind::ParenClose, command)
}

/// `UpdatePolicy` of this model.
#[tactic(auto, using(text_syntax::proofs::Folds::made_made), unfolding(text_grammar::specs::Reading::read, text_tree::specs::Grammar::update_model))]
fn update_model(alloc: Global, cursor: &mut Cursor<'_>, model: &Word<'_>) -> Result<Command, Stop>
    ensures { Reads (made (applied model.now)
        (reading most_levels form.update_model cursor.old)) result cursor.new }
{
    let of = model.named(alloc)?;
    cursor.word(TokenKind::Upper, b"UpdatePolicy")?;
    cursor.sign(TokenKind::ParenOpen)?;
    let (create, delete) = model_right_list(alloc, cursor)?;
    let command = Command::UpdatePolicy(of, create, delete, model.at());
    closed(cursor, TokenKind::ParenClose, command)
}

/// `WeakenPolicy` of this model.
#[tactic(auto, using(text_syntax::proofs::Folds::made_made), unfolding(text_grammar::specs::Reading::read, text_tree::specs::Grammar::weaken_model))]
fn weaken_model(alloc: Global, cursor: &mut Cursor<'_>, model: &Word<'_>) -> Result<Command, Stop>
    ensures { Reads (made (applied model.now)
        (reading most_levels form.weaken_model cursor.old)) result cursor.new }
{
    let of = model.named(alloc)?;
    cursor.word(TokenKind::Upper, b"WeakenPolicy")?;
    cursor.sign(TokenKind::ParenOpen)?;
    let rights = model_right_list(alloc, cursor)?;
    let ((create, delete), reason) = reasoned(alloc, cursor, rights)?;
    let command = Command::WeakenPolicy(of, create, delete, reason, model.at());
    closed(cursor, TokenKind::ParenClose, command)
}

/// What stands behind the name of this model.
fn of_model(alloc: Global, cursor: &mut Cursor<'_>, model: &Word<'_>) -> Result<Command, Stop>
    ensures { Reads (made (applied model.now)
        (reading most_levels of_model cursor.old)) result cursor.new }
{
    if cursor.sees_word(TokenKind::Upper, b"AddField") {
        return add_field(alloc, cursor, model);
    }
    if cursor.sees_word(TokenKind::Upper, b"RemoveField") {
        return remove_field(alloc, cursor, model);
    }
    if cursor.sees_word(TokenKind::Upper, b"UpdateFieldPolicy") {
        return update_field(alloc, cursor, model);
    }
    if cursor.sees_word(TokenKind::Upper, b"WeakenFieldPolicy") {
        return weaken_field(alloc, cursor, model);
    }
    if cursor.sees_word(TokenKind::Upper, b"UpdatePolicy") {
        return update_model(alloc, cursor, model);
    }
    weaken_model(alloc, cursor, model)
}

/// A command that begins with the name of a model.
pub fn model_command(alloc: Global, cursor: &mut Cursor<'_>) -> Result<Command, Stop>
    ensures { Reads (reading most_levels form.model_command cursor.old) result cursor.new }
{
    let model = cursor.upper()?;
    cursor.sign(TokenKind::ColonColon)?;
    of_model(alloc, cursor, &model)
}
