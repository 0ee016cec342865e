//! Fields, models and whole specifications.

ghost use Rattle.std.specs.Prelude.{◌≡◌};
ghost use Rattle.text_lexer.specs.declared.token.TokenKind.TheVariants as k;
ghost use Rattle.text_tree.specs.ExprGrammar.{behind, sign};
ghost use Rattle.text_tree.specs.Grammar as form;
ghost use Rattle.text_tree.specs.Grammar.{most_levels};
ghost use Rattle.text_tree.specs.Forms.{Sign, first};
ghost use Rattle.text_tree.specs.Texts.{first_of};
ghost use Rattle.text_grammar.specs.Reading.{made, one, starts};
ghost use Rattle.text_syntax.specs.Reads.{Reads, reading};
ghost use Rattle.text_parse.specs.Parts.{model_body};
ghost use Rattle.text_parse.specs.Turns.{Turns, passed};
ghost use Rattle.text_parse.specs.Items.{fields_from, models_from, statics_from};

use crate::closed::closed;
use crate::policies::right;
use crate::types::ty;
use sqlite_items::Items;
use std::alloc::Global;
use text_ast::limits::{MOST_FIELDS, MOST_MODELS, MOST_STATICS};
use text_lexer::TokenKind;
use text_syntax::{Cursor, Stop};
use text_tree::{FieldDef, ModelDef, Named, Policy, Spec};

/// What was read, and behind a comma the right that this word names.
#[tactic(auto, unfolding(text_grammar::specs::Reading::read))]
fn with_right<T: Drop>(
    alloc: Global,
    cursor: &mut Cursor<'_>,
    read: T,
    word: &[u8],
) -> Result<(T, Policy), Stop>
    ensures { Reads (made (λ policy. (read, policy)) (reading most_levels
        (behind (sign k.Comma) (form.right word.now)) cursor.old)) result cursor.new }
{
    cursor.sign(TokenKind::Comma)?;
    let policy = right(alloc, cursor, word)?;
    Ok((read, policy))
}

/// The rights on a field: to read it and to write it.
#[tactic(auto, unfolding(text_grammar::specs::Reading::read, text_tree::specs::Grammar::field_rights))]
pub fn field_rights(alloc: Global, cursor: &mut Cursor<'_>) -> Result<(Policy, Policy), Stop>
    ensures { Reads (reading most_levels form.field_rights cursor.old) result cursor.new }
{
    cursor.sign(TokenKind::BraceOpen)?;
    let read = right(alloc, cursor, b"read")?;
    let rights = with_right(alloc, cursor, read, b"write")?;
    closed(cursor, TokenKind::BraceClose, rights)
}

/// What was read, and the rights on a field behind it.
pub fn with_rights<T: Drop>(
    alloc: Global,
    cursor: &mut Cursor<'_>,
    read: T,
) -> Result<(T, (Policy, Policy)), Stop>
    ensures { Reads (made (λ rights. (read, rights))
        (reading most_levels form.field_rights cursor.old)) result cursor.new }
{
    let rights = field_rights(alloc, cursor)?;
    Ok((read, rights))
}

/// A field of a model.
#[tactic(auto, unfolding(text_grammar::specs::Reading::read, text_tree::specs::Grammar::field_form))]
fn field(alloc: Global, cursor: &mut Cursor<'_>) -> Result<FieldDef, Stop>
    ensures { Reads (reading most_levels form.field_form cursor.old) result cursor.new }
{
    let name = cursor.lower()?.named(alloc)?;
    cursor.sign(TokenKind::Colon)?;
    let ty = ty(alloc, cursor)?;
    let (read, write) = field_rights(alloc, cursor)?;
    Ok(FieldDef {
        name,
        ty,
        read,
        write,
    })
}

/// Passes over a sign.
#[tactic(auto, unfolding(text_grammar::specs::Reading::read))]
fn pass(cursor: &mut Cursor<'_>, kind: TokenKind) -> Result<(), Stop>
    ensures { Reads (passed (one (Sign kind) cursor.old)) result cursor.new }
{
    cursor.sign(kind)?;
    Ok(())
}

/// The next field, with the comma before it, where so many may come; or the end of the model.
fn next_field(alloc: Global, cursor: &mut Cursor<'_>, left: usize) -> Result<Option<FieldDef>, Stop>
    ensures { Turns fields_from left cursor.old result cursor.new }
{
    if !cursor.sees(TokenKind::Comma) {
        pass(cursor, TokenKind::BraceClose)?;
        return Ok(None);
    }
    pass(cursor, TokenKind::Comma)?;
    if !cursor.sees_lower() {
        pass(cursor, TokenKind::BraceClose)?;
        return Ok(None);
    }
    if left == 0 {
        return Err(Stop::TooManyFields);
    }
    Ok(Some(field(alloc, cursor)?))
}

/// The fields of a model, of which so many may come, and the end of the model.
fn fields_within(
    alloc: Global,
    cursor: &mut Cursor<'_>,
    most: usize,
) -> Result<Items<FieldDef>, Stop>
    ensures { Reads (fields_from most cursor.old) result cursor.new }
{
    let mut fields = Items::new(alloc);
    let mut left = most;
    while let Some(field) = next_field(alloc, cursor, left)? {
        fields.push(field)?;
        left -= 1;
    }
    Ok(fields)
}

/// The fields of a model, and the end of the model.
fn fields(alloc: Global, cursor: &mut Cursor<'_>) -> Result<Items<FieldDef>, Stop>
    ensures { Reads (reading most_levels form.fields_form cursor.old) result cursor.new }
{
    fields_within(alloc, cursor, MOST_FIELDS)
}

/// Whether the records of a model are principals, and the offset of its first token.
#[tactic(auto, unfolding(text_grammar::specs::Reading::read, text_tree::specs::Grammar::model_head))]
fn head(cursor: &mut Cursor<'_>) -> Result<(bool, u32), Stop>
    ensures { Reads (made (λ v. (v.0, v.1.at))
        (reading most_levels form.model_head cursor.old)) result cursor.new }
{
    if cursor.sees_word(TokenKind::Lower, b"principal") {
        let word = cursor.word(TokenKind::Lower, b"principal")?;
        cursor.word(TokenKind::Lower, b"model")?;
        return Ok((true, word.at()));
    }
    let word = cursor.word(TokenKind::Lower, b"model")?;
    Ok((false, word.at()))
}

/// What was read, and the fields behind it. What was read is dropped here where there are none.
fn with_fields<T: Drop>(
    alloc: Global,
    cursor: &mut Cursor<'_>,
    read: T,
) -> Result<(T, Items<FieldDef>), Stop>
    ensures { Reads (made (λ fields. (read, fields))
        (reading most_levels form.fields_form cursor.old)) result cursor.new }
{
    let fields = fields(alloc, cursor)?;
    Ok((read, fields))
}

/// The rights on a model and its fields.
#[tactic(auto, unfolding(text_grammar::specs::Reading::read))]
fn model_body(
    alloc: Global,
    cursor: &mut Cursor<'_>,
) -> Result<(Policy, (Policy, Items<FieldDef>)), Stop>
    ensures { Reads (reading most_levels model_body cursor.old) result cursor.new }
{
    cursor.sign(TokenKind::BraceOpen)?;
    let create = right(alloc, cursor, b"create")?;
    cursor.sign(TokenKind::Comma)?;
    let delete = right(alloc, cursor, b"delete")?;
    let ((create, delete), fields) = with_fields(alloc, cursor, (create, delete))?;
    Ok((create, (delete, fields)))
}

/// A model.
#[tactic(auto, unfolding(text_grammar::specs::Reading::read, text_tree::specs::Grammar::model_form))]
pub fn model(alloc: Global, cursor: &mut Cursor<'_>) -> Result<ModelDef, Stop>
    ensures { Reads (reading most_levels form.model_form cursor.old) result cursor.new }
{
    let (principal, at) = head(cursor)?;
    let name = cursor.upper()?.named(alloc)?;
    let (create, (delete, fields)) = model_body(alloc, cursor)?;
    Ok(ModelDef {
        principal,
        name,
        create,
        delete,
        fields,
        at,
    })
}

/// A static principal.
#[tactic(auto, unfolding(text_grammar::specs::Reading::read, text_tree::specs::Grammar::static_form))]
fn static_name(alloc: Global, cursor: &mut Cursor<'_>) -> Result<Named, Stop>
    ensures { Reads (reading most_levels form.static_form cursor.old) result cursor.new }
{
    cursor.word(TokenKind::Lower, b"static")?;
    Ok(cursor.upper()?.named(alloc)?)
}

/// The next static principal, where so many may come; or none.
fn next_static(alloc: Global, cursor: &mut Cursor<'_>, left: usize) -> Result<Option<Named>, Stop>
    ensures { Turns statics_from left cursor.old result cursor.new }
{
    if !cursor.sees_word(TokenKind::Lower, b"static") {
        return Ok(None);
    }
    if left == 0 {
        return Err(Stop::TooManyStatics);
    }
    Ok(Some(static_name(alloc, cursor)?))
}

/// The static principals.
fn statics(alloc: Global, cursor: &mut Cursor<'_>) -> Result<Items<Named>, Stop>
    ensures { Reads (statics_from MOST_STATICS cursor.old) result cursor.new }
{
    let mut statics = Items::new(alloc);
    let mut left = MOST_STATICS;
    while let Some(name) = next_static(alloc, cursor, left)? {
        statics.push(name)?;
        left -= 1;
    }
    Ok(statics)
}

/// Whether a model begins with the next token.
fn sees_model(cursor: &Cursor<'_>) -> bool
    ensures { result ≡ starts (first first_of form.model_form) cursor.now }
{
    if cursor.sees_word(TokenKind::Lower, b"principal") {
        return true;
    }
    cursor.sees_word(TokenKind::Lower, b"model")
}

/// The next model, where so many may come; or none.
fn next_model(alloc: Global, cursor: &mut Cursor<'_>, left: usize) -> Result<Option<ModelDef>, Stop>
    ensures { Turns models_from left cursor.old result cursor.new }
{
    if !sees_model(cursor) {
        return Ok(None);
    }
    if left == 0 {
        return Err(Stop::TooManyModels);
    }
    Ok(Some(model(alloc, cursor)?))
}

/// The models.
fn models(alloc: Global, cursor: &mut Cursor<'_>) -> Result<Items<ModelDef>, Stop>
    ensures { Reads (models_from MOST_MODELS cursor.old) result cursor.new }
{
    let mut models = Items::new(alloc);
    let mut left = MOST_MODELS;
    while let Some(model) = next_model(alloc, cursor, left)? {
        models.push(model)?;
        left -= 1;
    }
    Ok(models)
}

/// A specification.
#[tactic(auto, unfolding(text_grammar::specs::Reading::read, text_tree::specs::Grammar::spec_form, crate::specs::Items::statics_from, crate::specs::Items::models_from))]
pub fn spec(alloc: Global, cursor: &mut Cursor<'_>) -> Result<Spec, Stop>
    ensures { Reads (reading most_levels form.spec_form cursor.old) result cursor.new }
{
    let statics = statics(alloc, cursor)?;
    let models = models(alloc, cursor)?;
    Ok(Spec { statics, models })
}
