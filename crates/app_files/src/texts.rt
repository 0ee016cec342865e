//! The check of texts, whoever has read them.

ghost use Rattle.std.specs.Prelude.{◌≡◌, ◌≢◌, ◌≤◌, [], length, Err, IfOk};
ghost use Rattle.type_proper.specs.Steady.{IsSteady};
ghost use Rattle.type_schema.specs.SchemaViews.{schema_of, script_of};
ghost use Rattle.type_schema.specs.Script.{IsScript};
ghost use Rattle.type_typing.specs.Names.{plain_of};
ghost use Rattle.app_files.specs.Answer.{AsksTexts, Checks, ChecksText, ChecksTexts, ScriptOf, SpecOf};
ghost use Rattle.app_files.specs.Headline.{IsJudged};
ghost use Rattle.app_files.specs.Stages.{ComesTo};
ghost use Rattle.app_files.specs.Words.{names_of};

use crate::answer::Checked;
use crate::formulas::DutyFormulas;
use crate::limits::MOST_FILE_BYTES;
use crate::load::read;
use crate::stop::Stop;
use crate::types::{typed_script, typed_spec};
use check_scripts::check_script;
use std::alloc::Global;
use text_ast::Txt;
use text_tree::{Script, Spec};
use type_schema::{Schema, TScript};

/// A text, and the name under which it is reported.
#[derive(Clone, Copy)]
pub struct NamedText<'t> {
    /// The name.
    pub name: &'t Txt,
    /// The bytes of the text.
    pub bytes: &'t [u8],
}

/// The schema of the specification that the text is.
pub fn schema_of_text(alloc: Global, text: NamedText<'_>) -> Result<Schema, Stop>
    requires { length text.bytes.now ≤ MOST_FILE_BYTES }
    ensures read { ComesTo (SpecOf text.entry.name.now text.entry.bytes.now) plain_of result }
    ensures steady { IfOk result (λ s. IsSteady (schema_of s)) }
    ensures nothing_added { IfOk result (λ s. (schema_of s).added ≡ []) }
    ensures no_fault { result ≢ Err Stop.ReadFault }
{
    let spec: Spec = read(alloc, text.name, text.bytes)?;
    typed_spec(alloc, text.name, &spec)
}

/// The script that the text is, over the schema.
pub(crate) fn script_of_text(
    alloc: Global,
    schema: &Schema,
    text: NamedText<'_>,
) -> Result<TScript, Stop>
    requires within { length text.bytes.now ≤ MOST_FILE_BYTES }
    requires steady { IsSteady (schema_of schema.now) }
    requires nothing_added { (schema_of schema.now).added ≡ [] }
    ensures read { ComesTo (ScriptOf text.entry.name.now (plain_of schema.now)
        text.entry.bytes.now) script_of result }
    ensures script { IfOk result (λ t. IsScript (script_of t)) }
    ensures no_fault { result ≢ Err Stop.ReadFault }
{
    let script: Script = read(alloc, text.name, text.bytes)?;
    typed_script(alloc, text.name, schema, &script)
}

/// Checks the script.
fn checked(alloc: Global, script: TScript) -> Result<Checked, Stop>
    requires { IsScript (script_of script) }
    ensures checked { Checks (script_of script) result }
    ensures no_fault { result ≢ Err Stop.ReadFault }
{
    let outcome = check_script(alloc, &DutyFormulas, &script)?;
    Ok(Checked { script, outcome })
}

/// Checks the script that the text is, over the schema.
///
/// The schema is that of a specification, as `schema_of_text` gives it. What is found speaks of
/// just these bytes; so do the refusals, each of which has its cause in them.
pub fn check_script_text(
    alloc: Global,
    schema: &Schema,
    text: NamedText<'_>,
) -> Result<Checked, Stop>
    requires within { length text.bytes.now ≤ MOST_FILE_BYTES }
    requires steady { IsSteady (schema_of schema.now) }
    requires nothing_added { (schema_of schema.now).added ≡ [] }
    ensures checked { ChecksText text.entry.name.now (plain_of schema.now)
        text.entry.bytes.now result }

    // What is found is so: nobody gains a right that no command weakens, or the leak is real.
    ensures headline { IfOk result (IsJudged (ScriptOf text.entry.name.now (plain_of schema.now)
        text.entry.bytes.now)) }
    ensures no_fault { result ≢ Err Stop.ReadFault }
{
    let script = script_of_text(alloc, schema, text)?;
    checked(alloc, script)
}

/// Checks the script that the one text is, over the specification that the other is.
///
/// What is found speaks of just these bytes; so do the refusals, each of which has its cause in
/// them.
pub fn check_texts(
    alloc: Global,
    spec: NamedText<'_>,
    script: NamedText<'_>,
) -> Result<Checked, Stop>
    requires spec { length spec.bytes.now ≤ MOST_FILE_BYTES }
    requires script { length script.bytes.now ≤ MOST_FILE_BYTES }
    ensures checked { ChecksTexts (names_of spec.entry.name.now script.entry.name.now)
        spec.entry.bytes.now script.entry.bytes.now result }

    // What is found is so: nobody gains a right that no command weakens, or the leak is real.
    ensures headline { IfOk result (IsJudged (AsksTexts
        (names_of spec.entry.name.now script.entry.name.now)
        spec.entry.bytes.now script.entry.bytes.now)) }
    ensures no_fault { result ≢ Err Stop.ReadFault }
{
    let schema = schema_of_text(alloc, spec)?;
    check_script_text(alloc, &schema, script)
}
