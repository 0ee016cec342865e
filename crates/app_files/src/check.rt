//! The stages of the commands.

ghost use Rattle.std.specs.Prelude.{◌≡◌, ◌≢◌, ℕ, List, [], ◌∷◌, Err, IfOk, None};
ghost use Rattle.app_flow.specs.Outside.{IsRead};
ghost use Rattle.type_proper.specs.Steady.{IsSteady};
ghost use Rattle.type_schema.specs.Script.{IsScript};
ghost use Rattle.type_schema.specs.SchemaViews.{schema_of, script_of};
ghost use Rattle.type_typing.specs.Names.{plain_of};
ghost use Rattle.app_files.specs.Answer.{Checks, ChecksFiles, Runs, ScriptOf, SpecOf};
ghost use Rattle.app_files.specs.Loads.{Fetches};
ghost use Rattle.app_files.specs.Stages.{ComesTo, Then};
ghost use Rattle.app_files.specs.Words.{names_of};
ghost use Rattle.app_files.specs.Words as spec_words;

use crate::answer::{Answer, Checked};
use crate::generated::generated;
use crate::load::fetch;
use crate::refusal::Refusal;
use crate::stop::Stop;
use crate::texts::{NamedText, check_script_text, schema_of_text, script_of_text};
use crate::words::{Names, check_of, gen_of};
use app_flow::Shelf;
use std::alloc::Global;
use text_ast::Txt;
use type_schema::{Schema, TScript};

/// The schema of the specification in the file of that name.
pub fn schema_of_file<F: Shelf>(alloc: Global, shelf: &mut F, name: &Txt) -> Result<Schema, Stop>
    ensures asked { ComesTo (Then (Fetches (F.told shelf.old) name.now)
        (SpecOf name.now)) plain_of result }
    ensures steady { IfOk result (λ s. IsSteady (schema_of s)) }
    ensures nothing_added { IfOk result (λ s. (schema_of s).added ≡ []) }
    ensures shelf { IsRead F.told F.calls F.faults shelf.old shelf.new (name.now ∷ []) (result
        ≡ Err Stop.ReadFault) }
{
    let text = fetch(alloc, shelf, name)?;
    let bytes = text.as_slice();
    schema_of_text(alloc, NamedText { name, bytes })
}

/// The script in the file of that name, over the schema.
pub fn script_of_file<F: Shelf>(
    alloc: Global,
    shelf: &mut F,
    schema: &Schema,
    name: &Txt,
) -> Result<TScript, Stop>
    requires steady { IsSteady (schema_of schema.now) }
    requires nothing_added { (schema_of schema.now).added ≡ [] }
    ensures asked { ComesTo (Then (Fetches (F.told shelf.old) name.now)
        (ScriptOf name.now (plain_of schema.now))) script_of result }
    ensures script { IfOk result (λ t. IsScript (script_of t)) }
    ensures shelf { IsRead F.told F.calls F.faults shelf.old shelf.new (name.now ∷ []) (result
        ≡ Err Stop.ReadFault) }
{
    let text = fetch(alloc, shelf, name)?;
    let bytes = text.as_slice();
    script_of_text(alloc, schema, NamedText { name, bytes })
}

/// Checks the script in the file of that name, over the schema.
pub fn check_file<F: Shelf>(
    alloc: Global,
    shelf: &mut F,
    schema: &Schema,
    name: &Txt,
) -> Result<Checked, Stop>
    requires steady { IsSteady (schema_of schema.now) }
    requires nothing_added { (schema_of schema.now).added ≡ [] }
    ensures checked { Then (Then (Fetches (F.told shelf.old) name.now)
        (ScriptOf name.now (plain_of schema.now))) Checks result }
    ensures shelf { IsRead F.told F.calls F.faults shelf.old shelf.new (name.now ∷ []) (result
        ≡ Err Stop.ReadFault) }
{
    let text = fetch(alloc, shelf, name)?;
    let bytes = text.as_slice();
    check_script_text(alloc, schema, NamedText { name, bytes })
}

/// Checks the script in the one file over the specification in the other, which is judged before
/// the script is fetched.
pub fn check_files<F: Shelf>(
    alloc: Global,
    shelf: &mut F,
    names: Names<'_>,
) -> Result<Checked, Stop>
    ensures { (calls : List (List ℕ)) × ChecksFiles (F.told shelf.old)
        (names_of names.entry.spec.now names.entry.script.now) calls result
        × IsRead F.told F.calls F.faults shelf.old shelf.new calls (result ≡ Err Stop.ReadFault) }
{
    let schema = schema_of_file(alloc, shelf, names.spec)?;
    check_file(alloc, shelf, &schema, names.script)
}

/// What the words come to.
pub fn answer_to<F: Shelf>(alloc: Global, words: &[Txt], shelf: &mut F) -> Result<Answer, Stop>
    ensures answered { (calls : List (List ℕ)) × Runs (F.told shelf.old) words.now calls result
        × IsRead F.told F.calls F.faults shelf.old shelf.new calls (result ≡ Err Stop.ReadFault) }
    ensures no_fault { spec_words.check_of words.now ≡ None → result ≢ Err Stop.ReadFault }
{
    if let Some(names) = check_of(words) {
        return Ok(Answer::Checked(check_files(alloc, shelf, names)?));
    }
    match gen_of(words) {
        Some(commands) => Ok(Answer::Generated(generated(alloc, commands)?)),
        None => Err(Stop::Refused(Refusal::Usage)),
    }
}
