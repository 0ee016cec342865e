//! The check of the text of a certificate.

ghost use Rattle.std.specs.Prelude.{◌≡◌, ◌≢◌, ◌≤◌, ℕ, List, ◌∷◌, [], length, Err};
ghost use Rattle.app_certify.specs.Answer.{Rechecks, RechecksFile, RechecksText};
ghost use Rattle.app_files.specs.Words.{names_of};
ghost use Rattle.app_flow.specs.Outside.{IsRead};
ghost use Rattle.type_schema.specs.SchemaViews.{script_of};
ghost use Rattle.type_schema.specs.Script.{IsScript};

use crate::answer::CheckedCertificate;
use crate::formulas::DutyFormulas;
use crate::limits::MOST_CERTIFICATE_BYTES;
use app_files::{NamedText, Stop, fetch_within, schema_of_file, script_of_file};
use app_flow::Shelf;
use certify_scripts::recheck_script;
use std::alloc::Global;
use text_ast::Txt;
use type_schema::TScript;

/// Checks the text of that name as a certificate of the script.
fn recheck_text(
    alloc: Global,
    script: TScript,
    text: NamedText<'_>,
) -> Result<CheckedCertificate, Stop>
    requires script { IsScript (script_of script) }
    requires within { length text.bytes.now ≤ MOST_CERTIFICATE_BYTES }
    ensures checked { RechecksText (script_of script) text.entry.name.now text.entry.bytes.now
        result }
    ensures no_fault { result ≢ Err Stop.ReadFault }
{
    let found = recheck_script(alloc, &DutyFormulas, &script, text.bytes)?;
    let cert = text.name.copy(alloc)?;
    Ok(CheckedCertificate {
        script,
        cert,
        found,
    })
}

/// Checks the file of that name as a certificate of the script.
fn recheck_file<F: Shelf>(
    alloc: Global,
    shelf: &mut F,
    script: TScript,
    name: &Txt,
) -> Result<CheckedCertificate, Stop>
    requires { IsScript (script_of script) }
    ensures checked { RechecksFile (F.told shelf.old) name.now (script_of script) result }
    ensures shelf { IsRead F.told F.calls F.faults shelf.old shelf.new (name.now ∷ []) (result
        ≡ Err Stop.ReadFault) }
{
    let text = fetch_within(alloc, shelf, name, MOST_CERTIFICATE_BYTES)?;
    let bytes = text.as_slice();
    recheck_text(alloc, script, NamedText { name, bytes })
}

/// Checks the third file as a certificate of the script in the second over the specification in the
/// first. Each file is judged before the next is fetched.
pub(crate) fn recheck_files<F: Shelf>(
    alloc: Global,
    shelf: &mut F,
    spec: &Txt,
    script: &Txt,
    cert: &Txt,
) -> Result<CheckedCertificate, Stop>
    ensures { (calls : List (List ℕ)) × Rechecks (F.told shelf.old)
        (names_of spec.now script.now) cert.now calls result
        × IsRead F.told F.calls F.faults shelf.old shelf.new calls (result ≡ Err Stop.ReadFault) }
{
    let schema = schema_of_file(alloc, shelf, spec)?;
    let typed = script_of_file(alloc, shelf, &schema, script)?;
    recheck_file(alloc, shelf, typed, cert)
}
