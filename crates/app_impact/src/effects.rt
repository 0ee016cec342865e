//! What the files come to.

ghost use Rattle.std.specs.Prelude.{◌≡◌, ◌≢◌, ℕ, List, Err};
ghost use Rattle.app_files.specs.Words.{names_of};
ghost use Rattle.app_flow.specs.Outside.{IsRead};
ghost use Rattle.app_impact.specs.Answer.{Finds, FindsFiles};
ghost use Rattle.type_schema.specs.SchemaViews.{script_of};
ghost use Rattle.type_schema.specs.Script.{IsScript};

use crate::answer::Impact;
use app_files::{DutyFormulas, Names, Stop, schema_of_file, script_of_file};
use app_flow::Shelf;
use impact_effects::impact;
use sqlite_items::Items;
use std::alloc::Global;
use type_schema::TScript;

/// What the weakenings of the script newly allow.
fn found(alloc: Global, script: TScript) -> Result<Impact, Stop>
    requires { IsScript (script_of script) }
    ensures found { Finds (script_of script) result }
    ensures no_fault { result ≢ Err Stop.ReadFault }
{
    let effects = impact(alloc, &DutyFormulas, &script)?;
    Ok(Impact {
        script,
        effects: Items::from_vec(effects),
    })
}

/// What the weakenings of the script in the one file newly allow, over the specification in the
/// other, which is judged before the script is fetched.
pub(crate) fn find_in_files<F: Shelf>(
    alloc: Global,
    shelf: &mut F,
    names: Names<'_>,
) -> Result<Impact, Stop>
    ensures { (calls : List (List ℕ)) × FindsFiles (F.told shelf.old)
        (names_of names.entry.spec.now names.entry.script.now) calls result
        × IsRead F.told F.calls F.faults shelf.old shelf.new calls (result ≡ Err Stop.ReadFault) }
{
    let schema = schema_of_file(alloc, shelf, names.spec)?;
    let script = script_of_file(alloc, shelf, &schema, names.script)?;
    found(alloc, script)
}
