//! Laws over the definitions: contracts of functions that do nothing.

ghost use Rattle.type_schema.specs.SchemaViews.{script_of};
ghost use Rattle.store_apply.specs.Laws.{AppliedOne, AppliedRights, ScriptSettles};
ghost use Rattle.store_apply.specs.Laws.{ScriptsStart, SpecsSettle};

use type_anew::{
    policies_come_anew, rights_stay, scripts_are_told, scripts_keep_room, specs_are_told,
    specs_have_room,
};
use type_proper::commands_have_literals;
use type_schema::TScript;

/// The schema of a specification may be settled.
pub fn specs_settle()
    ensures { SpecsSettle }
{
    specs_are_told();
    specs_have_room();
}

/// A script that is typed over a schema starts from it.
#[tactic(auto, using(crate::proofs::SettledSchemas::scripts_start))]
pub fn scripts_start()
    ensures { ScriptsStart }
{}

/// The last schema of a script that is typed over a settled schema may be settled: the literals of
/// a script of the code are values.
pub fn script_settles(t: &TScript)
    ensures { ScriptSettles (script_of t.now) }
{
    scripts_are_told();
    scripts_keep_room();
    commands_have_literals(t.commands.as_slice());
}

/// What a script makes of what is stored is one.
#[tactic(auto, using(crate::proofs::AppliedLaws::applied_one))]
pub fn applied_one()
    ensures { AppliedOne }
{}

/// What is stored afterwards has the policies of the script's last schema, under its own numbers. It
/// allows each right on each record whom that schema allows it on the script's last database.
pub fn applied_rights()
    ensures { AppliedRights }
{
    policies_come_anew();
    rights_stay();
}
