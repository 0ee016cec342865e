//! Where initialisers are evaluated.

ghost use Rattle.std.specs.Prelude.{◌≡◌, IfOk, Some, map, true};
ghost use Rattle.std.specs.List.{AllByRecursion};
ghost use Rattle.data_meaning.specs.Database.{HasNoFurtherTables, IsDatabase};
ghost use Rattle.duty_listing.specs.Uses.{use_data};
ghost use Rattle.online_ground.specs.Grounds.{AddsPlain, AreBelow, AreGrounds, IsWithin, ground_at};
ghost use Rattle.type_schema.specs.Script.{IsScript, schema_at};
ghost use Rattle.type_schema.specs.SchemaViews.{command_of, script_of};
ghost use Rattle.type_schema.specs.Uses.{init_uses_of};
ghost use Rattle.type_schema.specs.Views.{init_of};

use data_records::Database;
use duty_listing::{Use, uses_in};
use std::alloc::{AllocError, Global};
use std::marker::Model;
use store_migrate::{prefix, widen};
use type_schema::{FieldNo, TCommand, TInit, TScript};

/// The database before each command of a script; or nothing, where no initialiser uses a field that
/// the script adds, so that each can be evaluated on the database as it stands.
#[derive(Drop)]
pub struct Grounds {
    runs: Option<Vec<Database>>,
}

impl Model for Grounds {
    ghost use Rattle.std.specs.Option.{option_map};
    ghost use Rattle.std.specs.Coded.{codes};
    ghost use Rattle.data_records.specs.Codes.{database_code};
    ghost use Rattle.online_ground.specs.Grounds as spec;

    ghost Value = { spec.Grounds };

    ghost coded = { Prim.hlevel (codes, database_code) };

    ghost view = { λ g. option_map (λ v. v.items) g.runs };
}

/// Whether the fields have numbers below this one.
fn are_below(uses: &[Use], next: FieldNo) -> bool
    ensures { result ≡ true → AreBelow next (map use_data uses.now) }
{
    for used in uses {
        if used.field >= next {
            return false;
        }
    }
    true
}

/// Whether the initialiser uses fields below this number alone.
fn is_plain(alloc: Global, init: &TInit, next: FieldNo) -> Result<bool, AllocError>
    ensures { IfOk result (λ plain. plain ≡ true →
        AreBelow next (init_uses_of (init_of init.now))) }
{
    let uses = uses_in(alloc, init)?;
    Ok(are_below(uses.as_slice(), next))
}

/// Whether the field that the command adds, if it adds one, is made from fields below this number
/// alone.
fn adds_plain(alloc: Global, command: &TCommand, next: FieldNo) -> Result<bool, AllocError>
    ensures { IfOk result (λ plain. plain ≡ true → AddsPlain next (command_of command.now)) }
{
    match command {
        TCommand::AddField(_, _, init) => is_plain(alloc, init, next),
        TCommand::CreateModel(_)
        | TCommand::DeleteModel(_)
        | TCommand::AddStatic(_)
        | TCommand::RemoveStatic(_)
        | TCommand::AddPrincipal(_)
        | TCommand::RemoveField(..)
        | TCommand::UpdateFieldPolicy(..)
        | TCommand::WeakenFieldPolicy(..)
        | TCommand::UpdatePolicy(..)
        | TCommand::WeakenPolicy(..) => Ok(true),
    }
}

/// Whether all are.
fn are_plain(alloc: Global, commands: &[TCommand], next: FieldNo) -> Result<bool, AllocError>
    ensures { IfOk result (λ plain. plain ≡ true →
        AllByRecursion (AddsPlain next) (map command_of commands.now)) }
{
    let mut plain = true;
    for command in commands {
        plain = plain && adds_plain(alloc, command, next)?;
    }
    Ok(plain)
}

/// The database before each command.
fn runs_of(alloc: Global, t: &TScript, d: &Database) -> Result<Vec<Database>, AllocError>
    requires script { IsScript (script_of t.now) }
    requires over { IsDatabase (schema_at (script_of t.now) 0) d.now }
    requires only { HasNoFurtherTables (schema_at (script_of t.now) 0) d.now }
    ensures { IfOk result (λ runs. AreGrounds (script_of t.now) d.now (Some runs.items)) }
{
    let wide = widen(alloc, t, d)?;
    let mut runs = Vec::new(alloc);
    for k in 0..t.commands.len() {
        runs.push(prefix(alloc, t, k as u32, &wide)?)?;
    }
    Ok(runs)
}

impl Grounds {
    /// Those of the script on the database.
    pub fn new(alloc: Global, t: &TScript, d: &Database) -> Result<Grounds, AllocError>
        requires script { IsScript (script_of t.now) }
        requires over { IsDatabase (schema_at (script_of t.now) 0) d.now }
        requires only { HasNoFurtherTables (schema_at (script_of t.now) 0) d.now }
        ensures { IfOk result (AreGrounds (script_of t.now) d.now) }
    {
        let next = t.schemas.as_slice()[0].next_field;
        if are_plain(alloc, t.commands.as_slice(), next)? {
            return Ok(Grounds { runs: None });
        }
        Ok(Grounds {
            runs: Some(runs_of(alloc, t, d)?),
        })
    }

    /// Where the initialiser of the command behind the first k is evaluated.
    pub fn at<'a>(&'a self, d: &'a Database, k: usize) -> &'a Database
        requires { IsWithin self.now k }
        ensures { result.now ≡ ground_at self.now d.now k }
    {
        match &self.runs {
            None => d,
            Some(runs) => &runs[k],
        }
    }
}
