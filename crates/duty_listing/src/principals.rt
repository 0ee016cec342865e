//! Kinds of principals.

ghost use Rattle.std.specs.Prelude.{◌≡◌, ◌≤◌, ℕ, [], ◌∷◌, ◌++◌, not, IfOk, OnOk, filter, length};
ghost use Rattle.std.specs.Prelude.{map, is_some};
ghost use Rattle.std.specs.List.{list_any};
ghost use Rattle.type_schema.specs.Kinds as rule;
ghost use Rattle.type_schema.specs.Schema as plain;
ghost use Rattle.type_schema.specs.Script as script;
ghost use Rattle.type_schema.specs.SchemaViews.{command_of, schema_of, script_of};
ghost use Rattle.duty_listing.specs.Kinds.{ever_has, kept_by, kinds_on_the_way};
ghost use Rattle.duty_listing.specs.Kinds.{models_from, statics_from};

use std::alloc::{AllocError, Global};
use type_schema::{Kind, ModelNo, Schema, StaticNo, TCommand, TScript};

/// Whether the schema has the static, or the model as principal.
fn has_kind(s: &Schema, kind: Kind) -> bool
    ensures { result ≡ rule.has_kind (schema_of s.now) kind }
{
    match kind {
        Kind::Static(n) => has_static(s, n),
        Kind::Model(m) => has_principal(s, m),
    }
}

/// Whether there is such a static.
fn has_static(s: &Schema, n: StaticNo) -> bool
    ensures { result ≡ is_some (plain.static_of (schema_of s.now) n) }
{
    for known in s.statics.as_slice() {
        if known.number == n {
            return true;
        }
    }
    false
}

/// Whether the model is there and marked as principal.
fn has_principal(s: &Schema, m: ModelNo) -> bool
    ensures { result ≡ plain.is_principal_model (schema_of s.now) m }
{
    for info in s.models.as_slice() {
        if info.number == m {
            return info.principal;
        }
    }
    false
}

/// Whether a schema on the way has the kind.
fn is_ever(t: &TScript, kind: Kind) -> bool
    ensures { result ≡ ever_has (script_of t.now) kind }
{
    for s in t.schemas.as_slice() {
        if has_kind(s, kind) {
            return true;
        }
    }
    false
}

/// Whether a command drops the kind.
fn drops(command: &TCommand, kind: Kind) -> bool
    ensures { result ≡ rule.is_dropped kind (command_of command.now ∷ []) }
{
    match command {
        TCommand::DeleteModel(m) => kind == Kind::Model(*m),
        TCommand::RemoveStatic(n) => kind == Kind::Static(*n),
        TCommand::CreateModel(_)
        | TCommand::AddStatic(_)
        | TCommand::AddPrincipal(_)
        | TCommand::AddField(..)
        | TCommand::RemoveField(..)
        | TCommand::UpdateFieldPolicy(..)
        | TCommand::WeakenFieldPolicy(..)
        | TCommand::UpdatePolicy(..)
        | TCommand::WeakenPolicy(..) => false,
    }
}

/// Whether one of the commands drops the kind.
fn is_dropped(commands: &[TCommand], kind: Kind) -> bool
    ensures { result ≡ rule.is_dropped kind (map command_of commands.now) }
{
    for command in commands {
        if drops(command, kind) {
            return true;
        }
    }
    false
}

/// The schema after the last command.
fn last_schema(t: &TScript) -> &Schema
    ensures { schema_of result.now
        ≡ script.schema_at (script_of t.now) (script.count (script_of t.now)) }
{
    match t.schemas.as_slice().get(t.commands.as_slice().len()) {
        Some(s) => s,
        None => &t.start,
    }
}

/// The kinds of any schema on the way: statics by number, then models by number.
pub(crate) fn all_kinds(alloc: Global, t: &TScript) -> Result<Vec<Kind>, AllocError>
    ensures { IfOk result (λ kinds. kinds.items ≡ kinds_on_the_way (script_of t.now)) }
{
    let mut kinds = Vec::new(alloc);
    let last = last_schema(t);
    add_statics(&mut kinds, t, last.next_static)?;
    add_models(&mut kinds, t, last.next_model)?;
    Ok(kinds)
}

/// Puts those statics with numbers below this one last that a schema on the way has.
fn add_statics(kinds: &mut Vec<Kind>, t: &TScript, below: u32) -> Result<(), AllocError>
    ensures { OnOk result (kinds.new.items ≡ kinds.old.items
        ++ filter (ever_has (script_of t.now)) (statics_from 0 below)) }
{
    for n in 0..below {
        add_kind(kinds, t, Kind::Static(n))?;
    }
    Ok(())
}

/// Puts those models with numbers below this one last that a schema on the way has as principals.
fn add_models(kinds: &mut Vec<Kind>, t: &TScript, below: u32) -> Result<(), AllocError>
    ensures { OnOk result (kinds.new.items ≡ kinds.old.items
        ++ filter (ever_has (script_of t.now)) (models_from 0 below)) }
{
    for m in 0..below {
        add_kind(kinds, t, Kind::Model(m))?;
    }
    Ok(())
}

/// Puts the kind last if a schema on the way has it.
fn add_kind(kinds: &mut Vec<Kind>, t: &TScript, kind: Kind) -> Result<(), AllocError>
    ensures { OnOk result (kinds.new.items ≡ kinds.old.items
        ++ filter (ever_has (script_of t.now)) (kind ∷ [])) }
{
    if is_ever(t, kind) {
        kinds.push(kind)?;
    }
    Ok(())
}

/// Those of the kinds that none of the commands drops.
pub(crate) fn kept_kinds(
    alloc: Global,
    kinds: &[Kind],
    commands: &[TCommand],
) -> Result<Vec<Kind>, AllocError>
    ensures { IfOk result (λ kept. kept.items ≡ kept_by (map command_of commands.now) kinds.now) }
{
    let mut kept = Vec::new(alloc);
    for kind in kinds {
        if !is_dropped(commands, *kind) {
            kept.push(*kind)?;
        }
    }
    Ok(kept)
}

/// The kinds after the first k commands, where these are all on the way.
pub(crate) fn kinds_after(
    alloc: Global,
    t: &TScript,
    all: &[Kind],
    k: usize,
) -> Result<Vec<Kind>, AllocError>
    requires within { k ≤ length t.now.commands }
    requires all { all.now ≡ kinds_on_the_way (script_of t.now) }
    ensures { IfOk result (λ kinds. kinds.items ≡ rule.kinds_at (script_of t.now) k) }
{
    let commands = t.commands.as_slice();
    let kept = kept_kinds(alloc, all, &commands[..k])?;
    Ok(kept)
}

/// The kinds of principals after the first k commands: those of any schema on the way, before or
/// after, but those that one of the k commands drops.
pub fn kinds(alloc: Global, t: &TScript, k: u32) -> Result<Vec<Kind>, AllocError>
    requires { k ≤ length t.now.commands }
    ensures { IfOk result (λ kinds. kinds.items ≡ rule.kinds_at (script_of t.now) k) }
{
    let all = all_kinds(alloc, t)?;
    kinds_after(alloc, t, all.as_slice(), k as usize)
}
