//! Sessions after a migration: principals under their new numbers.

ghost use Rattle.std.specs.Prelude.{◌≡◌, ◌<◌, ◌==◌, IfSome, None, length, map, position};
ghost use Rattle.std.specs.Option.{option_map_or};
ghost use Rattle.data_meaning.specs.declared.principals.Principal.TheVariants as principal;
ghost use Rattle.door_meaning.specs.Migrates.{moved_principal, moved_session};
ghost use Rattle.type_anew.specs.Room.{IsWithinNumbers};
ghost use Rattle.type_schema.specs.SchemaViews.{schema_of};

use crate::sessions::Sessions;
use data_meaning::Principal;
use type_schema::{ModelInfo, ModelNo, Schema, StaticInfo, StaticNo};

/// The place of a static.
pub(crate) fn static_place(statics: &[StaticInfo], n: StaticNo) -> Option<usize>
    ensures first { result ≡ position (λ info. info.number == n) statics.now }
    ensures within { IfSome result (λ at. at < length statics.now) }
{
    statics.iter().position(|info| info.number == n)
}

/// The place of a model.
pub(crate) fn model_place(models: &[ModelInfo], m: ModelNo) -> Option<usize>
    ensures first { result ≡ position (λ info. info.number == m) models.now }
    ensures within { IfSome result (λ at. at < length models.now) }
{
    models.iter().position(|info| info.number == m)
}

/// The static under its number in the schema numbered anew, or none where it is gone.
fn moved_static(s: &Schema, n: StaticNo) -> Option<Principal>
    requires { IsWithinNumbers (schema_of s.now) }
    ensures { result ≡ moved_principal (schema_of s.now) (principal.Static n) }
{
    match static_place(s.statics.as_slice(), n) {
        Some(place) => Some(Principal::Static(place as u32)),
        None => None,
    }
}

/// The record under its model's number in the schema numbered anew, or none where the model is gone.
fn moved_record(s: &Schema, m: ModelNo, id: u64) -> Option<Principal>
    requires { IsWithinNumbers (schema_of s.now) }
    ensures { result ≡ moved_principal (schema_of s.now) (principal.Rec m id) }
{
    match model_place(s.models.as_slice(), m) {
        Some(place) => Some(Principal::Rec(place as u32, id)),
        None => None,
    }
}

/// The principal under the numbers of the schema numbered anew, or none where it is gone.
fn moved_who(s: &Schema, who: Principal) -> Option<Principal>
    requires { IsWithinNumbers (schema_of s.now) }
    ensures { result ≡ moved_principal (schema_of s.now) who }
{
    match who {
        Principal::Static(n) => moved_static(s, n),
        Principal::Rec(m, id) => moved_record(s, m, id),
    }
}

/// The principal of a session, which may have none.
fn moved_of(s: &Schema, who: Option<Principal>) -> Option<Principal>
    requires { IsWithinNumbers (schema_of s.now) }
    ensures { result ≡ option_map_or (moved_principal (schema_of s.now)) who None }
{
    match who {
        Some(who) => moved_who(s, who),
        None => None,
    }
}

/// Gives each session its principal's new number, or none.
pub(crate) fn move_sessions(sessions: &mut Sessions, s: &Schema)
    requires { IsWithinNumbers (schema_of s.now) }
    ensures { sessions.new ≡ map (moved_session (schema_of s.now)) sessions.old }
{
    for at in 0..sessions.len() {
        let who = sessions.as_slice()[at].who;
        let moved = moved_of(s, who);
        sessions.set_principal(at, moved);
    }
}
