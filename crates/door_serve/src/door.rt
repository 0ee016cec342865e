//! The door: what is stored, and the sessions.

ghost use Rattle.std.specs.Prelude.{◌≡◌, ◌<◌, [], false, true, IfOk, OnErr, Some, is_some, length, slice_get};
ghost use Rattle.data_meaning.specs.Database.{is_there};
ghost use Rattle.door_meaning.specs.Names.{is_marked, stands_in};
ghost use Rattle.std.specs.Option.{option_map};
ghost use Rattle.door_meaning.specs.Replies.{reply_data};
ghost use Rattle.door_meaning.specs.Sessions.{added, closed, entered, has_principal, join_refusal};
ghost use Rattle.door_meaning.specs.Sessions.{joined, opened, outcome_of, renewed};
ghost use Rattle.door_meaning.specs.State.{is_named};
ghost use Rattle.std.specs.List.{list_any};
ghost use Rattle.door_serve.specs.DoorState.{Gives, state_of};
ghost use Rattle.door_meaning.specs.declared.session.Session.{Session};
ghost use Rattle.type_schema.specs.Schema.{model_of, static_of};
ghost use Rattle.type_schema.specs.SchemaViews.{schema_of};

use crate::moved::{model_place, static_place};
use crate::sessions::Sessions;
use data_meaning::Principal;
use data_records::Database;
use door_judge::principal_named;
use door_meaning::limits::MOST_SESSIONS;
use door_meaning::{Fullness, Reply, Session};
use door_requests::Who;
use std::alloc::{AllocError, Global};
use store_keeper::Stored;
use text_ast::Name;
use type_schema::{ModelNo, Schema, StaticNo};
use type_typing::is_principal;

/// What is stored, and the sessions on it, in the order in which they were opened.
#[derive(Drop)]
pub struct Door {
    pub(crate) stored: Stored,
    pub(crate) sessions: Sessions,
}

/// Whether the principal is a static, or of a model that is marked.
#[tactic(auto, unfolding(type_typing::specs::Names::plain_of))]
fn is_marked_in(s: &Schema, who: Principal) -> bool
    ensures { result ≡ is_marked (schema_of s.now) who }
{
    match who {
        Principal::Static(_) => true,
        Principal::Rec(m, _) => is_principal(s, m),
    }
}

/// Whether the principal is a static, or a record that is there.
fn is_there_in(d: &Database, who: Principal) -> bool
    ensures { result ≡ is_there d.now who }
{
    match who {
        Principal::Static(_) => true,
        Principal::Rec(m, id) => d.has(m, id),
    }
}

/// Whether the schema has the static.
fn has_static(s: &Schema, n: StaticNo) -> bool
    ensures { result ≡ is_some (static_of (schema_of s.now) n) }
{
    static_place(s.statics.as_slice(), n).is_some()
}

/// Whether the schema has the model.
fn has_model(s: &Schema, m: ModelNo) -> bool
    ensures { result ≡ is_some (model_of (schema_of s.now) m) }
{
    model_place(s.models.as_slice(), m).is_some()
}

impl Door {
    /// The door over what is stored, without sessions. Its references are noted, where there is
    /// memory for that, so that searches by them are quick.
    pub fn make(alloc: Global, mut stored: Stored) -> Door
        ensures stored { result.stored ≡ stored }
        ensures none { (state_of result).sessions ≡ [] }
    {
        stored.base.index_references(alloc);
        Door {
            stored,
            sessions: Sessions::new(alloc),
        }
    }

    /// Why the principal may not join, if it may not.
    fn refuses(&self, who: Principal) -> Option<Reply>
        ensures { option_map reply_data result ≡ join_refusal (state_of self.now) who }
    {
        if !is_marked_in(&self.stored.schema, who) {
            return Some(Reply::NotPrincipal);
        }
        if !is_there_in(&self.stored.base, who) {
            return Some(Reply::NoRecord);
        }
        if self.sessions.len() >= MOST_SESSIONS {
            return Some(Reply::Full {
                what: Fullness::Sessions,
            });
        }
        None
    }

    /// One more session at the door's version.
    fn add(&mut self, alloc: Global, session: &Name, who: Principal) -> Result<Reply, AllocError>
        requires { list_any (is_named session.now) self.old.sessions ≡ false }
        ensures done { IfOk result (λ reply. Gives (added (state_of self.old) session.now who) reply self.new) }
        ensures kept { OnErr result (state_of self.new ≡ state_of self.old) }
    {
        let name = session.copy(alloc)?;
        let version = self.stored.version;
        let added = Session {
            name,
            who: Some(who),
            version,
        };
        self.sessions.add(alloc, added)?;
        Ok(Reply::Version(version))
    }

    /// Opens a session of a name that no other has, unless the principal may not join.
    fn join(&mut self, alloc: Global, session: &Name, who: Principal) -> Result<Reply, AllocError>
        requires { list_any (is_named session.now) self.old.sessions ≡ false }
        ensures done { IfOk result (λ reply. Gives (outcome_of (state_of self.old)
            (joined (state_of self.old) session.now who)) reply self.new) }
        ensures kept { OnErr result (state_of self.new ≡ state_of self.old) }
    {
        match self.refuses(who) {
            Some(reply) => Ok(reply),
            None => self.add(alloc, session, who),
        }
    }

    /// Opens a session for the principal that a request names.
    pub fn open_session(
        &mut self,
        alloc: Global,
        session: &Name,
        who: &Who,
    ) -> Result<Reply, AllocError>
        ensures done { IfOk result
            (λ reply. Gives (opened (state_of self.old) session.now who.now) reply self.new) }
        ensures kept { OnErr result (state_of self.new ≡ state_of self.old) }
    {
        if self.sessions.has(session.bytes()) {
            return Ok(Reply::SessionTaken);
        }
        match principal_named(&self.stored.schema, who) {
            Ok(who) => self.join(alloc, session, who),
            Err(reply) => Ok(reply),
        }
    }

    /// Whether the static or the model of the principal is one of the schema, so that it may enter.
    pub fn knows(&self, who: Principal) -> bool
        ensures { result ≡ stands_in (state_of self.now).stored.schema who }
    {
        match who {
            Principal::Static(n) => has_static(&self.stored.schema, n),
            Principal::Rec(m, _) => has_model(&self.stored.schema, m),
        }
    }

    /// Opens a session for a principal of the schema. Its reply is that of `open` with the name of
    /// the static, or of the model and the id.
    pub fn enter(
        &mut self,
        alloc: Global,
        session: &Name,
        who: Principal,
    ) -> Result<Reply, AllocError>
        requires { stands_in (state_of self.old).stored.schema who ≡ true }
        ensures done { IfOk result
            (λ reply. Gives (entered (state_of self.old) session.now who) reply self.new) }
        ensures kept { OnErr result (state_of self.new ≡ state_of self.old) }
    {
        if self.sessions.has(session.bytes()) {
            return Ok(Reply::SessionTaken);
        }
        self.join(alloc, session, who)
    }

    /// Whether the session at a place has a principal that is there.
    fn has_principal(&self, at: usize) -> bool
        requires { at < length self.now.sessions }
        ensures { (s : Session) → slice_get self.now.sessions at ≡ Some s →
            result ≡ has_principal (state_of self.now) s }
    {
        match self.sessions.as_slice()[at].who {
            Some(who) => self.stored.base.has_principal(&self.stored.schema, who),
            None => false,
        }
    }

    /// Closes a session.
    pub fn close(&mut self, session: &Name) -> Reply
        ensures { Gives (closed (state_of self.old) session.now) result self.new }
    {
        match self.sessions.place_of(session.bytes()) {
            Some(at) => {
                self.sessions.remove(at);
                Reply::Done
            }
            None => Reply::NoSession,
        }
    }

    /// Brings a session to the door's version.
    pub fn renew(&mut self, session: &Name) -> Reply
        ensures { Gives (renewed (state_of self.old) session.now) result self.new }
    {
        let Some(at) = self.sessions.place_of(session.bytes()) else {
            return Reply::NoSession;
        };
        if !self.has_principal(at) {
            return Reply::NoRecord;
        }
        let version = self.stored.version;
        self.sessions.set_version(at, version);
        Reply::Version(version)
    }
}
