//! The sessions of the door.

ghost use Rattle.std.specs.Prelude.{◌≡◌, ◌<◌, [], ◌∷◌, ◌++◌, false, IfSome, OnErr, OnOk};
ghost use Rattle.std.specs.Prelude.{length, option_copied, position, remove, slice_index_or, slice_set};
ghost use Rattle.std.specs.List.{find, list_any};
ghost use Rattle.door_meaning.specs.State.{at_version, is_named};
ghost use Rattle.door_meaning.specs.declared.session.Session.{Session};

use data_meaning::Principal;
use door_meaning::Session;
use indexmap::IndexSet;
use std::alloc::{AllocError, Global};
use std::marker::Model;

/// Sessions in the order in which they were opened. Contracts see the list of them.
///
/// The set has their names in the same order, so that one is found in near constant time.
#[derive(Drop)]
pub(crate) struct Sessions {
    names: IndexSet<Vec<u8>>,
    opened: Vec<Session>,
}

impl Model for Sessions {
    ghost use Rattle.std.specs.Prelude.{List, map, ◌≡◌};
    ghost use Rattle.door_meaning.specs.declared.session.Session.{Session};

    ghost Value = { List Session };

    ghost view = { λ s. s.opened.items };

    ghost invariant = { λ s. map (λ k. k.items) s.names.keys ≡ map (λ x. x.name) s.opened.items };
}

impl Sessions {
    /// No sessions.
    pub(crate) fn new(alloc: Global) -> Sessions
        ensures { result ≡ [] }
    {
        Sessions {
            names: IndexSet::new(alloc),
            opened: Vec::new(alloc),
        }
    }

    /// How many there are.
    pub(crate) fn len(&self) -> usize
        ensures { result ≡ length self.now }
    {
        self.opened.as_slice().len()
    }

    /// The sessions, in the order in which they were opened.
    pub(crate) fn as_slice(&self) -> &[Session]
        ensures { result.now ≡ self.now }
    {
        self.opened.as_slice()
    }

    /// The place of the session of that name.
    pub(crate) fn place_of(&self, name: &[u8]) -> Option<usize>
        ensures first { result ≡ position (is_named name.now) self.now }
        ensures within { IfSome result (λ at. at < length self.now) }
    {
        self.names.get_index_of(name)
    }

    /// Whether a session has that name.
    pub(crate) fn has(&self, name: &[u8]) -> bool
        ensures { result ≡ list_any (is_named name.now) self.now }
    {
        self.place_of(name).is_some()
    }

    /// The session of that name.
    pub(crate) fn named(&self, name: &[u8]) -> Option<&Session>
        ensures { option_copied result ≡ find (is_named name.now) self.now }
    {
        match self.place_of(name) {
            Some(at) => Some(&self.opened[at]),
            None => None,
        }
    }

    /// Adds a session at the end.
    pub(crate) fn add(&mut self, alloc: Global, session: Session) -> Result<(), AllocError>
        requires { list_any (is_named session.name) self.old ≡ false }
        ensures ok { OnOk result (self.new ≡ self.old ++ session ∷ []) }
        ensures err { OnErr result (self.new ≡ self.old) }
    {
        let name = session.name.bytes().to_vec(alloc)?;
        self.names.reserve(1)?;
        self.opened.push(session)?;
        self.names.insert(name)?;
        Ok(())
    }

    /// Takes out the session at a place.
    pub(crate) fn remove(&mut self, at: usize)
        requires { at < length self.old }
        ensures { self.new ≡ remove self.old at }
    {
        self.names.shift_remove_index(at);
        self.opened.remove(at);
    }

    /// Brings the session at a place to a version.
    pub(crate) fn set_version(&mut self, at: usize, version: u64)
        requires { at < length self.old }
        ensures { (d : Session) → self.new ≡ slice_set self.old at
            (at_version version (slice_index_or self.old at d)) }
    {
        self.opened[at].version = version;
    }

    /// Gives the session at a place a principal, or none.
    pub(crate) fn set_principal(&mut self, at: usize, who: Option<Principal>)
        requires { at < length self.old }
        ensures { (d : Session) → self.new ≡ slice_set self.old at
            (record (slice_index_or self.old at d) { who = who }) }
    {
        self.opened[at].who = who;
    }
}
