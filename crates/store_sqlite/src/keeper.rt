//! The keeper.
ghost use Rattle.std.specs.Prelude.{◌≡◌, ◌≤◌, None, IfOk, IfSome};
ghost use Rattle.std.specs.Option.{option_map};
ghost use Rattle.app_flow.specs.Faults.{Rose};
ghost use Rattle.store_keeper.specs.Keepers.{faults_after};
ghost use Rattle.store_keeper.specs.Stored.{IsStored, stored_of};

use crate::cause::Cause;
use crate::known::Known;
use crate::reading::{Found, read_stored};
use crate::writing::{delete_record, write_record, write_stored};
use data_records::Record;
use sqlite::{Alter, Connection};
use std::alloc::Global;
use std::marker::Model;
use store_keeper::{KeepErr, Keeper, Stored};
use type_schema::ModelInfo;

/// A keeper over a connection. It tells nothing. What it read it need not read again for the write
/// that follows, since no other handle writes to a file that is open.
///
/// A want of memory of the database is a want of memory; each other refusal of it, and rows that
/// are not what a store holds, are faults, which it counts.
#[derive(Drop)]
pub struct SqlKeeper<S: Alter> {
    conn: Connection<S>,
    known: Option<Known>,
    faults: u64,
}

// Clauses see the count of faults.
impl<S: Alter> Model for SqlKeeper<S> {
    ghost use Rattle.std.specs.Prelude.{ℕ};

    ghost Value = { ℕ };

    ghost view = { λ k. k.faults };
}

impl<S: Alter> SqlKeeper<S> {
    /// The keeper over the connection, in which no transaction is open.
    pub fn new(conn: Connection<S>) -> SqlKeeper<S>
        ensures { result ≡ 0 }
    {
        SqlKeeper {
            conn,
            known: None,
            faults: 0,
        }
    }

    /// How many calls met a fault.
    pub fn faults(&self) -> u64
        ensures { result ≡ self.now }
    {
        self.faults
    }

    /// The connection, so that it can be closed.
    pub fn into_connection(self) -> Connection<S> {
        let SqlKeeper { conn, .. } = self;
        conn
    }

    /// The answer of a call; a fault is counted.
    fn counted<T: Drop>(&mut self, answer: Result<T, Cause>) -> Result<T, KeepErr>
        ensures found { IfOk result (λ found. answer ≡ Ok found) }
        ensures after { self.new ≡ faults_after result self.old }
        ensures counted { result ≡ Err KeepErr.Failed → Rose self.old self.new }
        ensures never_falls { self.old ≤ self.new }
    {
        match answer {
            Ok(found) => Ok(found),
            Err(Cause::OutOfMemory) => Err(KeepErr::OutOfMemory),
            Err(Cause::Refused) => {
                self.faults = self.faults.saturating_add(1);
                Err(KeepErr::Failed)
            }
        }
    }
}

impl<S: Alter> SqlKeeper<S> {
    /// What was found, whose rows are noted.
    fn noted(&mut self, found: Option<Found>) -> Option<Stored>
        ensures stored { result ≡ option_map (λ it. it.stored) found }
        ensures same_count { self.new ≡ self.old }
    {
        match found {
            Some(Found { stored, known }) => {
                self.known = Some(known);
                Some(stored)
            }
            None => {
                self.known = None;
                None
            }
        }
    }
}

impl<S: Alter> Keeper for SqlKeeper<S> {
    ghost told = { λ _. None };

    ghost calls = { λ _. None };

    ghost faults = { λ keeper. keeper };

    fn load(&mut self, alloc: Global) -> Result<Option<Stored>, KeepErr>
        ensures stored { IfOk result (λ found. IfSome found (λ s. IsStored (stored_of s))) }
        ensures after { self.new ≡ faults_after result self.old }
        ensures counted { result ≡ Err KeepErr.Failed → Rose self.old self.new }
        ensures never_falls { self.old ≤ self.new }
    {
        let answer = read_stored(alloc, &mut self.conn);
        let found = self.counted(answer)?;
        Ok(self.noted(found))
    }

    fn replace(&mut self, alloc: Global, s: &Stored) -> Result<(), KeepErr>
        ensures after { self.new ≡ faults_after result self.old }
        ensures counted { result ≡ Err KeepErr.Failed → Rose self.old self.new }
        ensures never_falls { self.old ≤ self.new }
    {
        let known = self.known.take();
        let answer = write_stored(alloc, &mut self.conn, s, known);
        self.counted(answer)
    }

    fn put(&mut self, alloc: Global, info: &ModelInfo, made: &Record) -> Result<(), KeepErr>
        ensures after { self.new ≡ faults_after result self.old }
        ensures counted { result ≡ Err KeepErr.Failed → Rose self.old self.new }
        ensures never_falls { self.old ≤ self.new }
    {
        self.known = None;
        let answer = write_record(alloc, &mut self.conn, info, made);
        self.counted(answer)
    }

    fn drop_row(&mut self, _alloc: Global, info: &ModelInfo, id: u64) -> Result<(), KeepErr>
        ensures after { self.new ≡ faults_after result self.old }
        ensures counted { result ≡ Err KeepErr.Failed → Rose self.old self.new }
        ensures never_falls { self.old ≤ self.new }
    {
        self.known = None;
        let answer = delete_record(&mut self.conn, info, id);
        self.counted(answer)
    }
}
