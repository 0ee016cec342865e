//! The database file, and the log beside it.

ghost use Rattle.std.specs.Prelude.{IfOk, IfSome};
ghost use Rattle.store_keeper.specs.Stored.{IsStored, stored_of};

use data_records::Record;
use sqlite::{Connection, Error, ErrorCode, FileFrom, FileStore, Wary};
use sqlite_resolve::CompileError;
use std::alloc::Global;
use std::fs::File;
use std::io::{ErrorKind, Read};
use std::{fs, io};
use store_keeper::{KeepErr, Keeper, Stored};
use store_sqlite::SqlKeeper;
use type_schema::ModelInfo;

/// The bytes that a database file begins with.
const HEADER: [u8; 16] = *b"SQLite format 3\0";

/// Files whose writes a crash may tear in any way, so that each commit syncs twice.
type Opened = FileStore<FileFrom<Wary>>;

/// What a failure of the system is to a call.
fn failure(error: io::Error) -> KeepErr {
    match error.kind() {
        ErrorKind::OutOfMemory => KeepErr::OutOfMemory,
        _ => KeepErr::Failed,
    }
}

/// What a refusal of the library is to a call.
fn refusal(error: Error) -> KeepErr {
    match error {
        Error::SqliteFailure(ErrorCode::OutOfMemory)
        | Error::SqlInputError(CompileError::OutOfMemory) => KeepErr::OutOfMemory,
        _ => KeepErr::Failed,
    }
}

/// Whether there is a log beside the file.
fn has_log(rt: &HostRuntime, path: &str) -> Result<bool, KeepErr> {
    let log = format!(in rt.alloc(); "{path}-wal")?;
    fs::exists(rt, log.as_str()).map_err(failure)
}

/// Whether the file begins as a database does.
fn begins_well(rt: &HostRuntime, path: &str) -> Result<bool, KeepErr> {
    let mut file = File::open(rt, path).map_err(failure)?;
    let mut first = [0u8; 16];
    match file.read_exact(&mut first) {
        Ok(()) => Ok(first == HEADER),
        Err(e) if e.kind() == ErrorKind::UnexpectedEof => Ok(false),
        Err(e) => Err(failure(e)),
    }
}

/// Whether there is something to open. An empty file without a log is nothing.
///
/// The library makes a log beside each file that it opens. So a file that has none, and is no
/// database by its first bytes, is refused before.
fn is_there(rt: &HostRuntime, path: &str) -> Result<bool, KeepErr> {
    let found = match fs::metadata(rt, path) {
        Ok(found) => found,
        Err(e) if e.kind() == ErrorKind::NotFound => return Ok(false),
        Err(e) => return Err(failure(e)),
    };
    if has_log(rt, path)? {
        return Ok(true);
    }
    if found.is_file() && found.len() == 0 {
        return Ok(false);
    }
    if found.is_file() && begins_well(rt, path)? {
        Ok(true)
    } else {
        Err(KeepErr::Failed)
    }
}

/// The keeper over the database at the path, which is made where there is none.
fn open(rt: &HostRuntime, path: &str) -> Result<SqlKeeper<Opened>, KeepErr> {
    match Connection::open_from(rt, path, false, Wary) {
        Ok(conn) => Ok(SqlKeeper::new(conn)),
        Err((error, _left)) => Err(refusal(error)),
    }
}

/// The file at a path, and the keeper over it once it is open.
#[derive(Drop)]
pub(crate) struct DatabaseFile<'a> {
    rt: &'a HostRuntime,
    path: &'a str,
    keeper: Option<SqlKeeper<Opened>>,
    /// The last `load` found no file, so that none is locked.
    found_none: bool,
}

impl<'a> DatabaseFile<'a> {
    /// The file at the path, which is not open yet.
    pub fn new(rt: &'a HostRuntime, path: &'a str) -> DatabaseFile<'a> {
        DatabaseFile {
            rt,
            path,
            keeper: None,
            found_none: false,
        }
    }

    /// Whether the file is open, or there to be opened.
    fn is_at_hand(&self) -> Result<bool, KeepErr> {
        if self.keeper.is_some() {
            return Ok(true);
        }
        is_there(self.rt, self.path)
    }

    /// Opens the file, if it is not open yet. It is made where there is none.
    fn make(&mut self) -> Result<(), KeepErr> {
        if self.keeper.is_none() {
            self.keeper = Some(open(self.rt, self.path)?);
        }
        Ok(())
    }

    /// What is stored, or None where there is no file.
    pub fn load(&mut self, alloc: Global) -> Result<Option<Stored>, KeepErr>
        ensures { IfOk result (λ found. IfSome found (λ s. IsStored (stored_of s))) }
    {
        self.found_none = !self.is_at_hand()?;
        if self.found_none {
            return Ok(None);
        }
        self.make()?;
        match &mut self.keeper {
            Some(keeper) => keeper.load(alloc),
            None => Ok(None),
        }
    }

    /// Stores this in place of what is stored. The file is made where there is none, and one that is
    /// no database is refused before it is opened. So is what another process stored since `load`
    /// found no file.
    pub fn replace(&mut self, alloc: Global, s: &Stored) -> Result<(), KeepErr>
        requires { IsStored (stored_of s.now) }
    {
        self.is_at_hand()?;
        let found_none = self.found_none;
        self.make()?;
        self.found_none = false;
        match &mut self.keeper {
            Some(keeper) => {
                if found_none && keeper.load(alloc)?.is_some() {
                    return Err(KeepErr::Failed);
                }
                keeper.replace(alloc, s)
            }
            None => Err(KeepErr::Failed),
        }
    }

    /// The keeper over the file, which is there.
    fn opened(&mut self) -> Result<&mut SqlKeeper<Opened>, KeepErr> {
        if !self.is_at_hand()? {
            return Err(KeepErr::Failed);
        }
        self.make()?;
        match &mut self.keeper {
            Some(keeper) => Ok(keeper),
            None => Err(KeepErr::Failed),
        }
    }

    /// Stores the record.
    pub fn put(&mut self, alloc: Global, info: &ModelInfo, made: &Record) -> Result<(), KeepErr> {
        self.opened()?.put(alloc, info, made)
    }

    /// Drops the record.
    pub fn drop_row(&mut self, alloc: Global, info: &ModelInfo, id: u64) -> Result<(), KeepErr> {
        self.opened()?.drop_row(alloc, info, id)
    }

    /// Copies the log into the file and closes both, if they are open.
    pub fn close(&mut self) -> Result<(), KeepErr> {
        match self.keeper.take() {
            Some(keeper) => keeper.into_connection().close().map_err(refusal),
            None => Ok(()),
        }
    }
}
