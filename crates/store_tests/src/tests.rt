//! Keepers: what they hold, and what they refuse.

mod broken;
mod files;
mod folders;
mod memory;
mod nothing;
mod records;
mod rows;
mod statements;

use sqlite::{Error, MemStore};
use std::alloc::Global;
use store_sqlite::SqlKeeper;
use store_trial::{Sample, database_of};

/// A store of version 3: its tables and rows, and what `show` prints of it.
pub const SAMPLE: Sample<'static> = Sample {
    rows: "CREATE TABLE head (one INTEGER PRIMARY KEY, version INTEGER NOT NULL, spec TEXT NOT NULL) STRICT;
CREATE TABLE model (place INTEGER PRIMARY KEY, name TEXT NOT NULL, next INTEGER NOT NULL) STRICT;
CREATE TABLE note (place INTEGER PRIMARY KEY, version INTEGER NOT NULL, command INTEGER NOT NULL, model TEXT NOT NULL, field TEXT, access TEXT NOT NULL, reason TEXT NOT NULL) STRICT;
CREATE TABLE record (model TEXT NOT NULL, id INTEGER NOT NULL, line TEXT NOT NULL, PRIMARY KEY (model, id)) STRICT;
INSERT INTO head (one, version, spec) VALUES (1, 3, 'principal model User {create: public, delete: none, name: Text {read: public, write: u -> [u]}, boss: Option(Id(User)) {read: public, write: none},}
model Page {create: none, delete: none, likes: Set(Id(User)) {read: public, write: public},}');
INSERT INTO model (place, name, next) VALUES (0, 'User', 4), (1, 'Page', 2);
INSERT INTO record (model, id, line) VALUES ('User', 1, '{name: \"a\", boss: none}'), ('User', 3, '{name: \"b\\n\", boss: some(@1)}'), ('Page', 1, '{likes: [@1, @3]}');
INSERT INTO note (place, version, command, model, field, access, reason) VALUES (0, 2, 1, 'User', 'name', 'read', 'open \"house\"'), (1, 3, 7, 'Page', NULL, 'create', 'wiki');",
    shown: b"version 3
principal model User {
  create: public,
  delete: none,
  name: Text {read: public, write: u -> [u]},
  boss: Option(Id(User)) {read: public, write: none},
}
model Page {
  create: none,
  delete: none,
  likes: Set(Id(User)) {read: public, write: public},
}
User @4 {
  @1 {name: \"a\", boss: none}
  @3 {name: \"b\\n\", boss: some(@1)}
}
Page @2 {
  @1 {likes: [@1, @3]}
}
note 2 command 1 User.name read \"open \\\"house\\\"\"
note 3 command 7 Page create \"wiki\"
",
};

/// A keeper over a database in memory that the statements make.
pub fn keeper_of(alloc: Global, sql: &str) -> Result<SqlKeeper<MemStore>, Error> {
    Ok(SqlKeeper::new(database_of(alloc, sql)?))
}

/// A keeper over the sample's rows after the change.
pub fn changed_sample(alloc: Global, change: &str) -> Result<SqlKeeper<MemStore>, Error> {
    let mut conn = database_of(alloc, SAMPLE.rows)?;
    conn.execute_batch(change)?;
    Ok(SqlKeeper::new(conn))
}
