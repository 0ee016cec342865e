//! A file that is read by the statements of `docs/FORMATS.md`.

use crate::tests::SAMPLE;
use std::fs;
use std::test::Fail;
use store_file::FileKeeper;
use store_trial::{file_prints, word_for};

/// The statements of `docs/FORMATS.md`, and more, with what they print.
const STATEMENTS: [(&str, &[u8]); 6] = [
    (
        "SELECT command, model, field, access, reason FROM note WHERE version = 2 ORDER BY place;",
        b"1|User|name|read|open \"house\"\n",
    ),
    (
        "SELECT line FROM record WHERE model = 'User' AND id = 3;",
        b"{name: \"b\\n\", boss: some(@1)}\n",
    ),
    (
        "SELECT id, line FROM record WHERE model = 'User' ORDER BY id;",
        b"1|{name: \"a\", boss: none}\n3|{name: \"b\\n\", boss: some(@1)}\n",
    ),
    (
        "SELECT one, version, place, name, next FROM head, model ORDER BY place",
        b"1|3|0|User|4\n1|3|1|Page|2\n",
    ),
    (
        "SELECT spec FROM head",
        b"principal model User {
  create: public,
  delete: none,
  name: Text {read: public, write: u -> [u]},
  boss: Option(Id(User)) {read: public, write: none},
}
model Page {
  create: none,
  delete: none,
  likes: Set(Id(User)) {read: public, write: public},
}

",
    ),
    (
        "SELECT place, version, command, model, field, access, reason FROM note WHERE version = 3",
        b"1|3|7|Page||create|wiki\n",
    ),
];

/// What storing the sample in a file comes to, and closing it.
fn stored<'x>(rt: &'x HostRuntime, path: &'x str) -> [&'static str; 2] {
    let mut keeper = FileKeeper::new(rt, path);
    let written = SAMPLE.replaces(rt.alloc(), &mut keeper);
    [written, word_for(keeper.close())]
}

#[test]
fn a_file_is_read_by_statements(rt: HostRuntime) -> Result<(), Fail> {
    let path = "statements/scooter.db";
    fs::create_dir_all(&rt, "statements")?;
    assert!(rt; stored(&rt, path) == ["done", "done"]);
    for (sql, table) in STATEMENTS {
        assert!(rt; file_prints(&rt, path, sql, table), "{sql}");
    }
    fs::remove_dir_all(&rt, "statements")?;
    Ok(())
}

/// The texts that make the tables, of `docs/FORMATS.md`, in the order of the tables' names.
const TABLES: &[u8] =
    b"CREATE TABLE head (one INTEGER PRIMARY KEY, version INTEGER NOT NULL, spec TEXT NOT NULL) STRICT
CREATE TABLE model (place INTEGER PRIMARY KEY, name TEXT NOT NULL, next INTEGER NOT NULL) STRICT
CREATE TABLE note (place INTEGER PRIMARY KEY, version INTEGER NOT NULL, command INTEGER NOT NULL, model TEXT NOT NULL, field TEXT, access TEXT NOT NULL, reason TEXT NOT NULL) STRICT
CREATE TABLE record (model TEXT NOT NULL, id INTEGER NOT NULL, line TEXT NOT NULL, PRIMARY KEY (model, id)) STRICT
";

#[test]
fn a_file_has_the_tables(rt: HostRuntime) -> Result<(), Fail> {
    let path = "tables/scooter.db";
    fs::create_dir_all(&rt, "tables")?;
    assert!(rt; stored(&rt, path) == ["done", "done"]);
    let sql = "SELECT sql FROM sqlite_schema WHERE type = 'table' ORDER BY name";
    assert!(rt; file_prints(&rt, path, sql, TABLES));
    fs::remove_dir_all(&rt, "tables")?;
    Ok(())
}
