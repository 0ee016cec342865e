//! What an initialiser reads of a `Find`.

use app_files::Status;
use app_trial::check_texts;
use std::str;
use std::test::Fail;

const REPOS: &[u8] = b"principal model User {create: public, delete: none}
model Repo {
  create: public,
  delete: none,
  owner: Id(User) {read: public, write: none},
}
model Collab {
  create: public,
  delete: none,
  repo: Id(Repo) {read: public, write: none},
  user: Id(User) {read: public, write: none},
  level: Int {read: c -> [c.repo.owner], write: none},
}
";

/// A filter is read at every record of the model, and so the levels of other repositories too.
#[test]
fn a_filter_reads_every_record(rt: HostRuntime) -> Result<(), Fail> {
    let script = b"Repo::AddField(team: Set(Id(User)) {read: r -> [r.owner], write: none},
        r -> Collab::Find({repo: r, level >= 1}).map(c -> c.user))";
    let ended = check_texts(rt.alloc(), REPOS, script)?;
    assert_eq!(rt; ended.status, Status::Leak);
    let report = str::from_utf8(ended.output.as_slice()).map_err(|_| "a report that is no text")?;
    assert!(rt; report.starts_with("leak command 1 field Repo.team right read\n"));
    assert!(rt; report.contains("\ntouched Collab @"));
    assert!(rt; report.contains(" level\n"));
    Ok(())
}

#[test]
fn a_choice_reads_the_records_that_are_found(rt: HostRuntime) -> Result<(), Fail> {
    let script = b"Repo::AddField(team: Set(Id(User)) {read: r -> [r.owner], write: none},
        r -> Collab::Find({repo: r}).flat_map(c -> if c.level >= 1 then [c.user] else none))";
    let ended = check_texts(rt.alloc(), REPOS, script)?;
    assert_eq!(rt; ended.status, Status::Done);
    assert!(rt; ended.output.as_slice() == b"accepted obligations 3\n".as_slice());
    Ok(())
}
