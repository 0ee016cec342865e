//! What is no store: no file, an empty one, a folder, and files that are no database.

use crate::tests::SAMPLE;
use std::fs;
use std::test::Fail;
use store_file::FileKeeper;
use store_trial::word_for;

/// What a keeper finds at the path, what closing it comes to, and how many faults it counted.
fn looked<'x>(rt: &'x HostRuntime, path: &'x str) -> (&'static str, &'static str, u64) {
    let mut keeper = FileKeeper::new(rt, path);
    let found = SAMPLE.word(rt.alloc(), &mut keeper);
    let closed = word_for(keeper.close());
    (found, closed, keeper.faults())
}

#[test]
fn looking_makes_no_file(rt: HostRuntime) -> Result<(), Fail> {
    fs::create_dir_all(&rt, "looking")?;
    assert!(rt; looked(&rt, "looking/scooter.db") == ("nothing", "done", 0));
    assert_eq!(rt; fs::read_dir(&rt, "looking")?.count(), 0);
    fs::remove_dir_all(&rt, "looking")?;
    Ok(())
}

#[test]
fn an_empty_file_is_no_store_and_stays_so(rt: HostRuntime) -> Result<(), Fail> {
    fs::create_dir_all(&rt, "empty")?;
    fs::write(&rt, "empty/scooter.db", "")?;
    assert!(rt; looked(&rt, "empty/scooter.db") == ("nothing", "done", 0));
    assert_eq!(rt; fs::metadata(&rt, "empty/scooter.db")?.len(), 0);
    assert_eq!(rt; fs::read_dir(&rt, "empty")?.count(), 1);
    fs::remove_dir_all(&rt, "empty")?;
    Ok(())
}

/// What a load and a write meet at the path, and how many faults they are.
fn met<'x>(rt: &'x HostRuntime, path: &'x str) -> (&'static str, &'static str, u64) {
    let mut keeper = FileKeeper::new(rt, path);
    let found = SAMPLE.word(rt.alloc(), &mut keeper);
    let written = SAMPLE.replaces(rt.alloc(), &mut keeper);
    (found, written, keeper.faults())
}

#[test]
fn a_folder_is_a_fault_and_stays_as_it_is(rt: HostRuntime) -> Result<(), Fail> {
    fs::create_dir_all(&rt, "folder/scooter.db/inner")?;
    assert!(rt; met(&rt, "folder/scooter.db") == ("failed", "failed", 2));
    assert_eq!(rt; fs::read_dir(&rt, "folder")?.count(), 1);
    assert_eq!(rt; fs::read_dir(&rt, "folder/scooter.db")?.count(), 1);
    fs::remove_dir_all(&rt, "folder")?;
    Ok(())
}

#[test]
fn no_database_is_a_fault_and_stays_as_it_is(rt: HostRuntime) -> Result<(), Fail> {
    fs::create_dir_all(&rt, "no_database")?;
    for text in ["no database at all", "SQLite", "SQLite format 4\0 and more"] {
        fs::write(&rt, "no_database/scooter.db", text)?;
        assert!(rt;
            met(&rt, "no_database/scooter.db") == ("failed", "failed", 2),
            "{text}"
        );
        let left = fs::read_to_string(&rt, "no_database/scooter.db")?;
        assert_eq!(rt; left.as_str(), text);
        assert_eq!(rt; fs::read_dir(&rt, "no_database")?.count(), 1);
    }
    fs::remove_dir_all(&rt, "no_database")?;
    Ok(())
}

#[test]
fn no_folder_is_a_fault_of_the_write(rt: HostRuntime) -> Result<(), Fail> {
    assert!(rt; met(&rt, "no_folder/scooter.db") == ("nothing", "failed", 1));
    assert!(rt; !fs::exists(&rt, "no_folder")?);
    Ok(())
}
