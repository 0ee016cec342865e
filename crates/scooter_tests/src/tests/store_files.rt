//! Commands over a store that is kept in a file, which each of them opens and closes.

use crate::tests::store::{INIT, SESSION, SURE, Step, comes_to};
use app_files::Status;
use std::alloc::AllocError;
use std::fs;
use std::test::Fail;
use store_file::FileKeeper;

/// Whether the words come to this over the store in the file.
fn comes_to_in<'x>(rt: &'x HostRuntime, path: &'x str, step: Step) -> Result<bool, AllocError> {
    let mut store = FileKeeper::new(rt, path);
    let comes_so = comes_to(rt.alloc(), &mut store, step, SURE)?;
    Ok(store.close().is_ok() && comes_so)
}

/// The number of the first step that comes to something else.
fn first_wrong_in<'x>(
    rt: &'x HostRuntime,
    path: &'x str,
    steps: &[Step],
) -> Result<Option<usize>, AllocError> {
    for (number, step) in steps.iter().enumerate() {
        if !comes_to_in(rt, path, *step)? {
            return Ok(Some(number));
        }
    }
    Ok(None)
}

#[test]
fn commands_one_after_another_over_a_file(rt: HostRuntime) -> Result<(), Fail> {
    fs::create_dir_all(&rt, "session")?;
    let wrong = first_wrong_in(&rt, "session/scooter.db", &SESSION)?;
    assert!(rt; wrong.is_none(), "step {wrong:?}");
    fs::remove_dir_all(&rt, "session")?;
    Ok(())
}

/// Commands that look, and refusals of `init`.
const LOOKS: [Step; 9] = [
    (&["show"], Status::StoreState, b"store is empty\n"),
    (&["check", "s.scm"], Status::StoreState, b"store is empty\n"),
    (&["apply", "s.scm"], Status::StoreState, b"store is empty\n"),
    (
        &["check", "u.spec", "s.scm"],
        Status::Done,
        b"accepted obligations 1\n",
    ),
    (&["init", "nowhere"], Status::Missing, b"missing nowhere\n"),
    (
        &["init", "u.spec", "nowhere"],
        Status::Missing,
        b"missing nowhere\n",
    ),
    (
        &["init", "s.scm"],
        Status::TextRefused,
        b"s.scm: not grammar at token 0\n",
    ),
    (
        &["init", "u.spec", "cut.txt"],
        Status::TextRefused,
        b"cut.txt: not grammar at token 4\n",
    ),
    (
        &["init", "u.spec", "gone.txt"],
        Status::TypesRefused,
        b"gone.txt: dangling at 69\n",
    ),
];

#[test]
fn no_file_comes_into_being_by_looking(rt: HostRuntime) -> Result<(), Fail> {
    fs::create_dir_all(&rt, "looks")?;
    for step in LOOKS {
        assert!(rt; comes_to_in(&rt, "looks/scooter.db", step)?);
        assert_eq!(rt; fs::read_dir(&rt, "looks")?.count(), 0);
    }
    fs::remove_dir_all(&rt, "looks")?;
    Ok(())
}

/// What each command meets where the store cannot be had.
const NO_STORE: [Step; 4] = [
    (&["show"], Status::StoreFault, b""),
    (&["check", "s.scm"], Status::StoreFault, b""),
    (&["apply", "s.scm"], Status::StoreFault, b""),
    (&["init", "u.spec"], Status::StoreFault, b""),
];

#[test]
fn a_folder_in_its_place_is_a_fault(rt: HostRuntime) -> Result<(), Fail> {
    fs::create_dir_all(&rt, "folder_there/scooter.db")?;
    let wrong = first_wrong_in(&rt, "folder_there/scooter.db", &NO_STORE)?;
    assert!(rt; wrong.is_none(), "step {wrong:?}");
    assert_eq!(rt; fs::read_dir(&rt, "folder_there")?.count(), 1);
    assert_eq!(rt; fs::read_dir(&rt, "folder_there/scooter.db")?.count(), 0);
    fs::remove_dir_all(&rt, "folder_there")?;
    Ok(())
}

#[test]
fn a_file_that_is_no_database_is_a_fault(rt: HostRuntime) -> Result<(), Fail> {
    fs::create_dir_all(&rt, "text_there")?;
    fs::write(&rt, "text_there/scooter.db", "no database")?;
    let wrong = first_wrong_in(&rt, "text_there/scooter.db", &NO_STORE)?;
    assert!(rt; wrong.is_none(), "step {wrong:?}");
    let left = fs::read_to_string(&rt, "text_there/scooter.db")?;
    assert_eq!(rt; left.as_str(), "no database");
    assert_eq!(rt; fs::read_dir(&rt, "text_there")?.count(), 1);
    fs::remove_dir_all(&rt, "text_there")?;
    Ok(())
}

/// The number of the first command that meets no fault while a keeper holds the file, in which
/// `init` stored something.
fn first_wrong_beside<'x>(rt: &'x HostRuntime, path: &'x str) -> Result<Option<usize>, AllocError> {
    let mut first = FileKeeper::new(rt, path);
    if !comes_to(rt.alloc(), &mut first, INIT, SURE)? {
        return Ok(Some(0));
    }
    first_wrong_in(rt, path, &NO_STORE)
}

const FIRST_APPLIED: Step = (
    &["apply", "s.scm"],
    Status::Done,
    b"applied obligations 1 version 2\n",
);

#[test]
fn a_file_that_another_holds_is_a_fault(rt: HostRuntime) -> Result<(), Fail> {
    let path = "held_there/scooter.db";
    fs::create_dir_all(&rt, "held_there")?;
    let wrong = first_wrong_beside(&rt, path)?;
    assert!(rt; wrong.is_none(), "step {wrong:?}");
    // Nothing was applied meanwhile.
    assert!(rt; comes_to_in(&rt, path, FIRST_APPLIED)?);
    fs::remove_dir_all(&rt, "held_there")?;
    Ok(())
}
