//! A run over objects that never fail.

use app_files::Status;
use app_flow::{MemFile, SureShelf, SureSink};
use app_run::run_surely;
use app_trial::words_of;
use door_lines::SureSource;
use std::alloc::AllocError;
use std::test::Fail;
use store_keeper::SureKeeper;

#[test]
fn accepted_over_sure_objects(rt: HostRuntime) -> Result<(), Fail> {
    let alloc = rt.alloc();
    let mut files = Vec::new(alloc);
    for name in ["n.spec", "s.scm"] {
        let name = Vec::from_slice(alloc, name.as_bytes())?;
        files
            .push(MemFile::new(name, Vec::new(alloc)))
            .map_err(AllocError::from)?;
    }
    let words = words_of(alloc, &["check", "n.spec", "s.scm"])?;
    let mut shelf = SureShelf::new(alloc, files);
    let mut store = SureKeeper::new(alloc, None);
    let mut out = SureSink::new(alloc, 64)?;
    let mut input = SureSource::new(Vec::new(alloc));
    let status = run_surely(
        alloc,
        words.as_slice(),
        &mut shelf,
        &mut input,
        &mut store,
        &mut out,
    );
    assert_eq!(rt; status, Status::Done);
    assert!(rt; out.bytes() == Some(b"accepted obligations 0\n".as_slice()));
    Ok(())
}
