//! Large files of the real folder, and large reports.

use app_files::{MOST_FILE_BYTES, Status};
use app_flow::{CurrentFolder, DirShelf, MemSink};
use app_trial::{check_texts, run_over_objects, words_of};
use std::alloc::Global;
use std::test::Fail;
use std::{fs, str};
use store_keeper::SureKeeper;

/// What the program answers to the words in the folder that the tests run in.
fn answer_in_folder(rt: &HostRuntime, words: &[&str]) -> Result<(Status, Vec<u8>), Fail> {
    let alloc = rt.alloc();
    let words = words_of(alloc, words)?;
    let mut shelf = DirShelf::new(CurrentFolder(rt));
    let mut store = SureKeeper::new(alloc, None);
    let mut out = MemSink::new(alloc, 1000, 7, Vec::new(alloc))?;
    let status = run_over_objects(alloc, words.as_slice(), &mut shelf, &mut store, &mut out);
    Ok((status, Vec::from_slice(alloc, out.bytes())?))
}

#[test]
fn files_of_the_folder_at_the_limit(rt: HostRuntime) -> Result<(), Fail> {
    fs::create_dir_all(&rt, "large_files")?;
    let mut blanks = vec![in rt.alloc(); b' '; MOST_FILE_BYTES]?;
    fs::write(&rt, "large_files/most", blanks.as_slice())?;
    blanks.push(b' ')?;
    fs::write(&rt, "large_files/more", blanks.as_slice())?;
    for (spec, script, status, report) in [
        (
            "large_files/most",
            "large_files/most",
            Status::Done,
            "accepted obligations 0\n",
        ),
        (
            "large_files/more",
            "large_files/most",
            Status::TooLong,
            "too long large_files/more\n",
        ),
        (
            "large_files/most",
            "large_files/more",
            Status::TooLong,
            "too long large_files/more\n",
        ),
    ] {
        let (found, output) = answer_in_folder(&rt, &["check", spec, script])?;
        assert_eq!(rt; found, status);
        assert!(rt; output.as_slice() == report.as_bytes());
    }
    fs::remove_dir_all(&rt, "large_files")?;
    Ok(())
}

/// A read policy that lets in everybody where there are users with each of the numbers 1 to 41.
fn numbered_users(alloc: Global) -> Result<String, Fail> {
    let mut text = "User::UpdateFieldPolicy(n, {read: u -> ".to_string(alloc)?;
    for number in 1..=41 {
        let part = format!(in alloc; "User::Find({{n: {number}}}).flat_map(u{number} -> ")?;
        text.push_str(part.as_str())?;
    }
    text.push_str("public")?;
    for _ in 1..=41 {
        text.push_str(")")?;
    }
    text.push_str("})")?;
    Ok(text)
}

#[test]
fn a_witness_of_41_records(rt: HostRuntime) -> Result<(), Fail> {
    let alloc = rt.alloc();
    let spec = b"principal model User {
  create: public,
  delete: none,
  n: Int {read: none, write: none},
}";
    let script = numbered_users(alloc)?;
    let ended = check_texts(alloc, spec, script.as_bytes())?;
    assert_eq!(rt; ended.status, Status::Leak);
    let output = str::from_utf8(ended.output.as_slice()).or(Err("no text"))?;
    assert!(rt; output.starts_with("leak command 1 field User.n right read\nrow User @"));
    assert!(rt; output.ends_with("}\nend\n"));
    for number in 1..=41 {
        let part = format!(in alloc; "{{n: {number}}}\n")?;
        assert!(rt; output.contains(part.as_str()), "the user {number}");
    }
    Ok(())
}

/// Twenty texts of 4,096 bytes each, which differ.
fn long_texts(alloc: Global) -> Result<Vec<String>, Fail> {
    let mut texts = Vec::new(alloc);
    for number in 10..30 {
        let mut text = number.to_string(alloc)?;
        for _ in 0..4094 {
            text.push_str("x")?;
        }
        texts.push(text)?;
    }
    Ok(texts)
}

#[test]
fn a_report_above_64_kilobytes(rt: HostRuntime) -> Result<(), Fail> {
    let alloc = rt.alloc();
    let texts = long_texts(alloc)?;
    let mut spec = "principal model User {create: public, delete: none".to_string(alloc)?;
    let mut script = "User::UpdatePolicy({delete: u -> User::Find({".to_string(alloc)?;
    let mut comma = "";
    for (number, text) in texts.iter().enumerate() {
        let field = format!(in alloc; ", t{number}: Text {{read: none, write: none}}")?;
        spec.push_str(field.as_str())?;
        let filter = format!(in alloc; "{comma}t{number}: \"{text}\"")?;
        script.push_str(filter.as_str())?;
        comma = ", ";
    }
    spec.push_str("}")?;
    script.push_str("})})")?;
    let ended = check_texts(alloc, spec.as_bytes(), script.as_bytes())?;
    assert_eq!(rt; ended.status, Status::Leak);
    let output = str::from_utf8(ended.output.as_slice()).or(Err("no text"))?;
    assert!(rt; output.len() > 65_536);
    assert!(rt; output.starts_with("leak command 1 model User right delete\nrow User @"));
    assert!(rt; output.ends_with("}\nend\n"));
    for text in texts.iter() {
        assert!(rt; output.contains(text.as_str()));
    }
    Ok(())
}
