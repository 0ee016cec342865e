//! Arguments and the words that they are.

use app_main::words_of;
use std::alloc::{AllocError, Global};
use std::test::Fail;
use text_ast::Txt;

fn arguments_of(alloc: Global, texts: &[&str]) -> Result<Vec<String>, Fail> {
    let mut arguments = Vec::new(alloc);
    for text in texts {
        let argument = String::from_str(alloc, text)?;
        arguments.push(argument).map_err(AllocError::from)?;
    }
    Ok(arguments)
}

fn are_words(words: &[Txt], texts: &[&str]) -> bool {
    words.len() == texts.len()
        && words
            .iter()
            .zip(texts)
            .all(|(word, text)| word.bytes() == text.as_bytes())
}

/// An argument of so many letters, and one more.
fn long_and_short(alloc: Global, letters: usize) -> Result<Vec<String>, Fail> {
    let mut arguments = arguments_of(alloc, &["s.scm"])?;
    let long = "a".repeat(alloc, letters)?;
    arguments.insert(0, long).map_err(AllocError::from)?;
    Ok(arguments)
}

#[test]
fn texts_are_words(rt: HostRuntime) -> Result<(), Fail> {
    let rows = [
        [].as_slice(),
        &["check", "n.spec", "s.scm"],
        &["", "\u{e9}", "-"],
    ];
    for texts in rows {
        let arguments = arguments_of(rt.alloc(), texts)?;
        let words = words_of(rt.alloc(), arguments)?;
        assert!(rt; are_words(words.as_slice(), texts));
    }
    Ok(())
}

#[test]
fn long_arguments_are_no_texts(rt: HostRuntime) -> Result<(), Fail> {
    let alloc = rt.alloc();
    let words = words_of(alloc, long_and_short(alloc, 4096)?)?;
    assert_eq!(rt; words.len(), 2);
    let words = words_of(alloc, long_and_short(alloc, 4097)?)?;
    assert!(rt; are_words(words.as_slice(), &[""]));
    Ok(())
}
