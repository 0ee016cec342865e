//! What no clause shows: whole certificates are accepted, and wrong ones are refused at the line
//! that the definition says.
use crate::problems::{MIXED, PLAIN, mixed, plain};
use certify_clauses::{Clauses, ListedClauses};
use certify_recheck::{RecheckErr, Spot, recheck};
use std::alloc::{AllocError, Global};
use std::process::Abort;
use std::test::Fail;

/// The text of some of the lines, by their places.
fn text_of(alloc: Global, lines: &[&str], places: &[usize]) -> Result<Vec<u8>, AllocError> {
    let mut text = Vec::new(alloc);
    for place in places {
        if let Some(line) = lines.get(*place) {
            text.extend_from_slice(line.as_bytes())?;
            text.push(b'\n')?;
        }
    }
    Ok(text)
}

/// The numbers below `n`, without one of them.
pub(crate) fn without(alloc: Global, n: usize, left_out: usize) -> Result<Vec<usize>, AllocError> {
    let mut places = Vec::new(alloc);
    for place in 0..n {
        if place != left_out {
            places.push(place)?;
        }
    }
    Ok(places)
}

/// The numbers below `n`, one of them twice.
pub(crate) fn doubled(alloc: Global, n: usize, twice: usize) -> Result<Vec<usize>, AllocError> {
    let mut places = Vec::new(alloc);
    for place in 0..n {
        places.push(place)?;
        if place == twice {
            places.push(place)?;
        }
    }
    Ok(places)
}

/// The numbers below `n`, one of them behind the next.
pub(crate) fn exchanged(alloc: Global, n: usize, late: usize) -> Result<Vec<usize>, AllocError> {
    let mut places = Vec::new(alloc);
    for place in 0..n {
        if place == late {
            places.push(place.wrapping_add(1))?;
        } else if place > 0 && place - 1 == late {
            places.push(late)?;
        } else {
            places.push(place)?;
        }
    }
    Ok(places)
}

/// The text's part from its start on, whose first line is number 1.
pub(crate) fn answer<C: Clauses>(
    rt: &impl Abort,
    alloc: Global,
    duty: u32,
    c: &C,
    text: &[u8],
) -> Result<Spot, RecheckErr> {
    assert!(rt; text.len() < 10_000);
    recheck(alloc, duty, c, text, Spot { at: 0, line: 1 })
}

/// A text is refused at a line.
fn is_bad(rt: &impl Abort, alloc: Global, duty: u32, c: &ListedClauses, text: &[u8], line: u64) {
    assert_eq!(rt;
        answer(rt, alloc, duty, c, text),
        Err(RecheckErr::BadLine { line })
    );
}

#[test]
fn whole_parts_are_accepted(rt: HostRuntime) -> Result<(), Fail> {
    let alloc = rt.alloc();
    let places = without(alloc, 8, 8)?;
    let text = text_of(alloc, PLAIN.as_slice(), places.as_slice())?;
    let found = answer(&rt, alloc, 1, &plain(alloc)?, text.as_slice());
    assert_eq!(rt; found, Ok(Spot { at: 67, line: 9 }));
    Ok(())
}

#[test]
fn parts_with_theories_are_accepted(rt: HostRuntime) -> Result<(), Fail> {
    let alloc = rt.alloc();
    let places = without(alloc, 12, 12)?;
    let text = text_of(alloc, MIXED.as_slice(), places.as_slice())?;
    let found = answer(&rt, alloc, 7, &mixed(alloc)?, text.as_slice());
    assert_eq!(rt; found, Ok(Spot { at: 97, line: 13 }));
    Ok(())
}

#[test]
fn a_part_between_others_gives_the_spot_behind_it(rt: HostRuntime) -> Result<(), Fail> {
    let alloc = rt.alloc();
    let places = doubled(alloc, 8, 7)?;
    let text = text_of(alloc, PLAIN.as_slice(), places.as_slice())?;
    let found = answer(&rt, alloc, 1, &plain(alloc)?, text.as_slice());
    assert_eq!(rt; found, Ok(Spot { at: 67, line: 9 }));
    let mut all = Vec::from_slice(alloc, b"end\n")?;
    all.extend_from_slice(text.as_slice())?;
    assert!(rt; all.len() < 10_000);
    let from = Spot { at: 4, line: 2 };
    let found = recheck(alloc, 1, &plain(alloc)?, all.as_slice(), from);
    assert_eq!(rt; found, Ok(Spot { at: 71, line: 10 }));
    Ok(())
}

#[test]
fn a_dropped_line_is_missed(rt: HostRuntime) -> Result<(), Fail> {
    let alloc = rt.alloc();
    let c = plain(alloc)?;
    for (place, line) in [1, 3, 3, 4, 5, 6, 7, 8].iter().enumerate() {
        let places = without(alloc, 8, place)?;
        let text = text_of(alloc, PLAIN.as_slice(), places.as_slice())?;
        is_bad(&rt, alloc, 1, &c, text.as_slice(), *line);
    }
    let c = mixed(alloc)?;
    for (place, line) in [1, 9, 9, 7, 6, 6, 7, 8, 9, 10, 11, 12].iter().enumerate() {
        let places = without(alloc, 12, place)?;
        let text = text_of(alloc, MIXED.as_slice(), places.as_slice())?;
        is_bad(&rt, alloc, 7, &c, text.as_slice(), *line);
    }
    Ok(())
}

#[test]
fn a_doubled_line_is_refused(rt: HostRuntime) -> Result<(), Fail> {
    let alloc = rt.alloc();
    let c = plain(alloc)?;
    for (place, line) in [2, 3, 4, 5, 6, 7, 8].iter().enumerate() {
        let places = doubled(alloc, 8, place)?;
        let text = text_of(alloc, PLAIN.as_slice(), places.as_slice())?;
        is_bad(&rt, alloc, 1, &c, text.as_slice(), *line);
    }
    let c = mixed(alloc)?;
    for (place, line) in [2, 3, 4, 5, 6, 7, 8, 9, 10, 11, 12].iter().enumerate() {
        let places = doubled(alloc, 12, place)?;
        let text = text_of(alloc, MIXED.as_slice(), places.as_slice())?;
        is_bad(&rt, alloc, 7, &c, text.as_slice(), *line);
    }
    Ok(())
}

#[test]
fn exchanged_lines_are_refused(rt: HostRuntime) -> Result<(), Fail> {
    let alloc = rt.alloc();
    let c = plain(alloc)?;
    for (place, line) in [1, 5, 3, 4, 5, 6, 7].iter().enumerate() {
        let places = exchanged(alloc, 8, place)?;
        let text = text_of(alloc, PLAIN.as_slice(), places.as_slice())?;
        is_bad(&rt, alloc, 1, &c, text.as_slice(), *line);
    }
    let c = mixed(alloc)?;
    for (place, line) in [1, 11, 11, 9, 8, 6, 7, 8, 9, 10, 11].iter().enumerate() {
        let places = exchanged(alloc, 12, place)?;
        let text = text_of(alloc, MIXED.as_slice(), places.as_slice())?;
        is_bad(&rt, alloc, 7, &c, text.as_slice(), *line);
    }
    Ok(())
}

#[test]
fn a_text_that_is_cut_lacks_the_line_that_is_cut(rt: HostRuntime) -> Result<(), Fail> {
    let alloc = rt.alloc();
    let c = mixed(alloc)?;
    let places = without(alloc, 12, 12)?;
    let text = text_of(alloc, MIXED.as_slice(), places.as_slice())?;
    let mut line = 1;
    for (at, byte) in text.iter().enumerate() {
        if let Some(front) = text.as_slice().get(..at) {
            is_bad(&rt, alloc, 7, &c, front, line);
        }
        if *byte == b'\n' && line < 100 {
            line += 1;
        }
    }
    assert_eq!(rt; line, 13);
    Ok(())
}

#[test]
fn lines_of_another_form_are_refused(rt: HostRuntime) -> Result<(), Fail> {
    let alloc = rt.alloc();
    let c = plain(alloc)?;
    let rows = [
        ("duty 01\nclause 0\n", 1),
        ("duty 1 \n", 1),
        ("duty  1\n", 1),
        ("Duty 1\n", 1),
        ("duty 1\nclause 4294967295\nend\n", 2),
        ("duty 1\nclause 2000000000\n", 2),
        ("duty 1\nsplit 00\n", 2),
        ("duty 1\nsplit 2\n", 2),
        ("duty 1\nsplit \n", 2),
        ("duty 1\ntheory\n", 2),
        ("duty 1\ntheory \n", 2),
        ("duty 1\nclause -1\n", 2),
        ("duty 1\n\n", 2),
        ("", 1),
        ("\n", 1),
        ("duty 1", 1),
        ("duty 1\nsplit 0\nsplit 0\n", 3),
        ("duty 1\nsplit 0\nclause 1\n", 3),
        ("duty 2\n", 1),
        ("duty 1\rsplit 0\n", 1),
        ("duty 1\nend\n", 2),
        ("duty 1\ncertificate 1\n", 2),
    ];
    for (text, line) in rows.iter() {
        is_bad(&rt, alloc, 1, &c, text.as_bytes(), *line);
    }
    Ok(())
}
