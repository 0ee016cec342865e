//! Over a thousand wrong texts of a part, each refused at the line that is found slowly.

use crate::crowded::{PART, crowded};
use crate::judge::first_bad;
use crate::tests::{answer, doubled, exchanged, without};
use certify_clauses::ListedClauses;
use certify_recheck::{Line, RecheckErr};
use std::alloc::{AllocError, Global};
use std::process::Abort;
use std::test::Fail;

/// A line with its end.
fn written(alloc: Global, line: Line) -> Result<String, AllocError> {
    match line {
        Line::Duty(number) => Ok(format!(in alloc; "duty {number}\n")?),
        Line::Split(var) => Ok(format!(in alloc; "split {var}\n")?),
        Line::Clause(number) => Ok(format!(in alloc; "clause {number}\n")?),
        _ => Ok(String::new(alloc)),
    }
}

/// The text of the lines.
fn text_of(alloc: Global, lines: &[Line]) -> Result<Vec<u8>, AllocError> {
    let mut text = Vec::new(alloc);
    for line in lines {
        let bytes = written(alloc, *line)?;
        text.extend_from_slice(bytes.as_bytes())?;
    }
    Ok(text)
}

/// The line at which the text is refused, if it is.
fn refused_at(
    rt: &impl Abort,
    alloc: Global,
    c: &ListedClauses,
    text: &[u8],
) -> Result<Option<u64>, AllocError> {
    match answer(rt, alloc, 1, c, text) {
        Ok(_) => Ok(None),
        Err(RecheckErr::BadLine { line }) => Ok(Some(line)),
        Err(RecheckErr::OutOfMemory) => Err(AllocError),
    }
}

/// The check refuses the lines where they are found to be bad.
fn agrees(
    rt: &impl Abort,
    alloc: Global,
    c: &ListedClauses,
    lines: &[Line],
) -> Result<bool, AllocError> {
    let text = text_of(alloc, lines)?;
    let found = refused_at(rt, alloc, c, text.as_slice())?;
    Ok(found == first_bad(alloc, lines)?)
}

/// The lines at these places.
fn lines_at(alloc: Global, places: &[usize]) -> Result<Vec<Line>, AllocError> {
    let mut lines = Vec::new(alloc);
    for place in places {
        if let Some(line) = PART.get(*place) {
            lines.push(*line)?;
        }
    }
    Ok(lines)
}

/// The line with its number one more, or one less.
fn one_off(line: Line, more: bool) -> Line {
    match line {
        Line::Duty(n) => Line::Duty(next_to(n, more)),
        Line::Split(n) => Line::Split(next_to(n, more)),
        Line::Clause(n) => Line::Clause(next_to(n, more)),
        other => other,
    }
}

/// The number one more, or one less where it is not 0.
fn next_to(number: u32, more: bool) -> u32 {
    if more {
        number.saturating_add(1)
    } else {
        number.saturating_sub(1)
    }
}

/// The lines, with the number of one of them one off.
fn with_one_off(alloc: Global, place: usize, more: bool) -> Result<Vec<Line>, AllocError> {
    let mut lines = Vec::new(alloc);
    for (at, line) in PART.iter().enumerate() {
        if at == place {
            lines.push(one_off(*line, more))?;
        } else {
            lines.push(*line)?;
        }
    }
    Ok(lines)
}

#[test]
fn a_whole_part_is_accepted(rt: HostRuntime) -> Result<(), Fail> {
    let alloc = rt.alloc();
    assert_eq!(rt; first_bad(alloc, &PART)?, None);
    assert!(rt; agrees(&rt, alloc, &crowded(alloc)?, &PART)?);
    Ok(())
}

#[test]
fn lines_are_refused_where_they_are_bad(rt: HostRuntime) -> Result<(), Fail> {
    let alloc = rt.alloc();
    let c = crowded(alloc)?;
    let count = PART.len();
    for place in 0..count {
        let dropped = without(alloc, count, place)?;
        assert!(rt;
            agrees(
                &rt,
                alloc,
                &c,
                lines_at(alloc, dropped.as_slice())?.as_slice()
            )?
        );
        let twice = doubled(alloc, count, place)?;
        assert!(rt;
            agrees(
                &rt,
                alloc,
                &c,
                lines_at(alloc, twice.as_slice())?.as_slice()
            )?
        );
        let late = exchanged(alloc, count, place)?;
        assert!(rt; agrees(&rt, alloc, &c, lines_at(alloc, late.as_slice())?.as_slice())?);
    }
    Ok(())
}

#[test]
fn numbers_one_off_are_refused_where_they_are_bad(rt: HostRuntime) -> Result<(), Fail> {
    let alloc = rt.alloc();
    let c = crowded(alloc)?;
    for place in 0..PART.len() {
        assert!(rt; agrees(&rt, alloc, &c, with_one_off(alloc, place, true)?.as_slice())?);
        assert!(rt;
            agrees(
                &rt,
                alloc,
                &c,
                with_one_off(alloc, place, false)?.as_slice()
            )?
        );
    }
    Ok(())
}

#[test]
fn a_part_that_is_cut_lacks_the_line_that_is_cut(rt: HostRuntime) -> Result<(), Fail> {
    let alloc = rt.alloc();
    let c = crowded(alloc)?;
    let text = text_of(alloc, &PART)?;
    let mut line = 1_u64;
    for (at, byte) in text.iter().enumerate() {
        if let Some(front) = text.as_slice().get(..at) {
            assert_eq!(rt; refused_at(&rt, alloc, &c, front)?, Some(line));
        }
        if *byte == b'\n' {
            line = line.saturating_add(1);
        }
    }
    assert_eq!(rt; line, PART.len() as u64 + 1);
    Ok(())
}
