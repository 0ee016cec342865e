//! The first line of a part that is bad, found slowly and plainly: by the paths that are due, each
//! of which is kept whole.

use crate::crowded::{CLAUSES, VARS};
use certify_recheck::Line;
use std::alloc::{AllocError, Global};

/// A path: `v + 1` where variable v is true, and `-(v + 1)` where it is false.
type Path = Vec<i32>;

/// Whether the clause is there and each of its literals is false on the path.
fn is_false(number: u32, path: &[i32]) -> bool {
    match CLAUSES.get(number as usize) {
        None => false,
        Some(clause) => clause.iter().all(|l| path.contains(&l.wrapping_neg())),
    }
}

/// The path with one literal more.
fn longer(alloc: Global, path: &[i32], literal: i32) -> Result<Path, AllocError> {
    let mut more = Vec::from_slice(alloc, path)?;
    more.push(literal)?;
    Ok(more)
}

/// Puts the two paths behind a split in front of what is due. False where it is no lawful split.
fn split(alloc: Global, path: &[i32], var: u32, due: &mut Vec<Path>) -> Result<bool, AllocError> {
    if var >= VARS {
        return Ok(false);
    }
    let so = var as i32 + 1;
    if path.contains(&so) || path.contains(&-so) {
        return Ok(false);
    }
    due.push(longer(alloc, path, -so)?)?;
    due.push(longer(alloc, path, so)?)?;
    Ok(true)
}

/// Whether the line is the next one of a tree along the path; what it leaves is due. The clauses
/// have no atoms, so no line for the theories is lawful.
fn is_next(
    alloc: Global,
    path: &[i32],
    line: Line,
    due: &mut Vec<Path>,
) -> Result<bool, AllocError> {
    match line {
        Line::Split(var) => split(alloc, path, var, due),
        Line::Clause(number) => Ok(is_false(number, path)),
        _ => Ok(false),
    }
}

/// The number of the first of the lines that is not the next one of part 1, or None where they
/// begin with a part.
pub(crate) fn first_bad(alloc: Global, lines: &[Line]) -> Result<Option<u64>, AllocError> {
    let mut due = Vec::new(alloc);
    due.push(Vec::new(alloc))?;
    for (place, line) in lines.iter().enumerate() {
        if place == 0 && *line == Line::Duty(1) {
            continue;
        }
        let Some(path) = due.pop() else {
            return Ok(None);
        };
        if place == 0 || !is_next(alloc, path.as_slice(), *line, &mut due)? {
            return Ok(Some(place as u64 + 1));
        }
    }
    if due.is_empty() {
        Ok(None)
    } else {
        Ok(Some(lines.len() as u64 + 1))
    }
}
