//! Texts for classes that have none of the formula's.

ghost use Rattle.std.specs.Prelude.{◌≡◌, ◌≤◌, length};
ghost use Rattle.std.specs.Str.{IsAscii};

use crate::sides::place_of;
use std::alloc::{AllocError, Global};
use text_ast::Txt;

/// The texts of classes: those of the formula, and others that were taken for classes without one.
#[derive(Drop)]
pub(crate) struct Spares {
    classes: Vec<u32>,
    texts: Vec<Txt>,
    /// The number of the next text to try.
    next: u32,
}

/// The text of a few letters.
fn text_of_letters(bytes: Vec<u8>) -> Txt
    requires ascii { IsAscii bytes.items }
    requires few { length bytes.items ≤ 7 }
    ensures { result ≡ bytes.items }
{
    Txt::of(bytes)
}

/// The letters of a number, the lowest first: a, b, and so on.
fn letters(alloc: Global, number: u32) -> Result<Txt, AllocError> {
    let mut bytes = Vec::new(alloc);
    let mut rest = number;
    for _done in 0..7usize {
        bytes.push(b'a' + (rest % 26) as u8)?;
        rest /= 26;
        if rest == 0 {
            return Ok(text_of_letters(bytes));
        }
    }
    Ok(text_of_letters(bytes))
}

/// The first letters from a number on that are none of some texts, and the number after theirs. Four
/// thousand million texts count as memory that is not there.
fn unused(alloc: Global, texts: &[Txt], first: u32) -> Result<(Txt, u32), AllocError> {
    for number in first..u32::MAX {
        let text = letters(alloc, number)?;
        if place_of(texts, &text).is_none() {
            return Ok((text, number + 1));
        }
    }
    Err(AllocError)
}

/// The text of the first place whose class this is.
fn text_at(
    alloc: Global,
    texts: &[Txt],
    classes: &[u32],
    class: u32,
) -> Result<Option<Txt>, AllocError> {
    let Some(place) = classes.iter().position(|k| *k == class) else {
        return Ok(None);
    };
    match texts.get(place) {
        Some(text) => {
            let copy = text.copy(alloc)?;
            Ok(Some(copy))
        }
        None => Ok(None),
    }
}

impl Spares {
    /// No texts but the formula's.
    pub(crate) fn new(alloc: Global) -> Spares {
        Spares {
            classes: Vec::new(alloc),
            texts: Vec::new(alloc),
            next: 0,
        }
    }

    /// Takes a text for a class.
    fn take(&mut self, alloc: Global, texts: &[Txt], class: u32) -> Result<Txt, AllocError> {
        let (text, next) = unused(alloc, texts, self.next)?;
        let copy = text.copy(alloc)?;
        self.next = next;
        self.classes.push(class)?;
        self.texts.push(copy)?;
        Ok(text)
    }

    /// The text of a class, where the formula's texts have these classes.
    pub(crate) fn text_of(
        &mut self,
        alloc: Global,
        texts: &[Txt],
        classes: &[u32],
        class: u32,
    ) -> Result<Txt, AllocError> {
        if let Some(text) = text_at(alloc, texts, classes, class)? {
            return Ok(text);
        }
        match text_at(alloc, self.texts.as_slice(), self.classes.as_slice(), class)? {
            Some(text) => Ok(text),
            None => self.take(alloc, texts, class),
        }
    }
}
