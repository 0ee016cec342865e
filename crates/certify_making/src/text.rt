//! The text of a line.

ghost use Rattle.std.specs.Prelude.{◌≡◌, ◌++◌, ◌∷◌, [], OnOk};
ghost use Rattle.std.specs.Fmt.{decimal};
ghost use Rattle.certify_making.specs.Texts.{bytes_of};

use certify_recheck::Line;
use itoa::Buffer;
use std::alloc::AllocError;

/// Puts a word and a number at the end.
fn push_numbered(word: &[u8], number: u32, text: &mut Vec<u8>) -> Result<(), AllocError>
    ensures { OnOk result (text.new.items ≡ text.old.items ++ (word.now ++ decimal number)) }
{
    let mut buffer = Buffer::new();
    text.extend_from_slice(word)?;
    text.extend_from_slice(buffer.format(number).as_bytes())?;
    Ok(())
}

/// Puts the bytes of a line at the end.
fn push_bytes(line: Line, text: &mut Vec<u8>) -> Result<(), AllocError>
    ensures { OnOk result (text.new.items ≡ text.old.items ++ bytes_of line) }
{
    match line {
        Line::Heading => text.extend_from_slice(b"certificate 1"),
        Line::Duty(number) => push_numbered(b"duty ", number, text),
        Line::Split(var) => push_numbered(b"split ", var, text),
        Line::Clause(number) => push_numbered(b"clause ", number, text),
        Line::Theory => text.extend_from_slice(b"theory"),
        Line::End => text.extend_from_slice(b"end"),
        Line::Other => Ok(()),
    }
}

/// Puts a line with its end at the end.
pub fn push_line(line: Line, text: &mut Vec<u8>) -> Result<(), AllocError>
    ensures { OnOk result (text.new.items ≡ text.old.items ++ (bytes_of line ++ 10 ∷ [])) }
{
    push_bytes(line, text)?;
    text.push(b'\n')?;
    Ok(())
}
