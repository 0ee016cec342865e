//! Blanks and comments.

ghost use Rattle.text_lexer.specs.Gap.{gap_len};
ghost use Rattle.text_lexer.specs.Lexes.{is_blank};
ghost use Rattle.std.specs.Prelude.{length, ◌≡◌, ◌≤◌};

/// Whether the byte is a space, a tab, a carriage return or the end of a line.
fn is_blank(byte: u8) -> bool
    ensures { result ≡ is_blank byte }
{
    byte == b' ' || byte == b'\t' || byte == b'\r' || byte == b'\n'
}

/// How many bytes at the front are blanks or stand in comments.
pub fn gap_end(text: &[u8]) -> usize
    ensures value { result ≡ gap_len text.now }
    ensures within { result ≤ length text.now }
{
    let mut in_comment = false;
    for (at, byte) in text.iter().enumerate() {
        if in_comment {
            in_comment = *byte != b'\n';
        } else if *byte == b'#' {
            in_comment = true;
        } else if !is_blank(*byte) {
            return at;
        }
    }
    text.len()
}
