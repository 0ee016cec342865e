//! Pieces of a printed text, read one after another.

use data_back::{Scanner, Stop};
use std::test::Fail;

#[test]
fn pieces_are_read_one_after_another(rt: HostRuntime) -> Result<(), Fail> {
    let alloc = rt.alloc();
    let mut scanner = Scanner::new(b"User @30 -9223372036854775808 \"a\\\"\\n\\x7f\xc3\xa9\" end");
    let name: &[u8] = b"User";
    assert_eq!(rt; scanner.name(), Ok(name));
    assert_eq!(rt; scanner.word(b" @"), Ok(()));
    assert_eq!(rt; scanner.number(), Ok(30));
    assert_eq!(rt; scanner.word(b" "), Ok(()));
    assert_eq!(rt; scanner.signed(), Ok(i64::MIN));
    assert_eq!(rt; scanner.word(b" "), Ok(()));
    let text = scanner.text(alloc).map_err(|_| "no text")?;
    let wanted: &[u8] = b"a\"\n\x7f\xc3\xa9";
    assert_eq!(rt; text.as_slice(), wanted);
    assert_eq!(rt; scanner.word(b" ends"), Err(Stop::Unlike));
    assert_eq!(rt; scanner.len(), 4);
    Ok(())
}
