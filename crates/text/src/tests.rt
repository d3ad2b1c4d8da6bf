// Words at the start of a text.
use super::*;

#[test]
fn leading_words_are_read(rt: HostRuntime) {
    assert_eq!(rt; leading_word(b"0000002A"), Some(42));
    assert_eq!(rt; leading_word(b"FFFFFFFF 00000001"), Some(u32::MAX));
    assert_eq!(rt; leading_word(b" 0000002A"), None);
    assert_eq!(rt; leading_word(b"0000002"), None);
    assert_eq!(rt; leading_word(b"0000002a"), None);
}
