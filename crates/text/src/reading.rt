// A word read from text.
//
// Kept: the library's `from_str_radix` takes lower-case digits and a sign too.
ghost use Rattle.std.specs.Prelude.{◌≡◌};
ghost use Rattle.text.specs.Words.{digit_of, word_at};

// The word that the eight upper-case hexadecimal digits from place `at` on spell; none where one of
// the eight bytes is no such digit, and where s ends before the last of them.
pub fn word(s: &[u8], at: usize) -> Option<u32>
    ensures { result ≡ word_at s.now at }
{
    let mut n = 0;
    for b in s.get(at..)?.get(..8)? {
        n = n * 16 + digit(*b)?;
    }
    Some(n)
}

// The word that the first eight bytes of s spell, as `word` reads it.
pub fn leading_word(s: &[u8]) -> Option<u32>
    ensures { result ≡ word_at s.now 0 }
{
    word(s, 0)
}

// The value of an upper-case hexadecimal digit, none for any other byte.
fn digit(b: u8) -> Option<u32>
    ensures { result ≡ digit_of b }
{
    match b {
        b'0'..=b'9' => Some((b - b'0') as u32),
        b'A'..=b'F' => Some((b - b'A') as u32 + 10),
        _ => None,
    }
}
