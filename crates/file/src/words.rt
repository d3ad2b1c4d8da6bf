// The words of a file.
ghost use Rattle.std.specs.Prelude.{◌≡◌, ◌<◌, ◌≤◌};
ghost use Rattle.file.specs.Words.{words, word_in, float_in, vec_in};

use float::of_bits;
use vector::Vec3;

// Word k of the file, 0 where it has none.
pub fn word_at(bytes: &[u8], k: usize) -> u32
    ensures { result ≡ word_in bytes.now k }
{
    if k < bytes.len() / 4 {
        word(bytes, k)
    } else {
        0
    }
}

// The float of word k, that of the bits 0 where the file has none.
pub fn float_at(bytes: &[u8], k: usize) -> f32
    ensures { result ≡ float_in bytes.now k }
{
    of_bits(word_at(bytes, k))
}

// The vector of the three floats from word k on.
pub fn vec_at(bytes: &[u8], k: usize) -> Vec3
    requires { k ≤ 1099511627776 }
    ensures { result ≡ vec_in bytes.now k }
{
    Vec3 {
        x: float_at(bytes, k),
        y: float_at(bytes, k + 1),
        z: float_at(bytes, k + 2),
    }
}

// Word k of a file that has it.
pub fn word(bytes: &[u8], k: usize) -> u32
    requires { k < words bytes.now }
    ensures { result ≡ word_in bytes.now k }
{
    let at = 4 * k;
    u32::from_le_bytes([bytes[at], bytes[at + 1], bytes[at + 2], bytes[at + 3]])
}
