// Floats of a slice, and vectors of a flat slice, three floats each.
ghost use Rattle.std.specs.Prelude.{◌≡◌, set};
ghost use Rattle.std.proofs.lemmas.List.Edits.{sets};
ghost use Rattle.float.specs.Column.{float_at};
ghost use Rattle.vector.specs.Flat.{vec_at, put_at};

use crate::Vec3;

impl From<[f32; 3]> for Vec3 {
    ghost from_gives = { λ floats v. v ≡ vec_at floats 0 };

    // The vector of three floats.
    fn from(floats: [f32; 3]) -> Vec3 {
        let [x, y, z] = floats;
        Vec3 { x, y, z }
    }
}

// The vector number i of s; each float of it that lies outside s is NaN.
pub fn at(s: &[f32], i: usize) -> Vec3
    ensures { result ≡ vec_at s.now i }
{
    if i > s.len() / 3 {
        let none = float::nan();
        return Vec3 {
            x: none,
            y: none,
            z: none,
        };
    }
    let j = 3 * i;
    Vec3 {
        x: float_at(s, j),
        y: float_at(s, j + 1),
        z: float_at(s, j + 2),
    }
}

// Stores v as the vector number i of s; a float of it that lies outside s is not stored.
pub fn put(s: &mut [f32], i: usize, v: Vec3)
    ensures { s.new ≡ put_at s.old i v }
{
    if i > s.len() / 3 {
        return;
    }
    let j = 3 * i;
    put_float(s, j, v.x);
    put_float(s, j + 1, v.y);
    put_float(s, j + 2, v.z);
}

// The float number k of s, or NaN where s ends before.
pub fn float_at(s: &[f32], k: usize) -> f32
    ensures { result ≡ float_at s.now k }
{
    s.get(k).copied().unwrap_or(float::nan())
}

// Stores x as the float number k of s, unless s ends before.
pub fn put_float(s: &mut [f32], k: usize, x: f32)
    ensures { s.new ≡ set s.old k x }
{
    if k < s.len() {
        s[k] = x;
    }
}

// Stores the items one after the other from place `at` on; an item that would lie past the end is not
// stored.
// Kept: a loop, since with `copy_from_slice` the library for C asks for memmove from outside.
pub fn put_all<T: Copy>(s: &mut [T], at: usize, items: &[T])
    ensures { s.new ≡ sets s.old at items.now }
{
    let places = s.len().saturating_sub(at).min(items.len());
    for (k, item) in items[..places].iter().enumerate() {
        s[at + k] = *item;
    }
}
