// Columns of floats, entry by entry: whether they are in their range, and how they are read into a slice.
// Kept: a loop over entries and one over the floats of each. Tried by float number k of the column, as `Listed` has
// it: the division that finds its entry made the reading of a file of many surfels 1.4 to 1.6 times as long.
ghost use Rattle.std.specs.Prelude.{◌≡◌, [], ◌∷◌, ◌+◌, ◌*◌, ◌≤◌, length};
ghost use Rattle.std.specs.Option.{option_map};
ghost use Rattle.std.proofs.lemmas.List.Edits.{sets};
ghost use Rattle.vector.specs.Flat.{rows};
ghost use Rattle.accept.specs.Ranges.{all_within, floats_within};
ghost use Rattle.file.specs.Words.{words, float_in};
ghost use Rattle.file.specs.Columns.{floats_over, floats_of};
ghost use Rattle.file.specs.Needs.{Inside, put_front};

use crate::Column;
use crate::lying::Lying;
use crate::words::word;
use accept::Listed;
use float::of_bits;

// Whether each float of a column is from lo to hi.
pub fn column_within(bytes: &[u8], col: Column, lo: f32, hi: f32) -> bool
    requires { Inside bytes.now col }
    ensures { result ≡ floats_within (floats_of bytes.now col) col.count col.width lo hi }
{
    let mut ok = true;
    for i in 0..col.count {
        ok = ok & entry_within(bytes, col.from + col.step * i, col.width, lo, hi);
    }
    ok
}

// Whether each of the floats from word k on, so many, is from lo to hi.
fn entry_within(bytes: &[u8], k: usize, width: usize, lo: f32, hi: f32) -> bool
    requires { k + width ≤ words bytes.now }
    ensures { result ≡ all_within (λ j. float_in bytes.now (k + j)) width lo hi }
{
    let mut ok = true;
    for j in 0..width {
        let x = of_bits(word(bytes, k + j));
        ok = ok & ((lo <= x) & (x <= hi));
    }
    ok
}

// Puts the floats of a column at the front of out.
fn store_floats(bytes: &[u8], col: Column, out: &mut [f32])
    requires inside { Inside bytes.now col }
    requires count_in_bounds { col.width * col.count ≤ length out.old }
    ensures { out.new ≡ floats_over bytes.now col out.old }
{
    for i in 0..col.count {
        store_entry(
            bytes,
            col.from + col.step * i,
            col.width,
            out,
            col.width * i,
        );
    }
}

// Puts the floats from word k on, so many, from place `to` on.
fn store_entry(bytes: &[u8], k: usize, width: usize, out: &mut [f32], to: usize)
    requires width_bound { k + width ≤ words bytes.now }
    requires width_in_bounds { to + width ≤ length out.old }
    ensures { out.new ≡ sets out.old to (rows (λ j. float_in bytes.now (k + j) ∷ []) width) }
{
    for j in 0..width {
        out[to + j] = of_bits(word(bytes, k + j));
    }
}

// Puts the floats of a column at the front of out, where there is one and out holds them; otherwise out
// stays as it was.
pub(crate) fn read_floats(found: Option<Lying>, out: &mut [f32])
    ensures { out.new ≡ put_front (option_map (λ l. floats_of l.bytes.now l.place) found.entry) out.old }
{
    let Some(list) = found else {
        return;
    };
    if Listed::<f32>::count(list) <= out.len() {
        store_floats(list.bytes, list.place, out);
    }
}
