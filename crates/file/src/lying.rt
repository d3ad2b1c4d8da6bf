// Columns that lie in a file: what the checks of numbers and floats read, and how a column is read
// into a slice.
ghost use Rattle.std.specs.Prelude.{◌≡◌};
ghost use Rattle.std.specs.Option.{option_map};
ghost use Rattle.file.specs.Needs.{Inside, put_front};

use crate::Column;
use crate::words::word;
use accept::Listed;
use float::of_bits;

// A column that lies in its file.
#[derive(Clone, Copy)]
pub(crate) struct Lying<'a> {
    pub(crate) bytes: &'a [u8],
    pub(crate) place: Column,
    ghost inside: { Inside bytes.now place },
}

impl<'a> Listed<u32> for Lying<'a> {
    ghost use Rattle.file.specs.Columns.{numbers_of};

    ghost items = { λ s. numbers_of s.bytes.now s.place };

    fn count(self) -> usize {
        self.place.count
    }

    // The first word of entry k.
    fn item(self, k: usize) -> Option<u32> {
        if k < self.place.count {
            Some(word(self.bytes, self.place.from + self.place.step * k))
        } else {
            None
        }
    }
}

impl<'a> Listed<f32> for Lying<'a> {
    ghost use Rattle.file.specs.Columns.{floats_of};

    ghost items = { λ s. floats_of s.bytes.now s.place };

    fn count(self) -> usize {
        self.place.width * self.place.count
    }

    // Float k, entry by entry.
    fn item(self, k: usize) -> Option<f32> {
        let width = self.place.width;
        if k < width * self.place.count {
            let entry = self.place.from + self.place.step * (k / width);
            Some(of_bits(word(self.bytes, entry + k % width)))
        } else {
            None
        }
    }
}

// Puts the items of a list at the front of out, where there is one and out holds them; otherwise out
// stays as it was.
pub(crate) fn store<T: Copy, L: Listed<T>>(found: Option<L>, out: &mut [T])
    ensures { out.new ≡ put_front (option_map L.items found) out.old }
{
    let Some(list) = found else {
        return;
    };
    if out.len() < list.count() {
        return;
    }
    for (k, place) in out.iter_mut().enumerate() {
        let Some(x) = list.item(k) else {
            return;
        };
        *place = x;
    }
}
