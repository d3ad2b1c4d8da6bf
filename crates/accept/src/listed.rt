// What the checks read: items at places 0, 1, .. .
ghost use Rattle.std.specs.Prelude.{◌≡◌, List, length, slice_get};

// Items at places 0, 1, ..: those of a lent slice, or of a column of a file.
pub trait Listed<T>: Copy {
    ghost items: { Self → List T };

    // How many there are.
    fn count(self) -> usize
        ensures { result ≡ length (items self) };

    // The item at place k, none past the last.
    fn item(self, k: usize) -> Option<T>
        ensures { result ≡ slice_get (items self) k };
}

impl<'a, T: Copy> Listed<T> for &'a [T] {
    ghost items = { λ s. s.now };

    fn count(self) -> usize {
        self.len()
    }

    fn item(self, k: usize) -> Option<T> {
        self.get(k).copied()
    }
}
