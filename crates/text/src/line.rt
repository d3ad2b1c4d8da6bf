// Bytes stored in a lent line.
ghost use Rattle.std.specs.Prelude.{◌≡◌};
ghost use Rattle.std.proofs.lemmas.List.Edits.{sets};

// Stores the bytes of s in out, one after the other from place `at` on. A byte that would lie past
// the end is not stored, and every other byte of out stays as it was.
pub fn put(out: &mut [u8], at: usize, s: &[u8])
    ensures { out.new ≡ sets out.old at s.now }
{
    if at < out.len() {
        let n = s.len().min(out.len() - at);
        out[at..at + n].copy_from_slice(&s[..n]);
    }
}
