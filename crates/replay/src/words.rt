// Words put together one after the other, and what words are read as.
ghost use Rattle.std.specs.Prelude.{◌≡◌, ◌%◌};
ghost use Rattle.std.specs.Float.{binary32};
ghost use Rattle.std.specs.Float.Ieee.{to_bits};
ghost use Rattle.accept.specs.Refusal.{number_of};
ghost use Rattle.replay.specs.Vectors.{vector_of};
ghost use Rattle.replay.specs.Words.{answered, counted, none, told, with as Words·with};

use accept::Refusal;
use float::of_bits;
use std::fmt;
use std::marker::Model;
use vector::Vec3;

// Up to 16 words, the operands or the result of a case. They are shown with a space between two.
// Kept: an array and a count, since the kit's list of bounded length is not Copy.
#[derive(Clone, Copy)]
pub struct Words {
    words: [u32; 16],
    count: usize,
}

// A place that no word stands at is 0, so that the words tell all places.
impl Model for Words {
    ghost use Rattle.std.specs.Prelude.{ℕ, List, ◌++◌, ◌-◌, length, take, replicate};
    ghost use Rattle.text.specs.Held.{Held};

    ghost Value = { List ℕ };

    ghost view = { λ w. take w.count w.words };

    ghost invariant = { λ w. Held 16 w.words w.count };

    ghost inverse = { λ words. record { words = words ++ replicate (16 - length words) 0; count = length words } };

    ghost inverse_ok = { λ w h i. record { words = h.zeros i; count = h.counted i } };
}

impl Words {
    ghost use Rattle.std.specs.Prelude.{◌≤◌, length, ◌++◌, ◌-◌, replicate};
    ghost use Rattle.replay.specs.Vectors.{with_vector};

    // No words.
    pub fn none() -> Words
        ensures { result ≡ none }
    {
        Words {
            words: [0; 16],
            count: 0,
        }
    }

    // 0, which begins each answer that is no refusal.
    pub fn answered() -> Words
        ensures { result ≡ answered }
    {
        Words::none().with(0)
    }

    // How many there are.
    pub fn len(&self) -> usize
        ensures { result ≡ length self.now }
    {
        self.count
    }

    // The words.
    pub fn as_slice(&self) -> &[u32]
        ensures words { result.now ≡ self.now }
        ensures fits { length result.now ≤ 16 }
    {
        &self.words[..self.count]
    }

    // These words and one more; unchanged where there are 16.
    pub fn with(self, word: u32) -> Words
        ensures { result ≡ Words·with self word }
    {
        let at = self.count;
        if at >= 16 {
            return self;
        }
        let mut words = self.words;
        words[at] = word;
        Words {
            words,
            count: at + 1,
        }
    }

    // These words and a float's bits, 7FC00000 for NaN.
    pub fn with_float(self, x: f32) -> Words
        ensures { result ≡ Words·with self (to_bits binary32 x) }
    {
        self.with(float::bits_of(x))
    }

    // These words and the bits of a vector's three floats.
    pub fn with_vector(self, v: Vec3) -> Words
        ensures { result ≡ with_vector self v }
    {
        self.with_float(v.x).with_float(v.y).with_float(v.z)
    }

    // All 16 places: a place that no word stands at is 0.
    pub fn padded(&self) -> [u32; 16]
        ensures { result ≡ self.now ++ replicate (16 - length self.now) 0 }
    {
        self.words
    }
}

impl fmt::Display for Words {
    fn fmt<W: fmt::Write>(&self, f: &mut fmt::Formatter<W>) -> fmt::Result {
        let mut between = "";
        for word in self.as_slice() {
            write!(f, "{between}{word:08X}")?;
            between = " ";
        }
        Ok(())
    }
}

// A refusal's number alone; 0 starts every other answer.
pub fn refused(number: u32) -> Words
    ensures { result ≡ Words·with none number }
{
    Words::none().with(number)
}

// The number of this refusal alone.
pub fn refusal_word(refusal: Refusal) -> Words
    ensures { result ≡ Words·with none (number_of refusal) }
{
    Words::none().with(u32::from(refusal))
}

// 8 and the row whose links don't fit.
pub fn full(row: usize) -> Words
    ensures { result ≡ Words·with (Words·with none 8) (row % 4294967296) }
{
    Words::none().with(8).with(short(row))
}

// The words of an answer, or the refusal's number alone.
pub fn told(answer: Result<Words, Refusal>) -> Words
    ensures { result ≡ told answer }
{
    answer.unwrap_or_else(|refusal| refusal_word(refusal))
}

// 0 and how many were counted, or the refusal's number alone.
pub fn counted(answer: Result<usize, Refusal>) -> Words
    ensures { result ≡ counted answer }
{
    told(answer.map(|count| Words::answered().with(short(count))))
}

// A number as a word, as far as it fits.
// Kept: no `From`, since it cuts what does not fit.
pub fn short(x: usize) -> u32
    ensures { result ≡ x % 4294967296 }
{
    (x % 4294967296) as u32
}

// The vector of three words.
pub fn vec(x: u32, y: u32, z: u32) -> Vec3
    ensures { result ≡ vector_of x y z }
{
    Vec3 {
        x: of_bits(x),
        y: of_bits(y),
        z: of_bits(z),
    }
}
