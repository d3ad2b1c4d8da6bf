// The bytes of a file stored line by line, for the replay programs.
#![tactic(auto)]

use replay::{Line, Words};

// Stores what the line says, and answers whether it says something: `clear` makes every byte zero,
// and `put` puts the words after the first one after the other, four bytes each with the lowest first,
// from the byte on that the first names, as far as the file has bytes.
pub fn store(file: &mut [u8], line: &Line<'_>) -> bool {
    match line.name {
        b"clear" => file.fill(0),
        b"put" => put(file, &line.given),
        _ => return false,
    }
    true
}

fn put(file: &mut [u8], given: &Words) {
    if let Some((from, words)) = given.as_slice().split_first() {
        for (k, word) in words.iter().enumerate() {
            text::put(file, *from as usize + 4 * k, &word.to_le_bytes());
        }
    }
}
