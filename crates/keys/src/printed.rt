// How keys print.
ghost use Rattle.std.specs.Prelude.{◌≡◌, ℕ, ◌≤◌, true, List, length, Some};
ghost use Rattle.keys.specs.Bytes.{put_count, put_buffer};

use crate::key::Key;
use std::fmt;

// Kinds of key that print into lent memory, as `Display` prints them, but whole or not at all.
pub trait Printed: Key + fmt::Display {
    // the bytes that a key prints as
    ghost printed: { Self → List ℕ };

    // Prints the key at the offset and answers how many bytes; where they do not fit, nothing is written.
    fn print(&self, page: &mut [u8], at: usize) -> Option<usize>
        ensures count { result ≡ put_count (printed self.now) page.old at }
        ensures after { page.new ≡ put_buffer (printed self.now) page.old at };

    // `Display` writes the same bytes.
    ghost agrees: { (k : Self) → Self.Display.output k ≡ Some (printed k) };

    // They are 1 to 8.
    ghost brief: { (k : Self) → (Self.Key.view k).lawful ≡ true → (1 ≤ length (printed k)) × (length (printed k) ≤ 8) };
}
