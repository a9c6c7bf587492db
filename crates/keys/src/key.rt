// The one interface of all kinds of key.
ghost use Rattle.std.specs.Prelude.{◌≡◌, ℕ, ◌<◌, ◌≤◌, true, List, [], ◌++◌, length, drop};
ghost use Rattle.std.specs.Str.{bytes_eq};
ghost use Rattle.keys.specs.Answers.{Reading, read, read_told, left_after};
ghost use Rattle.keys.specs.Bytes.{Bytes, put_count, put_buffer};
ghost use Rattle.keys.specs.View.{KeyView};

use crate::faults::KeyFault;

// What a kind of key gives. A value can be unlawful where the type allows it; the laws are owed for lawful keys, and each says so,
// since a reader takes them one by one.
pub trait Key: Copy + Eq {
    // what the rules see of a key
    ghost view: { Self → KeyView };
    // what reading the bytes answers
    ghost reading: { List ℕ → Reading Self };

    fn is_lawful(&self) -> bool
        ensures { result ≡ (view self.now).lawful };

    // A plain number, as piles take it.
    fn class(&self) -> u8
        ensures { result ≡ (view self.now).class };

    // Where a search of a table starts, modulo its length.
    fn index(&self) -> u16
        ensures { result ≡ (view self.now).index };

    // How many bytes the byte form has.
    fn size(&self) -> usize
        ensures { result ≡ length (view self.now).form };

    // The key that the bytes begin with.
    fn read(bytes: &[u8]) -> Result<Self, KeyFault>
        ensures { read_told result ≡ reading bytes.now };

    // The bytes after that key, or all of them where none can be read.
    fn rest(bytes: &[u8]) -> &[u8]
        ensures { result.now ≡ left_after view (reading bytes.now) bytes.now }
    {
        match Self::read(bytes) {
            Ok(key) => &bytes[key.size()..],
            Err(_) => bytes,
        }
    }

    // Writes the byte form at the offset and answers how many bytes; where they do not fit, nothing is written.
    fn write(&self, into: &mut [u8], at: usize) -> Option<usize>
        ensures count { result ≡ put_count (view self.now).form into.old at }
        ensures after { into.new ≡ put_buffer (view self.now).form into.old at };

    // `==` compares the byte forms, also of keys that are not lawful.
    ghost same: { (a b : Self) → Self.PartialEq.eq a b ≡ bytes_eq (view a).form (view b).form };

    // Lawful keys whose byte forms are equal are the same,
    ghost equal: { (a b : Self) → (view a).lawful ≡ true → (view b).lawful ≡ true → (view a).form ≡ (view b).form → a ≡ b };

    // and have one class and one index number.
    ghost alike: { (a b : Self) → (view a).lawful ≡ true → (view b).lawful ≡ true → (view a).form ≡ (view b).form → ((view a).class ≡ (view b).class) × ((view a).index ≡ (view b).index) };

    // A class is 0 to 7.
    ghost classes: { (k : Self) → (view k).lawful ≡ true → (view k).class < 8 };

    // A byte form has 1 to 9 bytes.
    ghost sizes: { (k : Self) → (view k).lawful ≡ true → (1 ≤ length (view k).form) × (length (view k).form ≤ 9) };

    ghost bytes: { (k : Self) → (view k).lawful ≡ true → Bytes (view k).form };

    // No byte form begins another one.
    ghost apart: { (a b : Self) (more : List ℕ) → (view a).lawful ≡ true → (view b).lawful ≡ true → (view b).form ≡ (view a).form ++ more → more ≡ [] };

    // A byte form reads back, whatever follows it.
    ghost back: { (k : Self) (rest : List ℕ) → (view k).lawful ≡ true → reading ((view k).form ++ rest) ≡ read k };

    // What is read is lawful,
    ghost found: { (k : Self) (bytes : List ℕ) → reading bytes ≡ read k → (view k).lawful ≡ true };

    // and its byte form begins the bytes.
    ghost begins: { (k : Self) (bytes : List ℕ) → reading bytes ≡ read k → bytes ≡ (view k).form ++ drop (length (view k).form) bytes };
}
