// Keys of any kind one after another.
ghost use Rattle.std.specs.Prelude.{◌≡◌, ℕ, true, List, ◌++◌, length, drop};
ghost use Rattle.std.specs.List.{flat_map, AllByRecursion};
ghost use Rattle.keys.specs.Sequences.{keys_in};

use crate::key::Key;

// Reads keys one after another, as many as there is room for, up to the first that cannot be read; answers how many.
// Byte forms of lawful keys, one after another, read back as those keys.
pub fn read_keys<K: Key>(bytes: &[u8], into: &mut [K]) -> usize
    ensures count { result ≡ length (keys_in K.view K.reading (length into.old) bytes.now) }
    ensures after { into.new ≡ keys_in K.view K.reading (length into.old) bytes.now ++ drop result into.old }
    ensures back { (keys : List K) (rest : List ℕ) → AllByRecursion (λ k. (K.view k).lawful ≡ true) keys → length keys ≡ length into.old → bytes.now ≡ flat_map (λ k. (K.view k).form) keys ++ rest → into.new ≡ keys }
{
    let mut left = bytes;
    for (count, slot) in into.iter_mut().enumerate() {
        let Ok(key) = K::read(left) else {
            return count;
        };
        *slot = key;
        left = K::rest(left);
    }
    into.len()
}
