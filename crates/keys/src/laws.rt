// What follows from the laws of `Key` for every kind. Each function says one such fact by its contract.
ghost use Rattle.std.specs.Prelude.{◌≡◌, ℕ, ◌+◌, true, List, length, drop, Decides};
ghost use Rattle.std.specs.Str.{bytes_eq};
ghost use Rattle.keys.specs.Answers.{read, left_after};
ghost use Rattle.keys.specs.Bytes.{fits, put_from};

use crate::key::Key;

// Comparing byte forms, as `==` does, decides whether two lawful keys are equal.
pub fn same_decides<K: Key>()
    ensures { (a b : K) → (K.view a).lawful ≡ true → (K.view b).lawful ≡ true → Decides (bytes_eq (K.view a).form (K.view b).form) (a ≡ b) }
{}

// A written key reads back, and the rest is what stood after it.
pub fn written_key_reads_back<K: Key>()
    ensures key { (k : K) (buffer : List ℕ) (at : ℕ) → (K.view k).lawful ≡ true → fits (K.view k).form buffer at ≡ true → K.reading (put_from (K.view k).form buffer at) ≡ read k }
    ensures rest { (k : K) (buffer : List ℕ) (at : ℕ) → (K.view k).lawful ≡ true → fits (K.view k).form buffer at ≡ true → left_after K.view (K.reading (put_from (K.view k).form buffer at)) (put_from (K.view k).form buffer at) ≡ drop (at + length (K.view k).form) buffer }
{}
