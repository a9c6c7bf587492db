// Keys that are names.
ghost use Rattle.std.specs.Prelude.{◌≡◌, true, length, take};
ghost use Rattle.keys.specs.Texts.{lawful_text, padded_text};

pub mod calls;
pub mod prints;

// The first `len` bytes are the text; the others are 0, so that equal texts are equal names. What the ghost fields say is known of every
// name, also behind a reference; under a model only what it shows is.
// No `ArrayString`: it leaves the bytes past the text open, and then equal texts would not be one name.
#[derive(Clone, Copy, PartialEq, Eq)]
pub struct Name {
    bytes: [u8; 8],
    len: u8,
    ghost counted: { len ≡ length (take len bytes) },
    ghost padded: { bytes ≡ padded_text (take len bytes) },
    ghost lawful: { lawful_text (take len bytes) ≡ true },
}
