// What a name does as a key.
ghost use Rattle.std.specs.Prelude.{◌≡◌, ◌≤◌, true, ◌∷◌, length};
ghost use Rattle.keys.specs.Answers.{read_told};
ghost use Rattle.keys.specs.Names.{name_text, name_view, class_by, named, name_reading};
ghost use Rattle.keys.specs.Texts.{lawful_length, lawful_byte, lawful_bytes, lawful_text, padded_text};
ghost use Rattle.keys.specs.NamesLemmas.{name_bytes, name_back, name_equal, text_from_padded};
ghost use Rattle.std.proofs.Common.{rules};
ghost use Rattle.std.proofs.lemmas.Grind.{common_steps};

use super::Name;
use crate::bytes::put;
use crate::faults::KeyFault;
use crate::index::{mix, mix_all};
use crate::key::Key;

fn is_lawful_length(len: usize) -> bool
    ensures { result ≡ lawful_length len }
{
    (1..=8).contains(&len)
}

fn is_lawful_byte(byte: u8) -> bool
    ensures { result ≡ lawful_byte byte }
{
    matches!(byte, 0x21..=0x7E)
}

fn are_lawful(bytes: &[u8]) -> bool
    ensures { result ≡ lawful_bytes bytes.now }
{
    bytes.iter().all(|byte| is_lawful_byte(*byte))
}

fn is_lawful_text(text: &[u8]) -> bool
    ensures { result ≡ lawful_text text.now }
{
    is_lawful_length(text.len()) && are_lawful(text)
}

// The text and then zeros.
fn pad(text: &[u8]) -> [u8; 8]
    requires { length text.now ≤ 8 }
    ensures { result ≡ padded_text text.now }
{
    let mut bytes = [0; 8];
    bytes[..text.len()].copy_from_slice(text);
    bytes
}

// The class by the first byte.
fn class_by(first: u8) -> u8
    ensures { result ≡ class_by first }
{
    match first {
        b'A'..=b'Z' => 3,
        b'a'..=b'z' => 4,
        b'0'..=b'9' => 5,
        _ => 6,
    }
}

impl Name {
    // The name of the text, if that is lawful. A `TryFrom` beside it would promise the same, as a second way to one thing.
    pub fn new(text: &[u8]) -> Result<Name, KeyFault>
        ensures { read_told result ≡ named text.now }
    {
        if !is_lawful_text(text) {
            return Err(KeyFault::Unlawful);
        }
        Ok(Name {
            bytes: pad(text),
            len: text.len() as u8,
        })
    }

    // The bytes of the name.
    pub fn text(&self) -> &[u8]
        ensures text { result.now ≡ name_text self.now }
        ensures lawful { lawful_text (name_text self.now) ≡ true }
    {
        &self.bytes[..usize::from(self.len)]
    }

    // The byte form, and zeros after it; the library has no name for it.
    fn to_bytes(&self) -> [u8; 9]
        ensures { result ≡ self.now.len ∷ self.now.bytes }
    {
        let mut form = [0; 9];
        form[0] = self.len;
        form[1..].copy_from_slice(&self.bytes);
        form
    }
}

impl Key for Name {
    ghost view = { name_view };

    ghost reading = { name_reading };

    ghost same = { Prim.search (rules, common_steps, text_from_padded) };

    ghost equal = { λ a b la lb e. name_equal a b e };

    ghost alike = { Prim.search rules };

    ghost classes = { Prim.search rules };

    ghost sizes = { Prim.search rules };

    ghost bytes = { λ n l. name_bytes n };

    ghost apart = { Prim.search (rules, common_steps) };

    ghost back = { name_back };

    ghost found = { Prim.search rules };

    ghost begins = { Prim.search (rules, common_steps) };

    // Only lawful names can be made, as the type says.
    fn is_lawful(&self) -> bool
        ensures value { result ≡ lawful_text (name_text self.now) }
        ensures always { result ≡ true }
    {
        true
    }

    fn class(&self) -> u8 {
        class_by(self.bytes[0])
    }

    fn index(&self) -> u16 {
        mix_all(mix(0, self.len), self.text())
    }

    fn size(&self) -> usize {
        1 + usize::from(self.len)
    }

    fn read(bytes: &[u8]) -> Result<Name, KeyFault> {
        let [len, rest @ ..] = bytes else {
            return Err(KeyFault::Short);
        };
        let len = usize::from(*len);
        if !is_lawful_length(len) {
            return Err(KeyFault::Unlawful);
        }
        if rest.len() < len {
            return Err(KeyFault::Short);
        }
        Name::new(&rest[..len])
    }

    fn write(&self, into: &mut [u8], at: usize) -> Option<usize> {
        let form = self.to_bytes();
        put(into, at, &form[..self.size()])
    }
}
