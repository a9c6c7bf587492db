// Why a key is not read. specs/Answers.antt gives each fault its number.
ghost use Rattle.std.specs.Prelude.{◌≡◌, Some};
ghost use Rattle.keys.specs.Answers.{key_fault_number, key_fault_text};

use std::fmt;

// The number is asked for by name, and is no conversion into a byte, which would not say what the byte is. The words are written out,
// since a derive that writes them promises nothing of them; an impl for all faults would still want one text for each.

#[derive(Clone, Copy, PartialEq, Eq, Debug)]
pub enum KeyFault {
    // the bytes there are no key of the kind
    Unlawful,
    // the bytes end before the key does
    Short,
}

impl KeyFault {
    // The number of the refusal; bytes that end too soon have none of their own.
    pub fn number(self) -> Option<u8>
        ensures { result ≡ key_fault_number self }
    {
        match self {
            KeyFault::Unlawful => Some(6),
            KeyFault::Short => None,
        }
    }

    fn text(self) -> &'static str
        ensures { result.now ≡ key_fault_text self }
    {
        match self {
            KeyFault::Unlawful => "6: the key is not lawful",
            KeyFault::Short => "the bytes end before the key does",
        }
    }
}

impl fmt::Display for KeyFault {
    ghost output = { λ e. Some (key_fault_text e) };

    fn fmt<W: fmt::Write>(&self, f: &mut fmt::Formatter<W>) -> fmt::Result {
        f.pad(self.text())
    }
}
