// Why a draw, a seed or a record is refused.
// specs/Answers.antt gives each fault its number and its words, and a refused draw its byte.
ghost use Rattle.std.specs.Prelude.{◌≡◌, Some};
ghost use Rattle.sources.specs.Answers.{source_refusal, source_fault_words, source_fault_text, seed_fault_number, seed_fault_text, write_fault_number, write_fault_text};

use std::fmt;

// A number is asked for by name, and is no conversion into a byte, which would not say what the byte is. The words are written out,
// since a derive that writes them promises nothing of them; an impl for all faults would still want one text for each.

// Why a draw is refused, with the byte at which the source stands: a tape's first byte not used, a generator's 0.
#[derive(Clone, Copy, PartialEq, Eq, Debug)]
pub enum SourceFault {
    // the radix called for is not 1 to 1,024
    Radix(usize),
    // the tape has no byte left
    NoneLeft(usize),
    // the next record is not whole, not marked DR, or its radix or draw is out of range
    BadRecord(usize),
    // the next record has another radix than the one called for
    OtherRadix(usize),
}

// Why a seed does not pass before an opening.
#[derive(Clone, Copy, Debug)]
pub enum SeedFault {
    Zero,
}

// Why a record is not written.
#[derive(Clone, Copy, Debug)]
pub enum WriteFault {
    // fewer than six bytes are free at the offset
    NoRoom,
}

impl SourceFault {
    pub fn number(self) -> u8
        ensures { result ≡ (source_refusal self).number }
    {
        match self {
            SourceFault::Radix(_) => 16,
            SourceFault::NoneLeft(_) => 17,
            SourceFault::BadRecord(_) => 18,
            SourceFault::OtherRadix(_) => 19,
        }
    }

    pub fn byte(self) -> usize
        ensures { result ≡ (source_refusal self).byte }
    {
        match self {
            SourceFault::Radix(byte)
            | SourceFault::NoneLeft(byte)
            | SourceFault::BadRecord(byte)
            | SourceFault::OtherRadix(byte) => byte,
        }
    }

    fn text(self) -> &'static str
        ensures { result.now ≡ source_fault_words self }
    {
        match self {
            SourceFault::Radix(_) => "16: the radix is not 1 to 1024",
            SourceFault::NoneLeft(_) => "17: the tape has no byte left",
            SourceFault::BadRecord(_) => "18: the next record of the tape is not a lawful one",
            SourceFault::OtherRadix(_) => "19: the next record of the tape has another radix",
        }
    }
}

impl SeedFault {
    pub fn number(self) -> u8
        ensures { result ≡ seed_fault_number self }
    {
        match self {
            SeedFault::Zero => 5,
        }
    }

    fn text(self) -> &'static str
        ensures { result.now ≡ seed_fault_text self }
    {
        match self {
            SeedFault::Zero => "5: the seed is 0",
        }
    }
}

impl WriteFault {
    pub fn number(self) -> u8
        ensures { result ≡ write_fault_number self }
    {
        match self {
            WriteFault::NoRoom => 20,
        }
    }

    fn text(self) -> &'static str
        ensures { result.now ≡ write_fault_text self }
    {
        match self {
            WriteFault::NoRoom => "20: no six bytes are free for a record",
        }
    }
}

impl fmt::Display for SourceFault {
    ghost output = { λ e. Some (source_fault_text e) };

    fn fmt<W: fmt::Write>(&self, f: &mut fmt::Formatter<W>) -> fmt::Result {
        let text = self.text();
        let byte = self.byte();
        write!(f, "{text} (byte {byte})")
    }
}

impl fmt::Display for SeedFault {
    ghost output = { λ e. Some (seed_fault_text e) };

    ghost styled_output = { λ e _. Some (seed_fault_text e) };

    fn fmt<W: fmt::Write>(&self, f: &mut fmt::Formatter<W>) -> fmt::Result {
        f.write_str(self.text())
    }
}

impl fmt::Display for WriteFault {
    ghost output = { λ e. Some (write_fault_text e) };

    ghost styled_output = { λ e _. Some (write_fault_text e) };

    fn fmt<W: fmt::Write>(&self, f: &mut fmt::Formatter<W>) -> fmt::Result {
        f.write_str(self.text())
    }
}
