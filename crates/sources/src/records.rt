// Tape records: six bytes, the mark DR and then radix and draw, high byte first.
ghost use Rattle.std.specs.Prelude.{◌≡◌};
ghost use Rattle.pile.specs.Answers.{told_by};
ghost use Rattle.sources.specs.Answers.{lawful_radix, write_fault_number};
ghost use Rattle.sources.specs.Records.{record_bytes, write_rule, written};
ghost use Rattle.sources.specs.Tapes.{read_record};

use crate::faults::WriteFault;
use pile::EntryReceipt;

// What a record holds.
#[derive(Clone, Copy)]
pub struct Record {
    pub radix: u16,
    pub draw: u16,
}

// Is the radix 1 to 1,024?
pub fn is_lawful_radix(radix: u16) -> bool
    ensures { result ≡ lawful_radix radix }
{
    (1..=1024).contains(&radix)
}

impl Record {
    // The record that the bytes begin with, if they begin with a lawful one.
    pub fn read(left: &[u8]) -> Option<Record>
        ensures { result ≡ read_record left.now }
    {
        let [r0, r1, d0, d1, ..] = *left.strip_prefix(b"DR")? else {
            return None;
        };
        let radix = u16::from_be_bytes([r0, r1]);
        let draw = u16::from_be_bytes([d0, d1]);
        if !is_lawful_radix(radix) || draw >= radix {
            return None;
        }
        Some(Record { radix, draw })
    }

    fn to_bytes(self) -> [u8; 6]
        ensures { result ≡ record_bytes self.radix self.draw }
    {
        let mut bytes = [0; 6];
        bytes[0..2].copy_from_slice(b"DR");
        bytes[2..4].copy_from_slice(&self.radix.to_be_bytes());
        bytes[4..6].copy_from_slice(&self.draw.to_be_bytes());
        bytes
    }
}

impl From<EntryReceipt> for Record {
    ghost from_gives = { λ receipt r. r ≡ record { radix = receipt.radix; draw = receipt.draw } };

    fn from(receipt: EntryReceipt) -> Record {
        Record {
            radix: receipt.radix,
            draw: receipt.draw,
        }
    }
}

// Writes the receipt of an entry as it stands, and answers the offset after the record. No crate of keys is known here, so the bytes are
// put by hand.
pub fn write_record(
    receipt: EntryReceipt,
    tape: &mut [u8],
    offset: usize,
) -> Result<usize, WriteFault>
    ensures answer { told_by write_fault_number result ≡ write_rule tape.old offset }
    ensures bytes { tape.new ≡ written tape.old offset receipt }
{
    // the offset may be as large as it likes, so nothing is added to it before
    if tape.len() < 6 || offset > tape.len() - 6 {
        return Err(WriteFault::NoRoom);
    }
    let record = Record::from(receipt);
    tape[offset..offset + 6].copy_from_slice(&record.to_bytes());
    Ok(offset + 6)
}
