// The draws of a tape.
ghost use Rattle.sources.specs.Tapes.{tape_course};

use super::Tape;
use crate::faults::SourceFault;
use crate::records::{Record, is_lawful_radix};
use crate::source::Source;

impl<'a> Source for Tape<'a> {
    ghost course = { λ t. tape_course t.bytes.now t.draws };

    fn draw(&mut self, radix: u16) -> Result<u16, SourceFault> {
        let byte = self.first_unused();
        if !is_lawful_radix(radix) {
            return Err(SourceFault::Radix(byte));
        }
        if byte == self.bytes.len() {
            return Err(SourceFault::NoneLeft(byte));
        }
        let Some(record) = Record::read(&self.bytes[byte..]) else {
            return Err(SourceFault::BadRecord(byte));
        };
        if record.radix != radix {
            return Err(SourceFault::OtherRadix(byte));
        }
        self.draws += 1;
        Ok(record.draw)
    }
}
