// What a number does as a key.
ghost use Rattle.std.specs.Prelude.{◌≡◌};
ghost use Rattle.std.proofs.Common.{rules};
ghost use Rattle.keys.specs.Numbers.{number_view, number_reading};

use super::Number;
use crate::bytes::put;
use crate::faults::KeyFault;
use crate::index::mix_all;
use crate::key::Key;

impl Number {
    // The number; 0 is not a lawful one. A `From` beside it would promise the same, as a second way to one thing.
    pub fn new(value: u16) -> Number
        ensures { result ≡ value }
    {
        Number { value }
    }
}

impl Key for Number {
    ghost view = { number_view };

    ghost reading = { number_reading };

    ghost same = { Prim.search rules };

    ghost equal = { Prim.search rules };

    ghost alike = { Prim.search rules };

    ghost classes = { Prim.search rules };

    ghost sizes = { Prim.search rules };

    ghost bytes = { Prim.search rules };

    ghost apart = { Prim.search rules };

    ghost back = { Prim.search rules };

    ghost found = { Prim.search rules };

    ghost begins = { Prim.search rules };

    fn is_lawful(&self) -> bool {
        self.value >= 1
    }

    fn class(&self) -> u8 {
        match self.value {
            0..=127 => 0,
            128..=10239 => 1,
            _ => 2,
        }
    }

    fn index(&self) -> u16 {
        mix_all(0, &self.value.to_be_bytes())
    }

    fn size(&self) -> usize {
        2
    }

    fn read(bytes: &[u8]) -> Result<Number, KeyFault> {
        let &[high, low, ..] = bytes else {
            return Err(KeyFault::Short);
        };
        let number = Number::new(u16::from_be_bytes([high, low]));
        if !number.is_lawful() {
            return Err(KeyFault::Unlawful);
        }
        Ok(number)
    }

    fn write(&self, into: &mut [u8], at: usize) -> Option<usize> {
        put(into, at, &self.value.to_be_bytes())
    }
}
