// A number prints in decimal.
ghost use Rattle.std.specs.Prelude.{Some};
ghost use Rattle.keys.specs.Numbers.{number_printed};
ghost use Rattle.std.proofs.Common.{rules};
ghost use Rattle.std.proofs.lemmas.Fmt.{decimal_nonempty, length-decimal-le};

use super::Number;
use crate::bytes::put;
use crate::printed::Printed;
use itoa::Buffer;
use std::fmt;

impl Printed for Number {
    ghost printed = { number_printed };

    ghost agrees = { Prim.search rules };

    ghost brief = { Prim.search (rules, decimal_nonempty, length-decimal-le 5) };

    fn print(&self, page: &mut [u8], at: usize) -> Option<usize> {
        let mut buffer = Buffer::new();
        put(page, at, buffer.format(self.value).as_bytes())
    }
}

impl fmt::Display for Number {
    ghost output = { λ n. Some (number_printed n) };

    fn fmt<W: fmt::Write>(&self, f: &mut fmt::Formatter<W>) -> fmt::Result {
        write!(f, "{}", self.value)
    }
}
