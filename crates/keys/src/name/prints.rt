// A name prints as its text.
ghost use Rattle.std.specs.Prelude.{◌≡◌, Some};
ghost use Rattle.keys.specs.Names.{name_text, name_printed};
ghost use Rattle.std.proofs.Common.{rules};

use super::Name;
use crate::bytes::put;
use crate::printed::Printed;
use std::fmt;
use std::str::from_utf8;

impl Name {
    #[tactic(auto, using(crate::specs::NamesLemmas::text_utf8))]
    pub fn as_str(&self) -> &str
        ensures { result.now ≡ name_text self.now }
    {
        // every byte of a name is ASCII
        from_utf8(self.text()).unwrap()
    }
}

impl Printed for Name {
    ghost printed = { name_printed };

    ghost agrees = { Prim.search rules };

    ghost brief = { Prim.search rules };

    fn print(&self, page: &mut [u8], at: usize) -> Option<usize> {
        put(page, at, self.text())
    }
}

impl fmt::Display for Name {
    ghost output = { λ n. Some (name_printed n) };

    fn fmt<W: fmt::Write>(&self, f: &mut fmt::Formatter<W>) -> fmt::Result {
        f.pad(self.as_str())
    }
}
