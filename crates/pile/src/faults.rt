// Why a pile, or an opening, refuses. specs/Answers.antt gives each fault its number and its words.
// A number is asked for by name, and is no conversion into a byte, which would not say what the byte is. The words are written out,
// since a derive that writes them promises nothing of them; an impl for all faults would still want one text for each.
ghost use Rattle.std.specs.Prelude.{◌≡◌, Some};
ghost use Rattle.pile.specs.Answers.{pile_fault_number, pile_fault_text, opening_fault_number, opening_fault_text};

use std::fmt;

// Why a change of a pile is refused.
#[derive(Clone, Copy, PartialEq, Eq, Debug)]
pub enum PileFault {
    // 1,024 counted keys are live and no leave is unpaired
    Full,
    // the draw is not below the radix
    DrawTooLarge,
    // the class is counted, and the pile takes no leaves
    TakesNoLeaves,
    // the class is counted, and no counted key is live
    NoneLive,
}

// Why a setting does not pass before an opening.
#[derive(Clone, Copy, PartialEq, Eq, Debug)]
pub enum OpeningFault {
    // the bound is not 1 to 64
    Bound,
    // the class set is empty
    ClassSet,
    // the front is not 1 to 64
    FrontSize,
}

impl PileFault {
    pub fn number(self) -> u8
        ensures { result ≡ pile_fault_number self }
    {
        match self {
            PileFault::Full => 10,
            PileFault::DrawTooLarge => 12,
            PileFault::TakesNoLeaves => 14,
            PileFault::NoneLive => 15,
        }
    }

    fn text(self) -> &'static str
        ensures { result.now ≡ pile_fault_text self }
    {
        match self {
            PileFault::Full => "10: 1024 counted keys are live, and no leave is unpaired",
            PileFault::DrawTooLarge => "12: the draw is not below the radix",
            PileFault::TakesNoLeaves => "14: the pile takes no leaves",
            PileFault::NoneLive => "15: no counted key is live",
        }
    }
}

impl OpeningFault {
    pub fn number(self) -> u8
        ensures { result ≡ opening_fault_number self }
    {
        match self {
            OpeningFault::Bound => 2,
            OpeningFault::ClassSet => 3,
            OpeningFault::FrontSize => 4,
        }
    }

    fn text(self) -> &'static str
        ensures { result.now ≡ opening_fault_text self }
    {
        match self {
            OpeningFault::Bound => "2: the bound is not 1 to 64",
            OpeningFault::ClassSet => "3: the class set is empty",
            OpeningFault::FrontSize => "4: the front is not 1 to 64",
        }
    }
}

impl fmt::Display for PileFault {
    ghost output = { λ fault. Some (pile_fault_text fault) };

    ghost styled_output = { λ fault _. Some (pile_fault_text fault) };

    fn fmt<W: fmt::Write>(&self, f: &mut fmt::Formatter<W>) -> fmt::Result {
        f.write_str(self.text())
    }
}

impl fmt::Display for OpeningFault {
    ghost output = { λ fault. Some (opening_fault_text fault) };

    ghost styled_output = { λ fault _. Some (opening_fault_text fault) };

    fn fmt<W: fmt::Write>(&self, f: &mut fmt::Formatter<W>) -> fmt::Result {
        f.write_str(self.text())
    }
}
