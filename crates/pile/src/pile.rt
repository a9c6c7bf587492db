// The one interface of bottoms and layers.
ghost use Rattle.std.specs.Prelude.{◌≡◌};
ghost use Rattle.pile.specs.Answers.{told_by, pile_fault_number, place_told};
ghost use Rattle.pile.specs.Meaning.{Meaning, Sound};
ghost use Rattle.pile.specs.Rules.{radix_rule, entry_rule, leave_rule, place_rule, counts_rule};

use crate::faults::PileFault;
use crate::receipts::{EntryReceipt, LeaveReceipt, PlaceState, Tag};

// A class is a plain number, since one above 7 has its answer too: nobody counts it.
pub trait Pile {
    // what the pile means
    ghost meaning: { Self → Meaning };

    // M: how many places there can be.
    fn bound(&self) -> u8
        ensures { result ≡ (meaning self.now).bound };

    fn counts_class(&self, class: u8) -> bool
        ensures { result ≡ (meaning self.now).counted class };

    fn takes_leaves(&self) -> bool
        ensures { result ≡ (meaning self.now).leaves };

    // N, d and the number of keys standing.
    fn counts(&self) -> (u16, u16, u8)
        ensures { result ≡ counts_rule (meaning self.now) };

    fn place(&self, i: u8) -> PlaceState<Tag>
        ensures { place_told result ≡ place_rule (meaning self.now) i };

    fn radix(&self, class: u8) -> Result<u16, PileFault>
        ensures { told_by pile_fault_number result ≡ radix_rule (meaning self.now) class };

    fn entry(&mut self, tag: Tag, class: u8, draw: u16) -> Result<EntryReceipt, PileFault>
        ensures answer { told_by pile_fault_number result ≡ (entry_rule (meaning self.old) tag class draw).answer }
        ensures after { meaning self.new ≡ (entry_rule (meaning self.old) tag class draw).after };

    fn leave(&mut self, tag: Tag, class: u8) -> Result<LeaveReceipt, PileFault>
        ensures answer { told_by pile_fault_number result ≡ (leave_rule (meaning self.old) tag class).answer }
        ensures after { meaning self.new ≡ (leave_rule (meaning self.old) tag class).after };

    ghost sound: { (p : Self) → Sound (meaning p) };
}
