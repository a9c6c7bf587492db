// The layer that counts fewer classes.
ghost use Rattle.std.specs.Prelude.{◌≡◌};
ghost use Rattle.layers.specs.Layers.{filtered, in_set};
ghost use Rattle.pile.specs.Meaning.{New};
ghost use Rattle.std.proofs.Common.{rules};

use pile::{EntryReceipt, LeaveReceipt, Pile, PileFault, PlaceState, Tag};

// Counts a class exactly if its own set and the pile below both count it.
#[derive(Drop)]
pub struct ClassFilter<P> {
    // bit c stands for class c: the byte that a host has, and each byte has its answer
    classes: u8,
    below: P,
}

impl<P: Pile> ClassFilter<P> {
    // A filter over the pile; an empty set counts no class.
    pub fn new(classes: u8, below: P) -> ClassFilter<P>
        ensures meaning { filtered result.classes (P.meaning result.below) ≡ filtered classes (P.meaning below) }
        ensures new { New (P.meaning below) → New (filtered result.classes (P.meaning result.below)) }
    {
        ClassFilter { classes, below }
    }

    fn in_set(&self, class: u8) -> bool
        ensures { result ≡ in_set self.now.classes class }
    {
        class < 8 && (self.classes >> class) % 2 == 1
    }
}

impl<P: Pile> Pile for ClassFilter<P> {
    ghost meaning = { λ f. filtered f.classes (P.Pile.meaning f.below) };

    ghost sound = { Prim.search rules };

    fn bound(&self) -> u8 {
        self.below.bound()
    }

    fn counts_class(&self, class: u8) -> bool {
        self.in_set(class) && self.below.counts_class(class)
    }

    fn takes_leaves(&self) -> bool {
        self.below.takes_leaves()
    }

    fn counts(&self) -> (u16, u16, u8) {
        self.below.counts()
    }

    fn place(&self, i: u8) -> PlaceState<Tag> {
        self.below.place(i)
    }

    fn radix(&self, class: u8) -> Result<u16, PileFault> {
        if !self.in_set(class) {
            return Ok(1);
        }
        self.below.radix(class)
    }

    fn entry(&mut self, tag: Tag, class: u8, draw: u16) -> Result<EntryReceipt, PileFault> {
        if self.in_set(class) {
            return self.below.entry(tag, class, draw);
        }
        if draw >= 1 {
            return Err(PileFault::DrawTooLarge);
        }
        Ok(EntryReceipt {
            radix: 1,
            draw,
            place: None,
        })
    }

    fn leave(&mut self, tag: Tag, class: u8) -> Result<LeaveReceipt, PileFault> {
        if self.in_set(class) {
            return self.below.leave(tag, class);
        }
        Ok(LeaveReceipt { place: None })
    }
}
