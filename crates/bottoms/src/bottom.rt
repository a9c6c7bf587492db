// The bottom, one type at two kinds: one takes leaves, and one takes none.
ghost use Rattle.std.specs.Prelude.{◌≡◌, ◌+◌, ◌≤◌, Bool, true, false, length, min};
ghost use Rattle.pile.specs.Meaning.{New, holes};

use crate::places::Places;
use pile::{EntryReceipt, LeaveReceipt, Pile, PileFault, PlaceState, Tag, size_or_one};
use std::marker::PhantomData;

// Whether a bottom takes leaves.
pub trait Leaves {
    const TAKEN: bool;

    ghost TAKEN: { Bool };
}

// The kind of `Paired`.
pub enum WithLeaves {}

// The kind of `EntriesOnly`.
pub enum WithoutLeaves {}

impl Leaves for WithLeaves {
    const TAKEN: bool = true;

    ghost TAKEN = { true };
}

impl Leaves for WithoutLeaves {
    const TAKEN: bool = false;

    ghost TAKEN = { false };
}

// Takes entries of all classes: by Algorithm R while no leave is unpaired, and by random pairing after one.
#[derive(Drop)]
pub struct Bottom<L: Leaves> {
    bound: u8,
    live: u16,
    unpaired: u16,
    places: Places,
    leaves: PhantomData<L>,
    ghost some_place: { 1 ≤ bound },
    ghost few_places: { bound ≤ 64 },
    ghost as_many: { length places ≡ min bound (live + unpaired) },
    ghost few_holes: { holes places ≤ unpaired },
    ghost few_keys: { live + unpaired ≤ 1024 },
    ghost none_unpaired: { L.TAKEN ≡ false → unpaired ≡ 0 },
}

// Takes entries and leaves, by random pairing.
pub type Paired = Bottom<WithLeaves>;

// Takes entries alone, by Algorithm R: without leaves no hole ever comes about.
pub type EntriesOnly = Bottom<WithoutLeaves>;

impl<L: Leaves> Bottom<L> {
    ghost use Rattle.bottoms.specs.Bottoms.{bottom_meaning, opened};

    // A new bottom; a bound that is not 1 to 64 counts as 1.
    pub fn new(bound: u8) -> Self
        ensures meaning { bottom_meaning result ≡ opened L.TAKEN bound }
        ensures new { New (bottom_meaning result) }
    {
        Bottom {
            bound: size_or_one(bound),
            live: 0,
            unpaired: 0,
            places: Places::new(),
            leaves: PhantomData,
        }
    }
}

impl<L: Leaves> Pile for Bottom<L> {
    ghost use Rattle.std.proofs.Common.{rules};
    ghost use Rattle.bottoms.specs.Bottoms.{bottom_meaning};

    ghost meaning = { bottom_meaning };

    ghost sound = { Prim.search rules };

    fn bound(&self) -> u8 {
        self.bound
    }

    fn counts_class(&self, class: u8) -> bool {
        class < 8
    }

    fn takes_leaves(&self) -> bool {
        L::TAKEN
    }

    fn counts(&self) -> (u16, u16, u8) {
        (self.live, self.unpaired, self.places.standing())
    }

    fn place(&self, i: u8) -> PlaceState<Tag> {
        self.places.state(i)
    }

    fn radix(&self, class: u8) -> Result<u16, PileFault> {
        if class >= 8 {
            return Ok(1);
        }
        if self.unpaired > 0 {
            return Ok(self.unpaired);
        }
        if self.live >= 1024 {
            return Err(PileFault::Full);
        }
        Ok(self.live + 1)
    }

    fn entry(&mut self, tag: Tag, class: u8, draw: u16) -> Result<EntryReceipt, PileFault> {
        let radix = self.radix(class)?;
        if draw >= radix {
            return Err(PileFault::DrawTooLarge);
        }
        if class >= 8 {
            return Ok(EntryReceipt {
                radix,
                draw,
                place: None,
            });
        }
        if self.unpaired == 0 {
            let place = self.places.take_drawn(self.bound, self.live, tag, draw);
            self.live += 1;
            return Ok(EntryReceipt { radix, draw, place });
        }
        let place = self.places.fill(tag, draw);
        self.live += 1;
        self.unpaired -= 1;
        Ok(EntryReceipt { radix, draw, place })
    }

    fn leave(&mut self, tag: Tag, class: u8) -> Result<LeaveReceipt, PileFault> {
        if class >= 8 {
            return Ok(LeaveReceipt { place: None });
        }
        if !L::TAKEN {
            return Err(PileFault::TakesNoLeaves);
        }
        if self.live == 0 {
            return Err(PileFault::NoneLive);
        }
        let place = self.places.vacate(tag);
        self.live -= 1;
        self.unpaired += 1;
        Ok(LeaveReceipt { place })
    }
}
