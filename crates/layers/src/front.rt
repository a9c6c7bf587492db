// The layer that shows the first places only.
ghost use Rattle.std.specs.Prelude.{◌≡◌, ◌≤◌, take};
ghost use Rattle.layers.specs.Layers.{fronted, shown_place};
ghost use Rattle.pile.specs.Meaning.{New, standing};
ghost use Rattle.pile.specs.Opening.{taken_size};
ghost use Rattle.layers.specs.Fronts.{fronted_sound};

use pile::{EntryReceipt, LeaveReceipt, Pile, PileFault, PlaceState, Tag, size_or_one};

// Shows the first `size` places of the pile below; a place past them is none.
#[derive(Drop)]
pub struct Front<P> {
    size: u8,
    below: P,
    ghost some_place: { 1 ≤ size },
    ghost few_places: { size ≤ 64 },
}

impl<P: Pile> Front<P> {
    // A front over the pile; a size that is not 1 to 64 counts as 1.
    pub fn new(size: u8, below: P) -> Front<P>
        ensures meaning { fronted result.size (P.meaning result.below) ≡ fronted (taken_size size) (P.meaning below) }
        ensures new { New (P.meaning below) → New (fronted result.size (P.meaning result.below)) }
    {
        Front {
            size: size_or_one(size),
            below,
        }
    }

    // The place in a receipt from below, as the front shows it.
    fn shown(&self, place: Option<u8>) -> Option<u8>
        ensures { result ≡ shown_place self.now.size place }
    {
        place.filter(|i| *i < self.size)
    }

    // How many of the first places hold a tag.
    fn standing(&self) -> u8
        ensures { result ≡ standing (take self.now.size (P.meaning self.now.below).places) }
    {
        // a fold, since `filter` and `count` take more than twice the time
        (0..self.size).fold(0usize, |count, i| match self.below.place(i) {
            PlaceState::Held(_) => count.wrapping_add(1),
            _ => count,
        }) as u8
    }
}

impl<P: Pile> Pile for Front<P> {
    ghost meaning = { λ f. fronted f.size (P.Pile.meaning f.below) };

    ghost sound = { λ p. fronted_sound p.size (P.Pile.meaning p.below) p.some_place p.few_places (P.Pile.sound p.below) };

    fn bound(&self) -> u8 {
        self.size.min(self.below.bound())
    }

    fn counts_class(&self, class: u8) -> bool {
        self.below.counts_class(class)
    }

    fn takes_leaves(&self) -> bool {
        self.below.takes_leaves()
    }

    fn counts(&self) -> (u16, u16, u8) {
        let (live, unpaired, _) = self.below.counts();
        (live, unpaired, self.standing())
    }

    fn place(&self, i: u8) -> PlaceState<Tag> {
        if i >= self.size {
            return PlaceState::NoSuchPlace;
        }
        self.below.place(i)
    }

    fn radix(&self, class: u8) -> Result<u16, PileFault> {
        self.below.radix(class)
    }

    fn entry(&mut self, tag: Tag, class: u8, draw: u16) -> Result<EntryReceipt, PileFault> {
        let entered = self.below.entry(tag, class, draw)?;
        Ok(EntryReceipt {
            place: self.shown(entered.place),
            ..entered
        })
    }

    fn leave(&mut self, tag: Tag, class: u8) -> Result<LeaveReceipt, PileFault> {
        let left = self.below.leave(tag, class)?;
        Ok(LeaveReceipt {
            place: self.shown(left.place),
        })
    }
}
