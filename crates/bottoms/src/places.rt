// The numbered places of a bottom, in memory of their own.
ghost use Rattle.std.specs.Prelude.{◌≡◌, ◌≤◌, min, [], length, IfSome, Some, None, nat_lt, ◌<◌};
ghost use Rattle.std.specs.List.{slice_get};
ghost use Rattle.pile.specs.Answers.{place_told};
ghost use Rattle.pile.specs.Meaning.{standing};
ghost use Rattle.pile.specs.Rules.{hole_place, tag_place, drawn_place, drawn_places, put};

use arrayvec::ArrayVec;
use pile::{PlaceState, Tag};
use std::marker::Model;
use std::mem;

// An empty slot is a hole. A contract sees the list of places.
#[derive(Drop)]
pub(crate) struct Places {
    slots: ArrayVec<Option<Tag>, 64>,
}

impl Model for Places {
    ghost use Rattle.std.specs.Prelude.{List};
    ghost use Rattle.pile.specs.Answers.{Place};

    ghost Value = { List Place };

    ghost view = { λ p. p.slots.items };
}

impl Places {
    pub(crate) fn new() -> Self
        ensures { result ≡ [] }
    {
        Places {
            slots: ArrayVec::new(),
        }
    }

    pub(crate) fn state(&self, i: u8) -> PlaceState<Tag>
        ensures { place_told result ≡ slice_get self.now i }
    {
        match self.slots.get(usize::from(i)) {
            Some(Some(tag)) => PlaceState::Held(*tag),
            Some(None) => PlaceState::Hole,
            None => PlaceState::NoSuchPlace,
        }
    }

    // How many places hold a tag.
    pub(crate) fn standing(&self) -> u8
        ensures { result ≡ standing self.now }
    {
        // a fold, since `filter` and `count` take more than twice the time
        self.slots.iter().fold(0usize, |count, place| {
            if place.is_some() {
                count.wrapping_add(1)
            } else {
                count
            }
        }) as u8
    }

    // The place of hole `draw`, the holes being counted from 0 in order of place.
    fn hole_place(&self, draw: u16) -> Option<u8>
        ensures { result ≡ hole_place self.now draw }
    {
        self.slots
            .iter()
            .enumerate()
            .filter(|(_, place)| place.is_none())
            .nth(usize::from(draw))
            .map(|(i, _)| i as u8)
    }

    // The lowest place that holds the tag.
    fn tag_place(&self, tag: Tag) -> Option<u8>
        ensures { result ≡ tag_place self.now tag }
    {
        self.slots
            .iter()
            .position(|place| *place == Some(tag))
            .map(|i| i as u8)
    }

    // Puts `x` on the place, if there is one.
    fn put(&mut self, place: Option<u8>, x: Option<Tag>)
        requires { IfSome place (λ i. i < length self.old) }
        ensures { self.new ≡ put self.old place x }
    {
        if let Some(i) = place {
            self.slots[usize::from(i)] = x;
        }
    }

    // The tag takes hole `draw`, if there are that many.
    pub(crate) fn fill(&mut self, tag: Tag, draw: u16) -> Option<u8>
        ensures place { result ≡ hole_place self.old draw }
        ensures after { self.new ≡ put self.old (hole_place self.old draw) (Some tag) }
    {
        let place = self.hole_place(draw);
        self.put(place, Some(tag));
        place
    }

    // The lowest place that holds the tag becomes a hole, if there is one.
    pub(crate) fn vacate(&mut self, tag: Tag) -> Option<u8>
        ensures place { result ≡ tag_place self.old tag }
        ensures after { self.new ≡ put self.old (tag_place self.old tag) None }
    {
        let place = self.tag_place(tag);
        self.put(place, None);
        place
    }

    // The tag takes the place of its draw, below the bound. What stood there moves to the end while there is room. The rule tells
    // this by bound and N, so both are handed in.
    pub(crate) fn take_drawn(&mut self, bound: u8, live: u16, tag: Tag, draw: u16) -> Option<u8>
        requires few { bound ≤ 64 }
        requires full { length self.old ≡ min bound live }
        requires drawn { draw ≤ live }
        ensures place { result ≡ drawn_place (nat_lt draw bound) draw }
        ensures after { self.new ≡ drawn_places (nat_lt draw bound) (nat_lt draw live) (nat_lt live bound) self.old tag draw }
    {
        if draw >= u16::from(bound) {
            return None;
        }
        if draw >= live {
            self.slots.push(Some(tag));
            return Some(draw as u8);
        }
        let out = mem::replace(&mut self.slots[usize::from(draw)], Some(tag));
        if live < u16::from(bound) {
            self.slots.push(out);
        }
        Some(draw as u8)
    }
}
