// Questions, which alter nothing.
ghost use Rattle.std.specs.Prelude.{◌≡◌, is_some, Some, None, slice_index_or};
ghost use Rattle.pile.specs.Rules.{place_rule};
ghost use Rattle.calls.specs.Book.{tag_of};
ghost use Rattle.calls.specs.Steps.{key_on_place};
ghost use Rattle.roster.specs.Rosters.{book_of, key_told};

use super::Roster;
use keys::Key;
use pile::{Pile, PlaceState};

impl<'a, K: Key> Roster<'a, K> {
    pub fn is_live(&self, key: &K) -> bool
        ensures { result ≡ is_some (tag_of (book_of K.view self.now).slots (K.view key.now)) }
    {
        self.find(key).is_some()
    }

    // The live key under a tag, if there is one.
    pub fn key_of(&self, tag: u16) -> PlaceState<K>
        ensures { key_told K.view result ≡ Some (slice_index_or (book_of K.view self.now).slots tag None) }
    {
        let record = self.slots().get(usize::from(tag));
        match record.and_then(|record| record.live_key()) {
            Some(key) => PlaceState::Held(key),
            None => PlaceState::Hole,
        }
    }

    // The key on a place of the pile.
    pub fn key_at<P: Pile>(&self, pile: &P, i: u8) -> PlaceState<K>
        ensures { key_told K.view result ≡ key_on_place (book_of K.view self.now).slots (place_rule (P.meaning pile.now) i) }
    {
        match pile.place(i) {
            PlaceState::Held(tag) => self.key_of(tag),
            PlaceState::Hole => PlaceState::Hole,
            PlaceState::NoSuchPlace => PlaceState::NoSuchPlace,
        }
    }
}
