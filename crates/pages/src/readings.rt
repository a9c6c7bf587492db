// A reading: N, d and the key on each place.
ghost use Rattle.std.specs.Prelude.{◌≡◌, ℕ, ◌+◌, ◌<◌, ◌≤◌, true, length, Some, None, decimal, slice_index_or};
ghost use Rattle.calls.specs.Book.{Book};
ghost use Rattle.pile.specs.Answers.{place_told};
ghost use Rattle.pile.specs.Meaning.{Meaning};
ghost use Rattle.pile.specs.Rules.{place_rule};
ghost use Rattle.roster.specs.Rosters.{book_of};
ghost use Rattle.replays.specs.Kinds.{kind_by};
ghost use Rattle.replays.specs.Lines.{read_line, place_line, reading_lines};
ghost use Rattle.replays.specs.Replays.{reading};
ghost use Rattle.pages.specs.Readings.{legible, form_told, legible_reading, told_line, told_lines, LiveLawful};
ghost use Rattle.pages.specs.Writing.{next_after, page_with, Wrote};

use crate::lines::{has_room, put_byte, put_number, put_printed, put_text};
use keys::Printed;
use pile::{Pile, PlaceState, Tag};
use roster::Roster;

// What each place tells. A pile has at most 64.
fn places_of<P: Pile>(pile: &P) -> [PlaceState<Tag>; 64]
    ensures size { length result ≡ 64 }
    ensures places { (k : ℕ) → k < 64 → place_told (slice_index_or result k PlaceState.NoSuchPlace) ≡ place_rule (P.meaning pile.now) k }
{
    let mut places = [PlaceState::NoSuchPlace; 64];
    for (i, place) in places.iter_mut().enumerate() {
        *place = pile.place(i as u8);
    }
    places
}

// The key under a tag, if it is live and lawful.
fn legible_key<'a, K: Printed>(roster: &Roster<'a, K>, tag: u16) -> Option<K>
    ensures form { form_told K.Key.view result ≡ legible (slice_index_or (book_of K.Key.view roster.now).slots tag None) }
    ensures lawful { (key : K) → result ≡ Some key → (K.Key.view key).lawful ≡ true }
{
    let PlaceState::Held(key) = roster.key_of(tag) else {
        return None;
    };
    if key.is_lawful() { Some(key) } else { None }
}

// A place that holds a key: its number, and the key as it prints, in at most eight bytes.
fn put_key<K: Printed>(i: u8, key: &K, page: &mut [u8], at: usize) -> usize
    requires lawful { (K.Key.view key.now).lawful ≡ true }
    requires room { at + (length (decimal i) + 10) ≤ length page.old }
    ensures wrote { Wrote (place_line (kind_by K.Key.view K.Key.reading K.Printed.printed) i (Some (K.Key.view key.now).form)) page.old at page.new result }
    ensures brief { result ≤ at + (length (decimal i) + 10) }
{
    let key_at = put_byte(i, b' ', page, at);
    let end_at = put_printed(key, page, key_at);
    put_text(b"\n", page, end_at)
}

// A place by what the pile told of it; a hole has its number alone.
fn put_place<'a, K: Printed>(
    roster: &Roster<'a, K>,
    i: u8,
    place: PlaceState<Tag>,
    page: &mut [u8],
    at: usize,
) -> usize
    requires { at + (length (decimal i) + 10) ≤ length page.old }
    ensures wrote { Wrote (told_line (kind_by K.Key.view K.Key.reading K.Printed.printed) (book_of K.Key.view roster.now).slots i place) page.old at page.new result }
    ensures brief { result ≤ at + (length (decimal i) + 10) }
{
    match place {
        PlaceState::Held(tag) => match legible_key(roster, tag) {
            Some(key) => put_key(i, &key, page, at),
            None => put_byte(i, b'\n', page, at),
        },
        PlaceState::Hole => put_byte(i, b'\n', page, at),
        PlaceState::NoSuchPlace => at,
    }
}

// All places in order. The lines of ten have at most 11 bytes each, and those of the others 12.
fn put_places<'a, K: Printed>(
    roster: &Roster<'a, K>,
    places: &[PlaceState<Tag>],
    page: &mut [u8],
    at: usize,
) -> usize
    requires few { length places.now ≤ 64 }
    requires room { at + 758 ≤ length page.old }
    ensures { Wrote (told_lines (kind_by K.Key.view K.Key.reading K.Printed.printed) (book_of K.Key.view roster.now).slots 0 places.now) page.old at page.new result }
{
    let mut next = at;
    for (i, place) in places.iter().enumerate() {
        next = put_place(roster, i as u8, *place, page, next);
    }
    next
}

// READ, N and d.
fn put_counts(live: u16, unpaired: u16, page: &mut [u8], at: usize) -> usize
    requires { at + 17 ≤ length page.old }
    ensures { Wrote (read_line live unpaired) page.old at page.new result }
{
    let live_at = put_text(b"READ ", page, at);
    let unpaired_at = put_number(live, b' ', page, live_at);
    put_number(unpaired, b'\n', page, unpaired_at)
}

// The lines of a reading, by what roster and pile mean. Where fewer than 771 bytes are free, as many as the longest one has,
// nothing is written. An unlawful key is taken for a hole.
pub fn write_reading<'a, K: Printed, P: Pile>(
    roster: &Roster<'a, K>,
    pile: &P,
    page: &mut [u8],
    at: usize,
) -> Option<usize>
    ensures next { result ≡ next_after 771 (reading_lines (kind_by K.Key.view K.Key.reading K.Printed.printed) (legible_reading (book_of K.Key.view roster.now) (P.meaning pile.now))) page.old at }
    ensures page { page.new ≡ page_with 771 (reading_lines (kind_by K.Key.view K.Key.reading K.Printed.printed) (legible_reading (book_of K.Key.view roster.now) (P.meaning pile.now))) page.old at }
{
    if !has_room(771, page, at) {
        return None;
    }
    let (live, unpaired, _) = pile.counts();
    let places = places_of(pile);
    let places_at = put_counts(live, unpaired, page, at);
    Some(put_places(roster, &places, page, places_at))
}

// Where every live key of the roster is lawful, what is written is the reading.
pub fn lawful_readings_are_whole()
    ensures { (b : Book) (m : Meaning) → LiveLawful b → legible_reading b m ≡ reading b m }
{}
