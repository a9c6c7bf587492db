// What the calls of a pile answer.

// What marks a key on the places.
pub type Tag = u16;

// An accepted entry: the radix called for, the draw, and the place that the tag took, if any.
#[derive(Clone, Copy, PartialEq, Eq, Debug)]
pub struct EntryReceipt {
    pub radix: u16,
    pub draw: u16,
    pub place: Option<u8>,
}

// An accepted leave: the place that became a hole, if any.
#[derive(Clone, Copy, PartialEq, Eq, Debug)]
pub struct LeaveReceipt {
    pub place: Option<u8>,
}

// What a place tells: what it holds (a tag, or the key that the tag marks), that it is a hole, or that there is no such place.
// No option of an option: there a hole would be `Some(None)`.
#[derive(Clone, Copy, PartialEq, Eq, Debug)]
pub enum PlaceState<T = Tag> {
    Held(T),
    Hole,
    NoSuchPlace,
}
