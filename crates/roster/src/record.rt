// What a host lends a roster, and what it is told of keys.

// A slot of the roster. A tag is the number of its slot.
#[derive(Clone, Copy)]
pub enum Record<K> {
    Free,
    // the key of the open entry
    Waiting(K),
    // a live key
    Live(K),
}

// An open entry: its key, which waits in a record, and the numbers of its slip, each by its own name for hosts.
#[derive(Clone, Copy)]
pub struct Pending<K> {
    pub key: K,
    pub tag: u16,
    pub radix: u16,
}
