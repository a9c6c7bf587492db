// What a page says of a refusal.
ghost use Rattle.std.specs.Prelude.{◌≡◌, ◌≤◌, length};
ghost use Rattle.replays.specs.Refusals.{layer_word};
ghost use Rattle.pages.specs.Told.{layer_told};

// Who refused.
#[derive(Clone, Copy)]
pub enum Layer {
    Opening,
    Key,
    Roster,
    Source,
    Log,
}

// The refusal's number, the byte of the log, who refused, and for a source the byte of the tape.
#[derive(Clone, Copy)]
pub struct Refusal {
    pub number: u8,
    pub byte: u16,
    pub layer: Layer,
    pub tape_byte: Option<u16>,
}

impl Layer {
    pub(crate) fn word(self) -> &'static [u8]
        ensures word { result.now ≡ layer_word (layer_told self) }
        ensures brief { length result.now ≤ 7 }
    {
        match self {
            Layer::Opening => b"opening",
            Layer::Key => b"key",
            Layer::Roster => b"roster",
            Layer::Source => b"source",
            Layer::Log => b"log",
        }
    }
}
