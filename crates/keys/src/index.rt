// The index number that starts a table search.
ghost use Rattle.std.specs.Prelude.{◌≡◌};
ghost use Rattle.keys.specs.Index.{mixed, mixed_all};

// Mixes one byte more into the index number.
pub fn mix(index: u16, byte: u8) -> u16
    ensures { result ≡ mixed index byte }
{
    ((u32::from(index) + u32::from(byte)) * 10761 % 65521) as u16
}

pub fn mix_all(start: u16, bytes: &[u8]) -> u16
    ensures { result ≡ mixed_all start bytes.now }
{
    bytes.iter().fold(start, |index, byte| mix(index, *byte))
}
