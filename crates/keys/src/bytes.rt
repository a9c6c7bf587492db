// Putting bytes into lent memory.
ghost use Rattle.std.specs.Prelude.{◌≡◌};
ghost use Rattle.keys.specs.Bytes.{put_count, put_buffer};

// Puts the bytes at the offset and answers how many; where they do not fit, nothing is written. The offset comes apart from the
// memory, since one past the end has its answer too.
pub fn put(into: &mut [u8], at: usize, bytes: &[u8]) -> Option<usize>
    ensures count { result ≡ put_count bytes.now into.old at }
    ensures after { into.new ≡ put_buffer bytes.now into.old at }
{
    let count = bytes.len();
    if at > into.len() || count > into.len() - at {
        return None;
    }
    into[at..at + count].copy_from_slice(bytes);
    Some(count)
}
