// The source that reads its draws from bytes.
ghost use Rattle.std.specs.Prelude.{◌*◌, ◌≤◌, length};

pub mod calls;
pub mod draws;

// A tape, and how many of its draws are used.
#[derive(Drop)]
pub struct Tape<'a> {
    bytes: &'a [u8],
    draws: usize,
    ghost within: { 6 * draws ≤ length bytes.now },
}
