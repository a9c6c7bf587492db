// Opening a tape, and how far it is used.
ghost use Rattle.std.specs.Prelude.{◌≡◌, ◌*◌, length, ◌==◌};
ghost use Rattle.sources.specs.Courses.{stands_at, used_up};
ghost use Rattle.sources.specs.Tapes.{tape_course};

use super::Tape;

impl<'a> Tape<'a> {
    pub fn new(bytes: &'a [u8]) -> Tape<'a>
        ensures bytes { result.bytes.now ≡ bytes.now }
        ensures draws { result.draws ≡ 0 }
    {
        Tape { bytes, draws: 0 }
    }

    pub fn draws_used(&self) -> usize
        ensures draws { result ≡ self.now.draws }
        ensures course { 6 * result ≡ stands_at (tape_course self.now.bytes.now self.now.draws).gives }
    {
        self.draws
    }

    // The first byte that is not used.
    pub fn first_unused(&self) -> usize
        ensures draws { result ≡ 6 * self.now.draws }
        ensures course { result ≡ stands_at (tape_course self.now.bytes.now self.now.draws).gives }
    {
        6 * self.draws
    }

    // Whether no byte is left.
    pub fn is_used_up(&self) -> bool
        ensures bytes { result ≡ (6 * self.now.draws == length self.now.bytes.now) }
        ensures course { result ≡ used_up (tape_course self.now.bytes.now self.now.draws).gives }
    {
        self.first_unused() == self.bytes.len()
    }
}
