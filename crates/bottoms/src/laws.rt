// What sets the two bottoms apart.
ghost use Rattle.std.specs.Prelude.{◌≡◌, true, false};
ghost use Rattle.bottoms.specs.Bottoms.{bottom_meaning};

use crate::bottom::{EntriesOnly, Paired};

// The one takes leaves; the other takes none, and so its d is always 0.
pub fn kinds_tell(paired: &Paired, entries_only: &EntriesOnly)
    ensures paired { (bottom_meaning paired.now).leaves ≡ true }
    ensures entries_only { (bottom_meaning entries_only.now).leaves ≡ false }
    ensures unpaired { (bottom_meaning entries_only.now).unpaired ≡ 0 }
{}
