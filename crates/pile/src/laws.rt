// Laws over whole lists of changes, whatever the draws. Each function says one by its contract.
ghost use Rattle.std.specs.Prelude.{◌≡◌, ℕ, List, Some};
ghost use Rattle.pile.specs.Laws.{Change, after_one, after_all, refusal, StandsOnce, AllEnterAnew, AllEntries};
ghost use Rattle.pile.specs.Meaning.{Meaning, Sound};

// A tag stands on at most one place, as long as no tag enters that stands.
pub fn tags_stand_once()
    ensures { (m : Meaning) (cs : List Change) → StandsOnce m → AllEnterAnew m cs → StandsOnce (after_all m cs) }
{}

// A refusal leaves the meaning as it was.
pub fn refusals_change_nothing()
    ensures { (m : Meaning) (c : Change) (number : ℕ) → refusal m c ≡ Some number → after_one m c ≡ m }
{}

// Entries alone leave no leave unpaired.
pub fn entries_alone_pair_all()
    ensures { (m : Meaning) (cs : List Change) → AllEntries cs → m.unpaired ≡ 0 → (after_all m cs).unpaired ≡ 0 }
{}

// Every list of changes keeps a sound meaning sound.
pub fn changes_stay_sound()
    ensures { (m : Meaning) (cs : List Change) → Sound m → Sound (after_all m cs) }
{}
