// Laws of courses, tapes and receipts, and worked examples. Each function says one by its contract.
ghost use Rattle.std.specs.Prelude.{◌≡◌, ℕ, ◌+◌, ◌*◌, ◌^◌, ◌≤◌, true, List, [], ◌∷◌, ◌++◌, length, take, drop, Some, None};
ghost use Rattle.pile.specs.Answers.{told};
ghost use Rattle.pile.specs.Meaning.{Meaning, Sound};
ghost use Rattle.pile.specs.Rules.{entry_rule};
ghost use Rattle.pile.specs.declared.receipts.EntryReceipt.{EntryReceipt};
ghost use Rattle.sources.specs.Answers.{drew, lawful_radix};
ghost use Rattle.sources.specs.Courses.{Given, before, followed, used_up};
ghost use Rattle.sources.specs.Generators.{step, taken_seed, generator_course};
ghost use Rattle.sources.specs.Records.{has_room, written, written_all, Lawful, AllLawful, records_of, radices_of, draws_of};
ghost use Rattle.sources.specs.Tapes.{read_record, tape_course};

// After an accepted draw the course is what followed that draw in the earlier one.
pub fn courses_go_on()
    ensures { (first later : List ℕ → Given) (radix draw : ℕ) → ((radices : List ℕ) → first (radix ∷ radices) ≡ before (drew draw) (later radices)) → later ≡ followed first radix }
{}

// What was written reads back as that radix and draw.
pub fn records_read_back()
    ensures { (tape : List ℕ) (offset : ℕ) (e : EntryReceipt) → Lawful e → has_room tape offset ≡ true → read_record (drop offset (written tape offset e)) ≡ Some (record { radix = e.radix; draw = e.draw }) }
{}

// Receipts written one after the other stand as their records, and the rest of the buffer stays.
pub fn records_stand_in_turn()
    ensures { (tape : List ℕ) (offset : ℕ) (es : List EntryReceipt) → offset + 6 * length es ≤ length tape → written_all tape offset es ≡ take offset tape ++ (records_of es ++ drop (offset + 6 * length es) tape) }
{}

// A tape of the records of receipts gives their draws for their radices, and is then used up.
pub fn tapes_read_back()
    ensures course { (es : List EntryReceipt) → AllLawful es → (tape_course (records_of es) 0).gives (radices_of es) ≡ record { draws = draws_of es; refusal = None } }
    ensures end { (es : List EntryReceipt) → used_up (tape_course (records_of es) (length es)).gives ≡ true }
{}

// Every receipt of an entry reads back: its radix is 1 to 1,024 and its draw below that.
pub fn entries_read_back()
    ensures { (m : Meaning) (tag class draw : ℕ) (e : EntryReceipt) → Sound m → (entry_rule m tag class draw).answer ≡ told e → Lawful e }
{}

// Seed 1 steps to 1,082,269,761 and draws 0; seed 2^63 steps to 0x8100000000000000 and draws 516 of 1,024, or 1 of 3.
pub fn generator_examples()
    ensures first { step (taken_seed 1) ≡ 1082269761 }
    ensures first_draw { (radix : ℕ) → lawful_radix radix ≡ true → (generator_course (taken_seed 1)).gives (radix ∷ []) ≡ record { draws = 0 ∷ []; refusal = None } }
    ensures second { step (taken_seed (2 ^ 63)) ≡ 0x8100000000000000 }
    ensures of_1024 { (generator_course (taken_seed (2 ^ 63))).gives (1024 ∷ []) ≡ record { draws = 516 ∷ []; refusal = None } }
    ensures of_3 { (generator_course (taken_seed (2 ^ 63))).gives (3 ∷ []) ≡ record { draws = 1 ∷ []; refusal = None } }
{}
