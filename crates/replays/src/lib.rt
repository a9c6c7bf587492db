// The change log and its replay: their rules as definitions, and what follows for every log and tape. There is no code here.
//
// A log is bytes: the record SL with the settings, then EN and LV with a key, RD for a reading, ZZ for the end. A replay opens a roster
// and a pile by the settings, carries the records out one after the other with a tape as the source of draws, and writes a page of lines.
// What it comes to is one definition of the bytes of log and tape (`outcome` in specs/Replays.antt): the bytes of the page, and the
// refusal, if any. The crate promises, for every log and every tape, of every content and length:
//
// - **the page is random pairing's** (`pages_are_random_pairings`): each reading, also one before a refusal, has the N, the d and the
//   places of keys that the sample has after the log's events so far under the tape's draws, by the rules that the evenness promise
//   counts by; so has each receipt its place (`receipts_are_random_pairings`);
// - what happens goes over the log's records and the tape's in order and leaves none out (`nothing_is_left_out`);
// - a log that lacks bytes at its end is never taken for a shorter one (`cut_logs_are_refused`);
// - which refusals can come, with number, layer and bytes of log and tape, which numbers never come, and the line that ends the page
//   (`refusals_are_these`);
// - a page has at most 49,374 bytes (`pages_fit`);
// - a replay goes record by record (`replays_go_record_by_record`), both kinds of key can be read and printed (`kinds_are_lawful`), and the
//   page of a worked example, computed from its bytes (`worked_example`).
//
// The functions do nothing: each is there for its contract, which is a theorem. The definitions, in the order in which to read them:
// specs/Marks.antt (the marks), specs/Kinds.antt (what is needed of a kind of key), specs/Refusals.antt (number, byte, layer),
// specs/Settings.antt (the record SL), specs/Records.antt (the other records), specs/Happenings.antt (what can happen, receipts and
// readings), specs/Replays.antt (what each record does, and the outcome), specs/Lines.antt (the page), specs/Pairing.antt (random
// pairing over keys), specs/Laws.antt (the other laws) and specs/Example.antt.

#![tactic(auto)]

ghost use Rattle.std.specs.Prelude.{◌≡◌, ℕ, ◌<◌, ◌≤◌, List, ◌++◌, length};
ghost use Rattle.replays.specs.Example.{example_log, example_outcome, example_tape, full_room};
ghost use Rattle.replays.specs.Kinds.{Kind, LawfulKind, PrintsKeys, names, numbers};
ghost use Rattle.replays.specs.Laws.{Accepted, AllCanCome, IsRefused, NoneOfThese, PageEnds, turn_by_turn};
ghost use Rattle.replays.specs.Pairing.{GoesOver, OneToOne, RandomPairing, RightReceipts, UsesTape, form_number, log_records};
ghost use Rattle.replays.specs.Replays.{Room, State, happens_from, history, outcome};

// Each reading of a replay is the sample's after the events of the log before it, under the draws of the tape.
pub fn pages_are_random_pairings()
    ensures readings { (number : List ℕ → ℕ) → OneToOne number → (log tape : List ℕ) → RandomPairing number log tape }
    // there is a numbering of keys
    ensures numbering { OneToOne form_number }
{}

// So is each receipt, of an entry and of a leave.
pub fn receipts_are_random_pairings()
    ensures { (number : List ℕ → ℕ) → OneToOne number → (log tape : List ℕ) → RightReceipts number log tape }
{}

// What happens goes over the records of the log, and the receipts over those of the tape, in order, and none is left out.
pub fn nothing_is_left_out()
    ensures records { (log tape : List ℕ) → GoesOver (log_records log) (history log tape) }
    ensures tape { (log tape : List ℕ) → UsesTape log tape }
{}

// A log that lacks bytes at the end of an accepted one is refused, under every tape.
pub fn cut_logs_are_refused()
    ensures { (room other-room : Room) (log tape : List ℕ) → Accepted (outcome room log tape) →
        (front rest : List ℕ) → log ≡ front ++ rest → 0 < length rest →
        (other : List ℕ) → IsRefused (outcome other-room front other) }
{}

// Which refusals can come, with layer and bytes of log and tape; which numbers never do; and the line that ends the page.
pub fn refusals_are_these()
    ensures these { (room : Room) (log tape : List ℕ) → AllCanCome log tape (outcome room log tape) }
    ensures never { (room : Room) (log tape : List ℕ) → NoneOfThese (outcome room log tape) }
    ensures line { (room : Room) (log tape : List ℕ) → PageEnds (outcome room log tape) }
{}

// A page has at most 49,374 bytes.
pub fn pages_fit()
    ensures { (room : Room) (log tape : List ℕ) → length (outcome room log tape).page ≤ 49374 }
{}

// A replay is the turn of its first record, and then the replay of the bytes after it.
pub fn replays_go_record_by_record()
    ensures { (kind : Kind) (tape : List ℕ) (byte : ℕ) (more : List ℕ) (s : State) →
        happens_from kind tape byte more s ≡ turn_by_turn kind tape byte more s }
{}

// Both kinds of key are such that a log can be read and a page written, and each key prints as itself.
pub fn kinds_are_lawful()
    ensures numbers { LawfulKind numbers }
    ensures names { LawfulKind names }
    ensures printed { PrintsKeys }
{}

// The page of the worked example, from the bytes of its log and its tape.
pub fn worked_example()
    ensures { outcome full_room example_log example_tape ≡ example_outcome }
{}
