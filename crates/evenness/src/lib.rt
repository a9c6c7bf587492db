// Evenness: over all tapes of draws, a pile favours no sample.
//
// A pile is new, and a list of events can happen to it: keys come and go. From the list alone follow the live counted tags, N
// (how many they are), d (the counted leaves that no later counted entry made up for), L (the number of places) and the radix of
// each entry. A tape has one draw for each entry, below its radix; under a tape the pile's own rules say what the places hold. The
// crate promises, for every such pile and every such list:
//
// - a set of live tags, a of them, is what the places hold under choose (d, L - a) in choose (N + d, L) of all tapes (`shares`). So
//   sets of one size have equally many tapes (`equal_shares`), and a set with a tag that is not live has none (`no_others`);
// - the shares divide by something (`some_choice`); there are as many tapes as the radices multiply to, and at least one
//   (`all_tapes`); each stands once in the list that is counted (`listed_once`);
// - N, d and L are the same under every tape, and the tags that stand are live, each standing once (`under_every_tape`).
//
// The functions do nothing: each is there for its contract, which is a theorem. specs/Events.antt says what follows from a list of
// events, specs/Tapes.antt what tapes and samples are and how they are counted, specs/Counting.antt what choose is, specs/Laws.antt
// what the laws say.

#![tactic(auto)]

ghost use Rattle.std.specs.Prelude.{◌≡◌, ℕ, ◌+◌, ◌*◌, ◌<◌, List, [], ◌∷◌};
ghost use Rattle.evenness.specs.Counting.{choose, factorial, falling, product};
ghost use Rattle.evenness.specs.Events.{Event, Possible, live_count, unpaired_count, place_count, radices};
ghost use Rattle.evenness.specs.Example.{two_places, three_come_one_goes, tapes_for};
ghost use Rattle.evenness.specs.Laws.{Shares, EqualShares, NoOthers, Reached};
ghost use Rattle.evenness.specs.Tapes.{Tape, under, tape_count, times_listed};
ghost use Rattle.pile.specs.Meaning.{Meaning, New, Sound};

// Each set of live tags has its share of all tapes.
pub fn shares()
    ensures { (m : Meaning) (es : List Event) → New m → Possible m es → Shares m es }
{}

// Sets of one size are the sample under equally many tapes.
pub fn equal_shares()
    ensures { (m : Meaning) (es : List Event) → New m → Possible m es → EqualShares m es }
{}

// A set with a tag that is not live is the sample under no tape.
pub fn no_others()
    ensures { (m : Meaning) (es : List Event) → New m → Possible m es → NoOthers m es }
{}

// The number that the shares divide by is not 0.
pub fn some_choice()
    ensures { (m : Meaning) (es : List Event) → 0 < choose (live_count m es + unpaired_count m es) (place_count m es) }
{}

// There are as many tapes as the radices multiply to, and at least one.
pub fn all_tapes()
    ensures as_many { (m : Meaning) (es : List Event) → tape_count m es ≡ product (radices m es) }
    ensures some { (m : Meaning) (es : List Event) → 0 < tape_count m es }
{}

// The list of tapes has each tape once, and nothing else.
pub fn listed_once()
    ensures once { (rs draws : List ℕ) → Tape rs draws → times_listed rs draws ≡ 1 }
    ensures no_other { (rs draws : List ℕ) → (Tape rs draws → ⊥) → times_listed rs draws ≡ 0 }
{}

// Under every tape N, d and the number of places are as the events say, and each tag that stands is live and stands once.
pub fn under_every_tape()
    ensures { (m : Meaning) (es : List Event) (tape : List ℕ) → New m → Possible m es → Tape (radices m es) tape → Reached m es (under m es tape) }
{}

// Chosen and then put in order, k things out of n are dealt to k places; with the others behind them, all n are put in order.
pub fn choose_counts()
    ensures in_order { (n k : ℕ) → choose n k * factorial k ≡ falling n k }
    ensures others { (n k rest : ℕ) → n ≡ k + rest → falling n k * factorial rest ≡ factorial n }
{}

// Bound 2; tags 0, 1 and 2 come and 2 goes. Of the 6 tapes each of {0}, {1} and {0, 1} has 2.
pub fn worked_example()
    ensures new { New two_places }
    ensures sound { Sound two_places }
    ensures possible { Possible two_places three_come_one_goes }
    ensures all { tape_count two_places three_come_one_goes ≡ 6 }
    ensures first { tapes_for (0 ∷ []) ≡ 2 }
    ensures second { tapes_for (1 ∷ []) ≡ 2 }
    ensures both { tapes_for (0 ∷ 1 ∷ []) ≡ 2 }
{}
