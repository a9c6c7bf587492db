// The calls of a roster over a pile: their rules as definitions, and what follows over whole runs of them. There is no code here.
//
// A roster means slots, whose numbers are the tags, and at most one open entry; a pile means what the crate `pile` says; a source
// means its course. Every call has a verdict, which is told from roster and pile without any draw, and a step, which carries the
// verdict out. A run carries out a list of requests. The crate promises, for every roster and every pile that were new:
//
// - **the evenness promise**, for every run (`promise`): over all tapes of draws no sample is favoured, and the tape that is counted is
//   the calls' own. Of the source it is only asked that the enters took from it what their receipts hold; a steady source sees to
//   that (`steady_sources`);
// - the theorem behind it, over lists of calls alone, whatever source each enter had: the shares of all sets of live keys
//   (`list_shares`), and what the calls come to under every tape (`under_every_tape`, `same_answers`);
// - one run and then another is the run of both lists (`runs_join`), a run is a list of calls under its own draws (`runs_are_lists`),
//   such lists join (`lists_join`), and a run that goes on where a list has come to, with whatever source, makes a longer one
//   (`runs_go_on`);
// - a refused call or a question makes no difference, wherever it stands (`no_matter`);
// - no two slots ever hold one key, and an open entry shares neither tag nor key with a live one (`rosters_are_well_kept`).
//
// The functions do nothing: each is there for its contract, which is a theorem. The definitions, in the order in which to read them:
// specs/Book.antt (what a roster means, and its searches), specs/Calls.antt (the calls, and the questions put to them in order),
// specs/Steps.antt (what each answers, and what is meant afterwards), specs/Runs.antt (runs of requests), specs/Lists.antt (the list of
// calls, read off requests and answers, and what it does under a tape), specs/Past.antt (live keys, N, d and radices, worked out
// from the list alone), specs/Promise.antt (the promise), specs/Laws.antt (the same for lists alone, and runs that go on from them),
// specs/Insertions.antt (refused calls and questions) and specs/Kept.antt (what holds of every roster).

#![tactic(auto)]

ghost use Rattle.std.specs.Prelude.{◌≡◌, ℕ, true, List, [], ◌++◌};
ghost use Rattle.calls.specs.Book.{Book, new_book, opened_book};
ghost use Rattle.calls.specs.Calls.{Call};
ghost use Rattle.calls.specs.Insertions.{IdleIn, NoMatter};
ghost use Rattle.calls.specs.Kept.{WellKept};
ghost use Rattle.calls.specs.Laws.{ListShares, MarkedFrom, RightlyMarked, GoesOn, ListUnder, SameAnswers, Steady};
ghost use Rattle.calls.specs.Lists.{Listed, listed, answers_under, book_under, pile_under, draws_in};
ghost use Rattle.calls.specs.Past.{Ledger, note_all, ledger};
ghost use Rattle.calls.specs.Promise.{list_radices, enter_receipts, TookFromSource, NewWorld, Promise};
ghost use Rattle.calls.specs.Runs.{Request, World, run_answers, run_world};
ghost use Rattle.calls.specs.Steps.{Supply, step};
ghost use Rattle.evenness.specs.Tapes.{Tape};
ghost use Rattle.pile.specs.Meaning.{Meaning, New};

// The evenness promise, for every run on a roster and a pile that were new.
pub fn promise()
    ensures { (start : World) (requests : List Request) → NewWorld start →
        TookFromSource start.course (run_world start requests).course (enter_receipts requests (run_answers start requests)) →
        Promise start requests (run_answers start requests) (run_world start requests) }
{}

// Over all tapes, each set of counted live keys has its share.
pub fn list_shares()
    ensures { (m : Meaning) (b : Book) → New m → new_book b ≡ true → (calls : List Listed) → ListShares m b calls }
{}

// Under every tape a list of calls comes to what the list alone tells.
pub fn under_every_tape()
    ensures { (m : Meaning) (b : Book) → New m → new_book b ≡ true → (calls : List Listed) →
        RightlyMarked m b calls → (tape : List ℕ) → Tape (list_radices m b calls) tape → ListUnder m b calls tape }
{}

// Under any two tapes the same slips, refusals and radices are answered.
pub fn same_answers()
    ensures { (m : Meaning) (b : Book) → New m → new_book b ≡ true → (calls : List Listed) → RightlyMarked m b calls →
        (tape other : List ℕ) → Tape (list_radices m b calls) tape → Tape (list_radices m b calls) other →
        SameAnswers m b calls tape other }
{}

// The list of calls that a run comes to, on any roster and pile, is rightly marked, whatever ledger it is noted in; and so is one list
// after another, where the second is rightly marked for the ledger that the first leaves.
pub fn runs_are_marked()
    ensures runs { (m : Meaning) (l : Ledger) (w : World) (requests : List Request) → MarkedFrom m l (listed requests (run_answers w requests)) }
    ensures joined { (m : Meaning) (l : Ledger) (xs ys : List Listed) →
        MarkedFrom m l xs → MarkedFrom m (note_all m l xs) ys → MarkedFrom m l (xs ++ ys) }
{}

// A run, on any roster and pile, is the list of its calls under its own draws.
pub fn runs_are_lists()
    ensures answers { (w : World) (requests : List Request) →
        let answers = run_answers w requests in
        answers_under w.book w.pile (listed requests answers) (draws_in answers) ≡ answers }
    ensures rosters { (w : World) (requests : List Request) →
        let answers = run_answers w requests in
        book_under w.book w.pile (listed requests answers) (draws_in answers) ≡ (run_world w requests).book }
    ensures piles { (w : World) (requests : List Request) →
        let answers = run_answers w requests in
        pile_under w.book w.pile (listed requests answers) (draws_in answers) ≡ (run_world w requests).pile }
{}

// One list of calls under its own draws, and then another under other draws, is the list of both under the draws of both.
pub fn lists_join()
    ensures answers { (b : Book) (m : Meaning) (xs ys : List Listed) (s t : List ℕ) → draws_in (answers_under b m xs s) ≡ s →
        answers_under b m (xs ++ ys) (s ++ t) ≡ answers_under b m xs s ++ answers_under (book_under b m xs s) (pile_under b m xs s) ys t }
    ensures rosters { (b : Book) (m : Meaning) (xs ys : List Listed) (s t : List ℕ) → draws_in (answers_under b m xs s) ≡ s →
        book_under b m (xs ++ ys) (s ++ t) ≡ book_under (book_under b m xs s) (pile_under b m xs s) ys t }
    ensures piles { (b : Book) (m : Meaning) (xs ys : List Listed) (s t : List ℕ) → draws_in (answers_under b m xs s) ≡ s →
        pile_under b m (xs ++ ys) (s ++ t) ≡ pile_under (book_under b m xs s) (pile_under b m xs s) ys t }
{}

// One run and then another is the run of both lists; and if the enters of both took from the source what their receipts hold, then so
// do those of the one run.
pub fn runs_join()
    ensures answers { (w : World) (xs ys : List Request) →
        run_answers w (xs ++ ys) ≡ run_answers w xs ++ run_answers (run_world w xs) ys }
    ensures worlds { (w : World) (xs ys : List Request) → run_world w (xs ++ ys) ≡ run_world (run_world w xs) ys }
    ensures sources { (w : World) (xs ys : List Request) →
        let half = run_world w xs in
        let full = run_world w (xs ++ ys) in
        TookFromSource w.course half.course (enter_receipts xs (run_answers w xs)) →
        TookFromSource half.course full.course (enter_receipts ys (run_answers half ys)) →
        TookFromSource w.course full.course (enter_receipts (xs ++ ys) (run_answers w (xs ++ ys))) }
{}

// A run goes on where a list of calls under a tape has come to, whatever source it has: its calls after the others are again a list that
// is rightly marked, and its draws after the others are a tape with that list's radices, under which the list comes to what was answered
// and to what is left. So single calls, several runs and several sources make one list of calls.
pub fn runs_go_on()
    ensures { (m : Meaning) (b : Book) → New m → new_book b ≡ true → (calls : List Listed) (tape : List ℕ) →
        RightlyMarked m b calls → Tape (list_radices m b calls) tape → (w : World) → w.book ≡ book_under b m calls tape →
        w.pile ≡ pile_under b m calls tape → (requests : List Request) → GoesOn m b calls tape w requests }
{}

// A refused call or a question, put anywhere into a list, leaves radices, shares, samples, the counted live keys, N and d as they were;
// and by the calls' own steps, under every tape, it leaves roster and pile and all other answers.
pub fn no_matter()
    ensures { (m : Meaning) (b : Book) (first : List Listed) (item : Listed) (others : List Listed) →
        IdleIn m (ledger m b first) item → NoMatter m b first item others }
{}

// A roster is new as its opening leaves it. Every call keeps a roster well kept, whatever the pile: a key has one slot, and an open
// entry has a free slot for its tag and a key that is not live.
pub fn rosters_are_well_kept()
    ensures opened { (capacity : ℕ) → new_book (opened_book capacity) ≡ true }
    ensures new { (b : Book) → new_book b ≡ true → WellKept b }
    ensures after { (b : Book) (m : Meaning) (call : Call) (supply : Supply) → WellKept b → WellKept (step b m call supply).book }
{}

// The enters of a run take from a steady source exactly the draws that their receipts hold.
pub fn steady_sources()
    ensures { (w : World) (requests : List Request) → Steady w.course →
        TookFromSource w.course (run_world w requests).course (enter_receipts requests (run_answers w requests)) }
{}
