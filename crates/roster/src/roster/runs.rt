// Whole lists of requests, and the evenness promise.
ghost use Rattle.std.specs.Prelude.{◌≡◌, ℕ, ◌<◌, ◌≤◌, min, Bool, true, false, length, drop, slice_index_or, slice_set};
ghost use Rattle.calls.specs.Promise.{NewWorld, Promise};
ghost use Rattle.roster.specs.Entering.{world};
ghost use Rattle.roster.specs.Requests.{said};
ghost use Rattle.roster.specs.Rosters.{book_of};
ghost use Rattle.roster.specs.Running.{first_asked, first_said, Done, open_after, left_open, slip_numbers, entry_numbers, handed_back};

use super::Roster;
use crate::request::{Answer, Request};
use crate::slip::Slip;
use keys::Key;
use pile::Pile;
use sources::Source;

// How many requests were carried out, and the slip of the entry that they left open, which must be spent.
pub struct Ran {
    pub count: usize,
    pub slip: Option<Slip>,
}

// One of the requests, and one of the answers, whatever the kind of key.
fn request_at<K: Copy>(requests: &[Request<K>], i: usize) -> Request<K>
    requires { i < length requests.now }
    ensures { result ≡ slice_index_or requests.now i result }
{
    requests[i]
}

fn answer_at<K: Copy>(answers: &[Answer<K>], i: usize) -> Answer<K>
    requires { i < length answers.now }
    ensures { result ≡ slice_index_or answers.now i result }
{
    answers[i]
}

fn write_answer<K: Copy>(answers: &mut [Answer<K>], i: usize, answer: Answer<K>)
    requires { i < length answers.old }
    ensures { answers.new ≡ slice_set answers.old i answer }
{
    answers[i] = answer;
}

impl<K: Key> Answer<K> {
    // Whether an entry of the run is open after this answer.
    fn open_after(self, before: bool) -> bool
        ensures { result ≡ open_after before (said K.view self) }
    {
        match self {
            Answer::Slip {
                tag: _,
                class: _,
                radix: _,
            } => true,
            Answer::Entered(_) => false,
            Answer::Withdrawn => false,
            _ => before,
        }
    }
}

// Whether the first answers leave an entry open.
fn left_open<K: Key>(answers: &[Answer<K>], count: usize) -> bool
    requires { count ≤ length answers.now }
    ensures { result ≡ left_open false (first_said K.view count answers.now) }
{
    let mut opened = false;
    for i in 0..count {
        opened = answer_at(answers, i).open_after(opened);
    }
    opened
}

impl<'a, K: Key> Roster<'a, K> {
    fn slip_of_entry(&self) -> Option<Slip>
        ensures { slip_numbers result ≡ entry_numbers (book_of K.view self.now).entry }
    {
        match self.open_entry() {
            Some(entry) => Some(Slip {
                tag: entry.tag,
                class: entry.key.class(),
                radix: entry.radix,
            }),
            None => None,
        }
    }

    // Carries the requests out in order, as many as there is room for answers.
    fn carry_out_all<P: Pile, S: Source>(
        &mut self,
        pile: &mut P,
        source: &mut S,
        requests: &[Request<K>],
        answers: &mut [Answer<K>],
    ) -> usize
        ensures count { result ≡ min (length requests.now) (length answers.old) }
        ensures done { Done (world (book_of K.view self.old) (P.meaning pile.old) (S.course source.old).gives) (world (book_of K.view self.new) (P.meaning pile.new) (S.course source.new).gives) (first_asked K.view result requests.now) (first_said K.view result answers.new) }
        ensures rest { drop result answers.new ≡ drop result answers.old }
        ensures length { length answers.new ≡ length answers.old }
    {
        let count = requests.len().min(answers.len());
        for i in 0..count {
            let answer = self.carry_out(request_at(requests, i), pile, source);
            write_answer(answers, i, answer);
        }
        count
    }
}

// Carries out as many requests as there is room for answers, in order, on a roster, a pile and a source. An entry that the run
// opened and left open is handed back as its slip.
pub fn run<'a, K: Key, P: Pile, S: Source>(
    roster: &mut Roster<'a, K>,
    pile: &mut P,
    source: &mut S,
    requests: &[Request<K>],
    answers: &mut [Answer<K>],
) -> Ran
    ensures count { result.count ≡ min (length requests.now) (length answers.old) }
    ensures done { Done (world (book_of K.view roster.old) (P.meaning pile.old) (S.course source.old).gives) (world (book_of K.view roster.new) (P.meaning pile.new) (S.course source.new).gives) (first_asked K.view result.count requests.now) (first_said K.view result.count answers.new) }
    ensures rest { drop result.count answers.new ≡ drop result.count answers.old }
    ensures slip { slip_numbers result.slip ≡ handed_back (left_open false (first_said K.view result.count answers.new)) (book_of K.view roster.new).entry }
    ensures promise { NewWorld (world (book_of K.view roster.old) (P.meaning pile.old) (S.course source.old).gives) → Promise (world (book_of K.view roster.old) (P.meaning pile.old) (S.course source.old).gives) (first_asked K.view result.count requests.now) (first_said K.view result.count answers.new) (world (book_of K.view roster.new) (P.meaning pile.new) (S.course source.new).gives) }
{
    let count = roster.carry_out_all(pile, source, requests, answers);
    let slip = match left_open(answers, count) {
        true => roster.slip_of_entry(),
        false => None,
    };
    Ran { count, slip }
}
