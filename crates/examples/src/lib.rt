// Worked examples, evaluated by the definitions that the contracts of the public calls cite, and tests of refusals that no script of
// the programs can meet.
//
// `six_tapes` goes from the openings of a roster and a pile through a run to the shares of all samples: two places, three keys enter
// and one leaves, and of the 6 tapes each possible sample has 2. So neither "new" nor the promise of a run is empty.
//
// The functions do nothing: each is there for its contract, which is a theorem. The examples are in specs/.

#![tactic(auto)]

#[cfg(test)]
mod tests;

ghost use Rattle.calls.specs.Lists.{draws_in, listed};
ghost use Rattle.calls.specs.Promise.{NewWorld, Promise, all_tapes, sample};
ghost use Rattle.examples.specs.SixTapes.{start, carried_out, answers, finish, forms, tapes_for};
ghost use Rattle.std.specs.Prelude.{◌≡◌, [], ◌∷◌};

// Two places; 1, 2 and 3 enter and 3 leaves. Of the 6 tapes {1}, {2} and {1, 2} have 2 each, and under the draws 0, 0, 1 it is {2}.
pub fn six_tapes()
    ensures new { NewWorld start }
    ensures draws { draws_in answers ≡ 0 ∷ 0 ∷ 1 ∷ [] }
    ensures sample { sample finish.book finish.pile.places ≡ forms (2 ∷ []) }
    ensures all { all_tapes start.pile start.book (listed carried_out answers) ≡ 6 }
    ensures first { tapes_for (1 ∷ []) ≡ 2 }
    ensures second { tapes_for (2 ∷ []) ≡ 2 }
    ensures both { tapes_for (1 ∷ 2 ∷ []) ≡ 2 }
    ensures none { tapes_for [] ≡ 0 }
    ensures left { tapes_for (3 ∷ []) ≡ 0 }
    ensures whole { Promise start carried_out answers finish }
{}
