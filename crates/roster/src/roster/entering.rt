// Enter: admit, a draw from a source, settle.
ghost use Rattle.std.specs.Prelude.{◌≡◌, ℕ, ◌<◌, List, ◌∷◌, MatchResult};
ghost use Rattle.pile.specs.Meaning.{Meaning};
ghost use Rattle.sources.specs.Answers.{drew, refused, source_refusal};
ghost use Rattle.sources.specs.Courses.{before};
ghost use Rattle.calls.specs.Calls.{withdraw, enter};
ghost use Rattle.calls.specs.Steps.{step, gives};
ghost use Rattle.roster.specs.Entering.{enter_step, Moved};
ghost use Rattle.roster.specs.Rosters.{book_of};
ghost use Rattle.roster.specs.Told.{enter_told};

use super::Roster;
use crate::faults::EnterFault;
use crate::slip::{Slip, Unsettled};
use keys::Key;
use pile::{EntryReceipt, Pile};
use sources::{Source, SourceFault};

impl<'a, K: Key> Roster<'a, K> {
    // A draw for the slip, handed on with it; where the source refuses, the slip is withdrawn.
    fn draw_or_withdraw<S: Source>(
        &mut self,
        slip: Slip,
        source: &mut S,
    ) -> Result<(Slip, u16), SourceFault>
        ensures drawn { MatchResult result (λ t. (t.0 ≡ slip) × (t.1 < slip.radix) × (book_of K.view self.new ≡ book_of K.view self.old) × ((more : List ℕ) → (S.course source.old).gives (slip.radix ∷ more) ≡ before (drew t.1) ((S.course source.new).gives more))) (λ fault. ((m : Meaning) → book_of K.view self.new ≡ (step (book_of K.view self.old) m (withdraw slip.tag slip.class slip.radix) (gives 0)).book) × ((more : List ℕ) → (S.course source.old).gives (slip.radix ∷ more) ≡ before (refused (source_refusal fault)) ((S.course source.new).gives more)) × ((S.course source.new).gives ≡ (S.course source.old).gives)) }
    {
        match source.draw(slip.radix) {
            Ok(draw) => Ok((slip, draw)),
            Err(fault) => {
                let _ = self.withdraw(slip);
                Err(fault)
            }
        }
    }

    // Makes a key live with a draw from the source. A refusal of the source withdraws the key, and comes back whole.
    pub fn enter<P: Pile, S: Source>(
        &mut self,
        key: K,
        pile: &mut P,
        source: &mut S,
    ) -> Result<EntryReceipt, EnterFault>
        ensures answer { enter_told result ≡ (enter_step (book_of K.view self.old) (P.meaning pile.old) (S.course source.old).gives (K.view key)).answer }
        ensures roster { book_of K.view self.new ≡ (enter_step (book_of K.view self.old) (P.meaning pile.old) (S.course source.old).gives (K.view key)).book }
        ensures pile { P.meaning pile.new ≡ (enter_step (book_of K.view self.old) (P.meaning pile.old) (S.course source.old).gives (K.view key)).pile }
        ensures source { Moved (enter (K.view key)) (enter_told result) (S.course source.old).gives (S.course source.new).gives }
    {
        let slip = self.admit(key, pile)?;
        let (slip, draw) = self.draw_or_withdraw(slip, source)?;
        match self.settle(slip, pile, draw) {
            Ok(receipt) => Ok(receipt),
            // it does not come to this
            Err(Unsettled { fault, slip }) => {
                let Slip {
                    tag: _,
                    class: _,
                    radix: _,
                } = slip;
                Err(fault.into())
            }
        }
    }
}
