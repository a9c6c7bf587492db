// One request, carried out by its call.
ghost use Rattle.std.specs.Prelude.{◌≡◌};
ghost use Rattle.roster.specs.Entering.{world, Moved};
ghost use Rattle.roster.specs.Requests.{asked, said, radix_told};
ghost use Rattle.roster.specs.Rosters.{book_of};
ghost use Rattle.roster.specs.Told.{admit_told, settle_told, withdraw_told, enter_told, leave_told};
ghost use Rattle.calls.specs.Runs.{step_of};

use super::Roster;
use crate::faults::{EnterFault, RosterFault};
use crate::request::{Answer, Request};
use crate::slip::{Slip, Unsettled};
use keys::Key;
use pile::{EntryReceipt, LeaveReceipt, Pile, PileFault};
use sources::Source;

// The slip of an admit is spent for its numbers: the request that settles or withdraws it will bring them.
impl<K: Key> Answer<K> {
    fn of_admit(res: Result<Slip, RosterFault>) -> Answer<K>
        ensures { said K.view result ≡ admit_told res }
    {
        match res {
            Ok(Slip { tag, class, radix }) => Answer::Slip { tag, class, radix },
            Err(fault) => Answer::Refused(fault),
        }
    }

    fn of_settle(res: Result<EntryReceipt, Unsettled>) -> Answer<K>
        ensures { said K.view result ≡ settle_told res }
    {
        match res {
            Ok(receipt) => Answer::Entered(receipt),
            Err(Unsettled { fault, slip }) => {
                let Slip {
                    tag: _,
                    class: _,
                    radix: _,
                } = slip;
                Answer::Refused(fault)
            }
        }
    }

    fn of_withdraw(res: Result<(), RosterFault>) -> Answer<K>
        ensures { said K.view result ≡ withdraw_told res }
    {
        match res {
            Ok(()) => Answer::Withdrawn,
            Err(fault) => Answer::Refused(fault),
        }
    }

    fn of_enter(res: Result<EntryReceipt, EnterFault>) -> Answer<K>
        ensures { said K.view result ≡ enter_told res }
    {
        match res {
            Ok(receipt) => Answer::Entered(receipt),
            Err(EnterFault::Roster(fault)) => Answer::Refused(fault),
            Err(EnterFault::Source(fault)) => Answer::SourceRefused(fault),
        }
    }

    fn of_leave(res: Result<LeaveReceipt, RosterFault>) -> Answer<K>
        ensures { said K.view result ≡ leave_told res }
    {
        match res {
            Ok(receipt) => Answer::Left(receipt),
            Err(fault) => Answer::Refused(fault),
        }
    }

    fn of_radix(res: Result<u16, PileFault>) -> Answer<K>
        ensures { said K.view result ≡ radix_told res }
    {
        match res {
            Ok(radix) => Answer::Radix(radix),
            Err(fault) => Answer::Refused(RosterFault::Pile(fault)),
        }
    }
}

impl<'a, K: Key> Roster<'a, K> {
    pub(crate) fn carry_out<P: Pile, S: Source>(
        &mut self,
        request: Request<K>,
        pile: &mut P,
        source: &mut S,
    ) -> Answer<K>
        ensures answer { said K.view result ≡ (step_of (world (book_of K.view self.old) (P.meaning pile.old) (S.course source.old).gives) (asked K.view request)).answer }
        ensures roster { book_of K.view self.new ≡ (step_of (world (book_of K.view self.old) (P.meaning pile.old) (S.course source.old).gives) (asked K.view request)).book }
        ensures pile { P.meaning pile.new ≡ (step_of (world (book_of K.view self.old) (P.meaning pile.old) (S.course source.old).gives) (asked K.view request)).pile }
        ensures source { Moved (asked K.view request).call (said K.view result) (S.course source.old).gives (S.course source.new).gives }
    {
        match request {
            Request::Admit(key) => Answer::of_admit(self.admit(key, pile)),
            Request::Settle {
                tag,
                class,
                radix,
                draw,
            } => Answer::of_settle(self.settle(Slip { tag, class, radix }, pile, draw)),
            Request::Withdraw { tag, class, radix } => Answer::of_withdraw(self.withdraw(Slip {
                tag,
                class,
                radix,
            })),
            Request::Enter(key) => Answer::of_enter(self.enter(key, pile, source)),
            Request::Leave(key) => Answer::of_leave(self.leave(key, pile)),
            Request::Place(i) => Answer::Place(pile.place(i)),
            Request::Counts => {
                let (live, unpaired, standing) = pile.counts();
                Answer::Counts(live, unpaired, standing)
            }
            Request::Radix(class) => Answer::of_radix(pile.radix(class)),
            Request::IsLive(key) => Answer::IsLive(self.is_live(&key)),
            Request::LiveCount => Answer::LiveCount(self.live_count()),
            Request::OpenEntry => Answer::OpenEntry(self.open_entry()),
            Request::KeyAt(i) => Answer::KeyAt(self.key_at(pile, i)),
        }
    }
}
