// Entries that are opened on one line and ended on another.
use super::{Keeper, say};
use crate::line::{Numbers, SlipCall};
use crate::word::Word;
use pile::Pile;
use roster::{Answer, Ran, Request, Roster, Slip, Unsettled, run};
use sources::Generator;
use std::alloc::AllocError;
use std::fmt;

impl Keeper {
    // Keeps a slip. One that was kept before is spent, since none can be let go.
    fn hold<'a, K: Word>(&mut self, roster: &mut Roster<'a, K>, slip: Slip) {
        if let Some(old) = self.slip.replace(slip) {
            let _ = roster.withdraw(old);
        }
    }

    pub(super) fn admit<'a, K: Word + fmt::Display>(
        &mut self,
        rt: &impl Print,
        roster: &mut Roster<'a, K>,
        key: K,
    ) -> anyhow::Result<()> {
        let class = key.class();
        print!(rt; "admit {key} of class {class}: ")?;
        match roster.admit(key, &self.sample) {
            Err(fault) => println!(rt; "refused {fault}")?,
            Ok(slip) => {
                let tag = slip.tag();
                let radix = slip.radix();
                self.hold(roster, slip);
                println!(rt; "tag {tag}, radix {radix}")?;
            }
        }
        Ok(())
    }

    pub(super) fn end_entry<'a, K: Word>(
        &mut self,
        rt: &impl Print,
        roster: &mut Roster<'a, K>,
        number: usize,
        call: SlipCall,
    ) -> anyhow::Result<()> {
        match call {
            SlipCall::Settle(draw) => self.settle(rt, roster, number, draw),
            SlipCall::Withdraw => self.withdraw(rt, roster, number),
            SlipCall::SettleBy(numbers, draw) => self.settle_by(rt, roster, numbers, draw),
            SlipCall::WithdrawBy(numbers) => self.withdraw_by(rt, roster, numbers),
        }
    }

    // A refusal hands the slip back, and it is kept.
    fn settle<'a, K: Word>(
        &mut self,
        rt: &impl Print,
        roster: &mut Roster<'a, K>,
        number: usize,
        draw: u16,
    ) -> anyhow::Result<()> {
        let Some(slip) = self.slip.take() else {
            return say(rt, number, "no slip is held");
        };
        match roster.settle(slip, &mut self.sample, draw) {
            Ok(receipt) => {
                print!(rt; "settle: ")?;
                self.note(rt, receipt)?;
            }
            Err(Unsettled { fault, slip }) => {
                self.hold(roster, slip);
                println!(rt; "settle: refused {fault}")?;
            }
        }
        Ok(())
    }

    fn withdraw<'a, K: Word>(
        &mut self,
        rt: &impl Print,
        roster: &mut Roster<'a, K>,
        number: usize,
    ) -> anyhow::Result<()> {
        let Some(slip) = self.slip.take() else {
            return say(rt, number, "no slip is held");
        };
        match roster.withdraw(slip) {
            Ok(()) => println!(rt; "withdraw: done")?,
            Err(fault) => println!(rt; "withdraw: refused {fault}")?,
        }
        Ok(())
    }

    // A run of one request, which takes a slip by its numbers.
    fn request<'a, K: Word>(
        &mut self,
        roster: &mut Roster<'a, K>,
        request: Request<K>,
    ) -> Result<Option<Answer<K>>, AllocError> {
        let mut requests = Vec::new(self.heap);
        requests.push(request)?;
        let mut answers = Vec::new(self.heap);
        answers.push(Answer::Withdrawn)?;
        // no such request draws
        let mut unused = Generator::new(1);
        let Ran { count: _, slip } = run(
            roster,
            &mut self.sample,
            &mut unused,
            requests.as_slice(),
            answers.as_mut_slice(),
        );
        if let Some(slip) = slip {
            self.hold(roster, slip);
        }
        Ok(answers.pop())
    }

    // Spends the slip of an entry that ended by its numbers: the withdraw is refused by 11, and changes nothing.
    fn spend<'a, K: Word>(&mut self, roster: &mut Roster<'a, K>) {
        if let Some(slip) = self.slip.take() {
            let _ = roster.withdraw(slip);
        }
    }

    fn settle_by<'a, K: Word>(
        &mut self,
        rt: &impl Print,
        roster: &mut Roster<'a, K>,
        numbers: Numbers,
        draw: u16,
    ) -> anyhow::Result<()> {
        let Numbers { tag, class, radix } = numbers;
        print!(rt; "settle tag {tag}, class {class}, radix {radix}: ")?;
        let request = Request::Settle {
            tag,
            class,
            radix,
            draw,
        };
        match self.request(roster, request)? {
            Some(Answer::Entered(receipt)) => {
                self.spend(roster);
                self.note(rt, receipt)?;
            }
            Some(Answer::Refused(fault)) => println!(rt; "refused {fault}")?,
            // it does not come to this
            _ => println!(rt; "")?,
        }
        Ok(())
    }

    fn withdraw_by<'a, K: Word>(
        &mut self,
        rt: &impl Print,
        roster: &mut Roster<'a, K>,
        numbers: Numbers,
    ) -> anyhow::Result<()> {
        let Numbers { tag, class, radix } = numbers;
        print!(rt; "withdraw tag {tag}, class {class}, radix {radix}: ")?;
        match self.request(roster, Request::Withdraw { tag, class, radix })? {
            Some(Answer::Withdrawn) => {
                self.spend(roster);
                println!(rt; "done")?;
            }
            Some(Answer::Refused(fault)) => println!(rt; "refused {fault}")?,
            // it does not come to this
            _ => println!(rt; "")?,
        }
        Ok(())
    }
}
