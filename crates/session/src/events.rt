// The events of a session, over its numbers: refused with nothing changed, or written.
ghost use Rattle.market.specs.State.{before_bell};
ghost use Rattle.market.specs.Events.{early_quote_step, withdrawal_step, clock_step};
ghost use Rattle.book.specs.View.{rule_of};
ghost use Rattle.session.specs.View.{view, Lent, Settled, Did, BellRang};

use crate::ledger::Ledger;
use crate::states::{Taking, Trading};
use book::memory::Memory;
use market::{Answer, Pair, Refusal};
use precedence::rules::Rule;

// The time of the bell: 09:00.
const BELL: u32 = 3_240_000;

impl Ledger {
    // Brings the duties up to date after an event, where the phase watches them.
    fn settle<P: Taking>(&self, memory: &mut Memory)
        requires { Lent self.now memory.old }
        ensures { Settled P.phase self.now memory.old memory.new }
    {
        if P::WATCHED && !self.halted {
            *memory.duties = self.watched(memory);
        }
    }

    // Before the bell: both sides replace what the dealer had, and nothing trades.
    pub(crate) fn early_quote<R: Rule>(
        &mut self,
        rule: &R,
        memory: &mut Memory,
        dealer: u8,
        pair: Pair,
    ) -> Result<Answer, Refusal>
        ensures { Did (early_quote_step (rule_of (R.quotes rule.now) (R.orders rule.now)) dealer pair (view before_bell self.old memory.old)) before_bell self.old self.new memory.old memory.new result }
    {
        self.may_quote(rule, memory, dealer, pair)?;
        self.enter_pair(rule, memory, dealer, pair);
        Ok(Answer::Quoted {
            by_ask: 0,
            by_bid: 0,
        })
    }

    // Opens trading at the time of the bell.
    pub(crate) fn ring<R: Rule>(&mut self, rule: &R, memory: &mut Memory) -> Result<(), Refusal>
        ensures { BellRang (rule_of (R.quotes rule.now) (R.orders rule.now)) self.old self.new memory.old memory.new result }
    {
        if !self.is_lawful(rule, memory) {
            return Err(Refusal::UnlawfulBook);
        }
        self.clock = BELL;
        self.settle::<Trading>(memory);
        Ok(())
    }

    pub(crate) fn withdraw<P: Taking, R: Rule>(
        &mut self,
        rule: &R,
        memory: &mut Memory,
        dealer: u8,
    ) -> Result<Answer, Refusal>
        ensures { Did (withdrawal_step (rule_of (R.quotes rule.now) (R.orders rule.now)) dealer (view P.phase self.old memory.old)) P.phase self.old self.new memory.old memory.new result }
    {
        self.may_withdraw(rule, memory, dealer)?;
        self.take_out(memory, dealer);
        self.settle::<P>(memory);
        Ok(Answer::Withdrawn)
    }

    pub(crate) fn step<P: Taking, R: Rule>(
        &mut self,
        rule: &R,
        memory: &mut Memory,
        time: u32,
    ) -> Result<Answer, Refusal>
        ensures { Did (clock_step (rule_of (R.quotes rule.now) (R.orders rule.now)) time (view P.phase self.old memory.old)) P.phase self.old self.new memory.old memory.new result }
    {
        self.may_step(rule, memory, time, P::LATEST)?;
        let late = self.set_clock(memory, time);
        self.settle::<P>(memory);
        Ok(Answer::Stepped { late })
    }
}
