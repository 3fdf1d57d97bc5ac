// The events that every phase but the last takes.
ghost use Rattle.market.specs.Events.{withdrawal_step, clock_step};
ghost use Rattle.book.specs.View.{rule_of};
ghost use Rattle.session.specs.View.{view, Did};

use crate::states::{Session, Taking};
use book::memory::Memory;
use market::{Answer, Refusal};
use precedence::rules::Rule;

impl<P: Taking> Session<P> {
    // Both quotes of the dealer go.
    pub fn withdraw<R: Rule>(
        &mut self,
        rule: &R,
        memory: &mut Memory,
        dealer: u8,
    ) -> Result<Answer, Refusal>
        ensures { Did (withdrawal_step (rule_of (R.quotes rule.now) (R.orders rule.now)) dealer (view P.phase self.old.ledger memory.old)) P.phase self.old.ledger self.new.ledger memory.old memory.new result }
    {
        self.ledger.withdraw::<P, R>(rule, memory, dealer)
    }

    // Sets the clock, and makes late whoever is short until an earlier time.
    pub fn step<R: Rule>(
        &mut self,
        rule: &R,
        memory: &mut Memory,
        time: u32,
    ) -> Result<Answer, Refusal>
        ensures { Did (clock_step (rule_of (R.quotes rule.now) (R.orders rule.now)) time (view P.phase self.old.ledger memory.old)) P.phase self.old.ledger self.new.ledger memory.old memory.new result }
    {
        self.ledger.step::<P, R>(rule, memory, time)
    }
}
