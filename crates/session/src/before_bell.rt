// A session before the bell.
ghost use Rattle.market.specs.State.{before_bell};
ghost use Rattle.market.specs.Events.{early_quote_step};
ghost use Rattle.book.specs.View.{rule_of};
ghost use Rattle.session.specs.View.{view, Did, Rang};

use crate::states::{BeforeBell, Open, PreOpen, Session, Trading};
use book::memory::Memory;
use market::{Answer, Pair, Refusal};
use precedence::rules::Rule;

impl Session<BeforeBell> {
    // Both sides replace what the dealer had. Before the bell nothing trades.
    pub fn quote<R: Rule>(
        &mut self,
        rule: &R,
        memory: &mut Memory,
        dealer: u8,
        pair: Pair,
    ) -> Result<Answer, Refusal>
        ensures { Did (early_quote_step (rule_of (R.quotes rule.now) (R.orders rule.now)) dealer pair (view before_bell self.old.ledger memory.old)) before_bell self.old.ledger self.new.ledger memory.old memory.new result }
    {
        self.ledger.early_quote(rule, memory, dealer, pair)
    }

    // Opens trading at the time of the bell, or hands the session back where the book is not lawful.
    pub fn ring<R: Rule>(self, rule: &R, memory: &mut Memory) -> Result<Open, (Refusal, PreOpen)>
        ensures { Rang (rule_of (R.quotes rule.now) (R.orders rule.now)) self memory.old memory.new result }
    {
        let Session { mut ledger, phase } = self;
        match ledger.ring(rule, memory) {
            Ok(()) => Ok(Session {
                ledger,
                phase: Trading,
            }),
            // The session goes back beside the refusal, so `?` would lose it.
            Err(refusal) => Err((refusal, Session { ledger, phase })),
        }
    }

    // Gives the session up before the bell.
    pub fn abandon(self) {
        let Session {
            ledger: _,
            phase: _,
        } = self;
    }
}
