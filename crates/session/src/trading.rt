// The end of a session: its close, and its summary.
ghost use Rattle.std.specs.Prelude.{◌≡◌};
ghost use Rattle.market.specs.Events.{summary_of};

use crate::ledger::Ledger;
use crate::states::{Closed, Over, Session, Trading};
use market::Summary;

impl Session<Trading> {
    // Ends trading.
    pub fn close(self) -> Closed
        ensures { result.ledger ≡ self.ledger }
    {
        let Session { ledger, phase: _ } = self;
        Session {
            ledger,
            phase: Over,
        }
    }
}

impl Session<Over> {
    // What the day came to.
    pub fn summary(self) -> Summary
        ensures { result ≡ summary_of self.ledger.shares self.ledger.value }
    {
        let Session {
            ledger: day,
            phase: _,
        } = self;
        let Ledger { shares, value, .. } = day;
        let average = (2 * value + shares).checked_div(2 * shares).unwrap_or(0);
        Summary {
            shares,
            value,
            average,
        }
    }
}
