// What an accepted event writes, once no reason to refuse it holds.
ghost use Rattle.std.specs.Prelude.{◌≡◌, length, take};
ghost use Rattle.market.specs.State.{new_quote};
ghost use Rattle.market.specs.Events.{quoted, withdrawn, duties_after, late_records, stepped};
ghost use Rattle.book.specs.View.{rule_of};
ghost use Rattle.session.specs.View.{Lent, MayQuote, MayWithdraw, MayStep, Became};

use crate::ledger::Ledger;
use book::duties::Duties;
use book::memory::Memory;
use book::quotes::{replace, withdraw};
use market::{Duty, Pair, Quote, Side, TapeRecord};
use precedence::rules::Rule;

// A quote with nothing taken of it.
fn new_quote(dealer: u8, price: u32, quantity: u32, arrival: u32) -> Quote
    ensures { result ≡ new_quote dealer price quantity arrival }
{
    Quote {
        dealer,
        price,
        entered: quantity,
        live: quantity,
        arrival,
    }
}

impl Ledger {
    // Puts a pair of quotes in the place of those that the dealer had, and the dealer in order.
    pub(crate) fn enter_pair<R: Rule>(
        &mut self,
        rule: &R,
        memory: &mut Memory,
        dealer: u8,
        pair: Pair,
    )
        requires { MayQuote dealer self.old memory.old }
        ensures { Became (quoted (rule_of (R.quotes rule.now) (R.orders rule.now)) dealer pair) self.old self.new memory.old memory.new }
    {
        let arrival = self.counts.tape as u32 + 1;
        let bid = new_quote(dealer, pair.bid, pair.bid_quantity, arrival);
        self.counts.bids = replace(rule, Side::Buy, memory.bids, self.counts.bids, bid);
        let ask = new_quote(dealer, pair.ask, pair.ask_quantity, arrival);
        self.counts.asks = replace(rule, Side::Sell, memory.asks, self.counts.asks, ask);
        memory.duties.put(dealer, Duty::InOrder);
        memory.tape[self.counts.tape] = TapeRecord::Quote {
            time: self.clock,
            dealer,
            pair,
        };
        self.counts.tape += 1;
    }

    // Takes the quotes of a dealer out, which has one at least.
    pub(crate) fn take_out(&mut self, memory: &mut Memory, dealer: u8)
        requires { MayWithdraw dealer self.old memory.old }
        ensures { Became (withdrawn dealer) self.old self.new memory.old memory.new }
    {
        self.counts.bids = withdraw(memory.bids, self.counts.bids, dealer);
        self.counts.asks = withdraw(memory.asks, self.counts.asks, dealer);
        memory.tape[self.counts.tape] = TapeRecord::Withdrawal {
            time: self.clock,
            dealer,
        };
        self.counts.tape += 1;
    }

    // Sets the clock, and makes late whoever is short until an earlier time. Gives how many that are.
    pub(crate) fn set_clock(&mut self, memory: &mut Memory, time: u32) -> u32
        requires { MayStep time self.old memory.old }
        ensures late { result ≡ length (late_records time 1 (take self.old.config.dealers memory.old.duties.now.states)) }
        ensures became { Became (stepped time) self.old self.new memory.old memory.new }
    {
        let duties = *memory.duties;
        let count = duties.tell_late(self.config.dealers, time, memory.tape, self.counts.tape);
        memory.duties.mark_late(self.config.dealers, time);
        let late = count - self.counts.tape;
        self.counts.tape = count;
        self.clock = time;
        late as u32
    }

    // The duties as they stand after an event in an open session.
    pub(crate) fn watched(&self, memory: &Memory) -> Duties
        requires { Lent self.now memory.now }
        ensures { result.states ≡ duties_after self.now.clock self.now.config.dealers (take self.now.counts.bids memory.now.bids.now) (take self.now.counts.asks memory.now.asks.now) memory.now.duties.now.states }
    {
        let mut duties = *memory.duties;
        duties.watch(
            self.config.dealers,
            self.clock,
            &memory.bids[..self.counts.bids],
            &memory.asks[..self.counts.asks],
        );
        duties
    }
}
