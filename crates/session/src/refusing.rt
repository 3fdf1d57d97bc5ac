// Why an event is refused: for each event the first reason that holds, before anything is written.
ghost use Rattle.std.specs.Prelude.{◌≡◌, ◌-◌, ◌≤◌, true, OnOk};
ghost use Rattle.market.specs.State.{Phase, within, is_dealer, lawful_book};
ghost use Rattle.market.specs.Events.{first_of, bad_spread, latest_clock, quote_reasons, withdrawal_reasons, clock_reasons};
ghost use Rattle.book.specs.View.{rule_of};
ghost use Rattle.session.specs.View.{view, unless_refused, GoodBook, MayQuote, MayWithdraw, MayStep};

use crate::ledger::Ledger;
use book::lawful::is_lawful;
use book::limits::{LARGEST_QUANTITY, is_price, is_within};
use book::memory::Memory;
use book::quotes::stands;
use market::{Pair, Refusal};
use precedence::rules::Rule;

// The bid is not below the ask, or the spread is more than a twentieth of the ask.
fn is_bad_spread(bid: u32, ask: u32) -> bool
    ensures { result ≡ bad_spread bid ask }
{
    ask <= bid || 20 * u64::from(ask - bid) > u64::from(ask)
}

impl Ledger {
    // Whether the book that was handed in is lawful.
    pub(crate) fn is_lawful<R: Rule>(&self, rule: &R, memory: &Memory) -> bool
        ensures good { result ≡ true → GoodBook self.now memory.now }
        ensures test { (phase : Phase) → result ≡ lawful_book (rule_of (R.quotes rule.now) (R.orders rule.now)) (view phase self.now memory.now) }
    {
        is_lawful(
            rule,
            self.config.dealers,
            &self.places,
            &self.counts,
            memory,
        )
    }

    fn has_dealer(&self, dealer: u8) -> bool
        ensures { result ≡ is_dealer self.now.config.dealers dealer }
    {
        (1..=self.config.dealers).contains(&dealer)
    }

    fn is_quote_quantity(&self, quantity: u32) -> bool
        ensures { result ≡ within self.now.config.least_quantity 1000000 quantity }
    {
        is_within(self.config.least_quantity, LARGEST_QUANTITY, quantity)
    }

    // The places of the tape that are still free.
    fn free_places(&self) -> usize
        ensures { result ≡ self.now.places.tape - self.now.counts.tape }
    {
        self.places.tape - self.counts.tape
    }

    // Whether a quote is accepted, by the first reason that holds against it.
    pub(crate) fn may_quote<R: Rule>(
        &self,
        rule: &R,
        memory: &Memory,
        dealer: u8,
        pair: Pair,
    ) -> Result<(), Refusal>
        ensures ready { OnOk result (MayQuote dealer self.now memory.now) }
        ensures first { (phase : Phase) → result ≡ unless_refused (first_of (quote_reasons (rule_of (R.quotes rule.now) (R.orders rule.now)) dealer pair (view phase self.now memory.now))) }
    {
        if !self.is_lawful(rule, memory) {
            return Err(Refusal::UnlawfulBook);
        }
        if self.halted {
            return Err(Refusal::Halted);
        }
        if !self.has_dealer(dealer) {
            return Err(Refusal::UnknownDealer);
        }
        if !(is_price(pair.bid) && is_price(pair.ask)) {
            return Err(Refusal::PriceOutOfRange);
        }
        if !(self.is_quote_quantity(pair.bid_quantity)
            && self.is_quote_quantity(pair.ask_quantity))
        {
            return Err(Refusal::QuantityOutOfRange);
        }
        if is_bad_spread(pair.bid, pair.ask) {
            return Err(Refusal::BadSpread);
        }
        if self.free_places() < 2 + self.counts.buys + self.counts.sells {
            return Err(Refusal::TapeFull);
        }
        Ok(())
    }

    // Whether a withdrawal is accepted.
    pub(crate) fn may_withdraw<R: Rule>(
        &self,
        rule: &R,
        memory: &Memory,
        dealer: u8,
    ) -> Result<(), Refusal>
        ensures ready { OnOk result (MayWithdraw dealer self.now memory.now) }
        ensures first { (phase : Phase) → result ≡ unless_refused (first_of (withdrawal_reasons (rule_of (R.quotes rule.now) (R.orders rule.now)) dealer (view phase self.now memory.now))) }
    {
        if !self.is_lawful(rule, memory) {
            return Err(Refusal::UnlawfulBook);
        }
        if !self.has_dealer(dealer) {
            return Err(Refusal::UnknownDealer);
        }
        if !(stands(&memory.bids[..self.counts.bids], dealer)
            || stands(&memory.asks[..self.counts.asks], dealer))
        {
            return Err(Refusal::NoQuote);
        }
        if self.free_places() < 1 {
            return Err(Refusal::TapeFull);
        }
        Ok(())
    }

    // Whether a step of the clock is accepted, where `latest` is the last time that it may set in the present phase.
    pub(crate) fn may_step<R: Rule>(
        &self,
        rule: &R,
        memory: &Memory,
        time: u32,
        latest: u32,
    ) -> Result<(), Refusal>
        requires { latest ≤ 5400000 }
        ensures ready { OnOk result (MayStep time self.now memory.now) }
        ensures first { (phase : Phase) → latest ≡ latest_clock phase → result ≡ unless_refused (first_of (clock_reasons (rule_of (R.quotes rule.now) (R.orders rule.now)) time (view phase self.now memory.now))) }
    {
        if !self.is_lawful(rule, memory) {
            return Err(Refusal::UnlawfulBook);
        }
        if !is_within(self.clock, latest, time) {
            return Err(Refusal::ClockOutOfRange);
        }
        if self.free_places() < memory.duties.count_late(self.config.dealers, time) {
            return Err(Refusal::TapeFull);
        }
        Ok(())
    }
}
