// How the sixteen dealers stand to their duty to quote.
ghost use Rattle.std.specs.Prelude.{◌≡◌, ◌+◌, ◌-◌, ◌<◌, ◌≤◌, ◌++◌, length, take, drop, replicate, slice_set, option_to_list, is_some, count_by};
ghost use Rattle.market.specs.Events.{of_dealers, quotes_both, duty_after, duties_after, missed_time, late_record, late_records, duty_at};

use crate::limits::LOT;
use crate::quotes::live_of;
use market::{Duty, Quote, TapeRecord};

// The longest list of dealers that a session can have.
pub const DEALERS: usize = 16;

// How long a dealer has to restore its quotes, in hundredths of a second.
const GRACE: u32 = 18_000;

// Always sixteen states, of which those of the session's dealers are the first: how many these are stands in the session.
#[derive(Clone, Copy, PartialEq, Eq, Debug)]
pub struct Duties {
    pub states: [Duty; DEALERS],
}

// A duty after an event at that time, by whether the dealer now quotes both sides. The session's clock is at most 15:00.
fn after(clock: u32, both: bool, duty: Duty) -> Duty
    requires { clock ≤ 5400000 }
    ensures { result ≡ duty_after clock both duty }
{
    if both {
        return Duty::InOrder;
    }
    match duty {
        Duty::InOrder => Duty::Short {
            until: clock + GRACE,
        },
        Duty::Short { .. } | Duty::Late => duty,
    }
}

// Whether a dealer has a lot or more left on both sides.
fn quotes_both(bids: &[Quote], asks: &[Quote], dealer: u8) -> bool
    ensures { result ≡ quotes_both bids.now asks.now dealer }
{
    live_of(bids, dealer) >= LOT && live_of(asks, dealer) >= LOT
}

// The time that a dealer missed, where it is short until one before the new time.
fn missed(time: u32, duty: Duty) -> Option<u32>
    ensures { result ≡ missed_time time duty }
{
    match duty {
        Duty::Short { until } if until < time => Some(until),
        _ => None,
    }
}

// A duty at a new time.
fn at_time(time: u32, duty: Duty) -> Duty
    ensures { result ≡ duty_at time duty }
{
    match duty {
        Duty::Short { until } if until < time => Duty::Late,
        _ => duty,
    }
}

// The record of a dealer that is short until an earlier time.
fn late_record(time: u32, dealer: u8, duty: Duty) -> Option<TapeRecord>
    ensures { option_to_list result ≡ late_record time dealer (missed_time time duty) }
{
    missed(time, duty).map(|missed| TapeRecord::Late {
        time,
        dealer,
        missed,
    })
}

// How many of these are short until an earlier time.
fn count_short(duties: &[Duty], time: u32) -> usize
    ensures { result ≡ count_by (λ d. is_some (missed_time time d)) duties.now }
{
    duties
        .iter()
        .filter(|duty| missed(time, **duty).is_some())
        .count()
}

impl Duties {
    pub fn all_in_order() -> Duties
        ensures { result.states ≡ replicate 16 Duty.InOrder }
    {
        Duties {
            states: [Duty::InOrder; DEALERS],
        }
    }

    // One dealer's duty becomes this one.
    pub fn put(&mut self, dealer: u8, duty: Duty)
        requires { (0 < dealer) × (dealer ≤ 16) }
        ensures { self.new.states ≡ slice_set self.old.states (dealer - 1) duty }
    {
        self.states[usize::from(dealer) - 1] = duty;
    }

    // The duties of the session's dealers, which are the first ones.
    fn of_first(&self, dealers: u8) -> &[Duty]
        ensures { result.now ≡ take dealers self.now.states }
    {
        self.states
            .get(..usize::from(dealers))
            .unwrap_or(&self.states)
    }

    // Brings the duties up to date after an event: a dealer that has enough left on both sides is in order,
    // one in order that has not is short from now on, and any other stays as it is.
    pub fn watch(&mut self, dealers: u8, clock: u32, bids: &[Quote], asks: &[Quote])
        requires { clock ≤ 5400000 }
        ensures { self.new.states ≡ duties_after clock dealers bids.now asks.now self.old.states }
    {
        for (i, duty) in self.states.iter_mut().enumerate() {
            let dealer = i as u8 + 1;
            if dealer <= dealers {
                *duty = after(clock, quotes_both(bids, asks, dealer), *duty);
            }
        }
    }

    // Whoever is short until an earlier time becomes late.
    pub fn mark_late(&mut self, dealers: u8, time: u32)
        ensures { self.new.states ≡ of_dealers (λ _. duty_at time) dealers self.old.states }
    {
        for (i, duty) in self.states.iter_mut().enumerate() {
            if i < usize::from(dealers) {
                *duty = at_time(time, *duty);
            }
        }
    }

    // How many dealers are short until an earlier time.
    pub fn count_late(&self, dealers: u8, time: u32) -> usize
        ensures { result ≡ length (late_records time 1 (take dealers self.now.states)) }
    {
        count_short(self.of_first(dealers), time)
    }

    // Writes a record for each dealer that is short until an earlier time, in the order of dealers, to the free places of a tape.
    // Gives how many these are.
    fn tell(&self, dealers: u8, time: u32, free: &mut [TapeRecord]) -> usize
        requires { length (late_records time 1 (take dealers self.now.states)) ≤ length free.old }
        ensures count { result ≡ length (late_records time 1 (take dealers self.now.states)) }
        ensures tape { take result free.new ≡ late_records time 1 (take dealers self.now.states) }
        ensures behind { drop result free.new ≡ drop result free.old }
    {
        let duties = self.of_first(dealers);
        // Counted by hand, since a proof knows nothing of what is written through an adapter of `iter_mut`.
        let mut told = 0;
        for (i, duty) in duties.iter().enumerate() {
            if let Some(late) = late_record(time, i as u8 + 1, *duty) {
                free[told] = late;
                told += 1;
            }
        }
        told
    }

    // The same, behind the `count` records that a tape holds. Gives its new count.
    pub fn tell_late(&self, dealers: u8, time: u32, tape: &mut [TapeRecord], count: usize) -> usize
        requires { count + length (late_records time 1 (take dealers self.now.states)) ≤ length tape.old }
        ensures count { result ≡ count + length (late_records time 1 (take dealers self.now.states)) }
        ensures tape { take result tape.new ≡ take count tape.old ++ late_records time 1 (take dealers self.now.states) }
        ensures behind { drop result tape.new ≡ drop result tape.old }
    {
        count + self.tell(dealers, time, &mut tape[count..])
    }
}
