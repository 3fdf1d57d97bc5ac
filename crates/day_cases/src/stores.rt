// A session's memory as one value, and runs of events in it.
use book::duties::Duties;
use book::memory::Memory;
use day::running::Outcome;
use day::runs::run;
use market::{Answer, Config, Duty, Event, Order, Pair, Quote, Summary, TapeRecord};
use precedence::rules::Rule;
use std::alloc::{AllocError, Global};
use std::process::Abort;
use std::test::Fail;

// What stands in a session's memory.
#[derive(Drop, PartialEq, Eq, Debug)]
pub struct Store {
    pub bids: Vec<Quote>,
    pub asks: Vec<Quote>,
    pub buys: Vec<Order>,
    pub sells: Vec<Order>,
    pub duties: Duties,
    pub tape: Vec<TapeRecord>,
}

pub const NO_QUOTE: Quote = Quote {
    dealer: 0,
    price: 0,
    entered: 0,
    live: 0,
    arrival: 0,
};

pub const NO_ORDER: Order = Order {
    number: 0,
    price: 0,
    entered: 0,
    left: 0,
};

pub const NO_RECORD: TapeRecord = TapeRecord::Halt {
    time: 0,
    direction: 0,
};

pub const ALL_LATE: Duties = Duties {
    states: [Duty::Late; 16],
};

// A copy of what stands in lent memory.
pub fn stored(heap: Global, memory: &Memory) -> Result<Store, AllocError> {
    Ok(Store {
        bids: memory.bids.to_vec(heap)?,
        asks: memory.asks.to_vec(heap)?,
        buys: memory.buys.to_vec(heap)?,
        sells: memory.sells.to_vec(heap)?,
        duties: *memory.duties,
        tape: memory.tape.to_vec(heap)?,
    })
}

// What a run came to.
#[derive(Drop)]
pub struct Ran {
    pub store: Store,
    pub outcomes: Vec<Outcome>,
    pub summary: Option<Summary>,
}

// An event, and what should come of it.
pub type Step = (Event, Outcome);

// The quotes of dealers 1 and 2, and what comes of a quote before the bell.
pub const FIRST: Event = Event::Quote {
    dealer: 1,
    pair: Pair {
        bid: 4900,
        bid_quantity: 2000,
        ask: 5000,
        ask_quantity: 3000,
    },
};

pub const SECOND: Event = Event::Quote {
    dealer: 2,
    pair: Pair {
        bid: 4900,
        bid_quantity: 3000,
        ask: 5000,
        ask_quantity: 2000,
    },
};

pub const QUOTED: Outcome = Ok(Answer::Quoted {
    by_ask: 0,
    by_bid: 0,
});

pub const STEPPED: Outcome = Ok(Answer::Stepped { late: 0 });

fn run_in<R: Rule>(heap: Global, rule: &R, config: Config, events: &[Event]) -> Result<Ran, Fail> {
    let mut bids = [NO_QUOTE; 16];
    let mut asks = [NO_QUOTE; 16];
    let mut buys = [NO_ORDER; 2];
    let mut sells = [NO_ORDER; 2];
    let mut duties = ALL_LATE;
    let mut tape = [NO_RECORD; 64];
    let mut memory = Memory {
        bids: &mut bids,
        asks: &mut asks,
        buys: &mut buys,
        sells: &mut sells,
        duties: &mut duties,
        tape: &mut tape,
    };
    let (session, outcomes) = run(heap, rule, config, &mut memory, events)?;
    let summary = session.end();
    Ok(Ran {
        store: stored(heap, &memory)?,
        outcomes,
        summary,
    })
}

// Runs the events of the steps, and holds what came of each to the step.
// The refused ones leave no trace: a run without them ends with the same memory.
pub fn play<R: Rule>(
    rt: &impl Abort,
    heap: Global,
    rule: &R,
    dealers: u8,
    steps: &[Step],
) -> Result<Ran, Fail> {
    let config = Config {
        dealers,
        least_quantity: 2000,
        previous_average: 5000,
        day_kind: 0,
    };
    let events: Vec<Event> = steps.iter().map(|step| step.0).collect(heap)?;
    let accepted: Vec<Event> = steps
        .iter()
        .filter(|step| step.1.is_ok())
        .map(|step| step.0)
        .collect(heap)?;
    let ran = run_in(heap, rule, config, events.as_slice())?;
    assert_eq!(rt; ran.outcomes.len(), steps.len());
    for (place, (step, outcome)) in steps.iter().zip(ran.outcomes.iter()).enumerate() {
        assert_eq!(rt; *outcome, step.1, "step {place}");
    }
    let plain = run_in(heap, rule, config, accepted.as_slice())?;
    assert_eq!(rt; &ran.store, &plain.store);
    Ok(ran)
}
