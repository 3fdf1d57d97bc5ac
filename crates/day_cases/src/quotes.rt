// Quotes before the bell: what is refused, and where they stand.
use crate::stores::{NO_QUOTE, QUOTED, Ran, Step, play};
use day::running::Outcome;
use market::{Event, Pair, Quote, Refusal};
use precedence::rules::{Rule, Size, Time};
use std::alloc::Global;
use std::process::Abort;
use std::test::Fail;

// A dealer, its bid and the quantity of it, its ask and the quantity of that, and what comes of the quote.
type Row = (u8, u32, u32, u32, u32, Outcome);

// There are 3 dealers, and 2,000 is the least quantity.
const ROWS: [Row; 46] = [
    // the dealer
    (0, 4900, 2000, 5000, 2000, Err(Refusal::UnknownDealer)),
    (1, 4900, 2000, 5000, 2000, QUOTED),
    (3, 4900, 2000, 5000, 2000, QUOTED),
    (4, 4900, 2000, 5000, 2000, Err(Refusal::UnknownDealer)),
    (255, 4900, 2000, 5000, 2000, Err(Refusal::UnknownDealer)),
    // the prices: those that are within their limits and too far apart are refused for that alone
    (1, 0, 2000, 1, 2000, Err(Refusal::PriceOutOfRange)),
    (1, 1, 2000, 0, 2000, Err(Refusal::PriceOutOfRange)),
    (1, 1, 2000, 1, 2000, Err(Refusal::BadSpread)),
    (1, 1, 2000, 2, 2000, Err(Refusal::BadSpread)),
    (1, 999998, 2000, 999999, 2000, QUOTED),
    (1, 999999, 2000, 999999, 2000, Err(Refusal::BadSpread)),
    (
        1,
        999999,
        2000,
        1000000,
        2000,
        Err(Refusal::PriceOutOfRange),
    ),
    (
        1,
        1000000,
        2000,
        999999,
        2000,
        Err(Refusal::PriceOutOfRange),
    ),
    (1, 4900, 2000, 0, 2000, Err(Refusal::PriceOutOfRange)),
    (
        1,
        4294967295,
        2000,
        4294967295,
        2000,
        Err(Refusal::PriceOutOfRange),
    ),
    // the quantities
    (1, 4900, 0, 5000, 2000, Err(Refusal::QuantityOutOfRange)),
    (1, 4900, 1999, 5000, 2000, Err(Refusal::QuantityOutOfRange)),
    (1, 4900, 2000, 5000, 1999, Err(Refusal::QuantityOutOfRange)),
    (1, 4900, 2000, 5000, 2001, QUOTED),
    (1, 4900, 1000000, 5000, 2000, QUOTED),
    (1, 4900, 2000, 5000, 1000000, QUOTED),
    (
        1,
        4900,
        1000001,
        5000,
        2000,
        Err(Refusal::QuantityOutOfRange),
    ),
    (
        1,
        4900,
        2000,
        5000,
        1000001,
        Err(Refusal::QuantityOutOfRange),
    ),
    (
        1,
        4900,
        4294967295,
        5000,
        2000,
        Err(Refusal::QuantityOutOfRange),
    ),
    // the spread
    (1, 4750, 2000, 5000, 2000, QUOTED),
    (1, 4749, 2000, 5000, 2000, Err(Refusal::BadSpread)),
    (1, 4999, 2000, 5000, 2000, QUOTED),
    (1, 5000, 2000, 5000, 2000, Err(Refusal::BadSpread)),
    (1, 5001, 2000, 5000, 2000, Err(Refusal::BadSpread)),
    (1, 19, 2000, 20, 2000, QUOTED),
    (1, 18, 2000, 19, 2000, Err(Refusal::BadSpread)),
    (1, 18, 2000, 20, 2000, Err(Refusal::BadSpread)),
    (1, 19, 2000, 19, 2000, Err(Refusal::BadSpread)),
    (1, 19, 2000, 21, 2000, Err(Refusal::BadSpread)),
    (1, 38, 2000, 40, 2000, QUOTED),
    (1, 950000, 2000, 999999, 2000, QUOTED),
    (1, 949999, 2000, 999999, 2000, Err(Refusal::BadSpread)),
    // of several reasons the first counts
    (0, 0, 0, 0, 0, Err(Refusal::UnknownDealer)),
    (4, 4900, 1999, 5000, 2000, Err(Refusal::UnknownDealer)),
    (4, 5000, 2000, 5000, 2000, Err(Refusal::UnknownDealer)),
    (1, 0, 0, 0, 0, Err(Refusal::PriceOutOfRange)),
    (1, 0, 2000, 5000, 2000, Err(Refusal::PriceOutOfRange)),
    (1, 1000000, 1999, 5000, 2000, Err(Refusal::PriceOutOfRange)),
    (1, 5000, 1999, 5000, 2000, Err(Refusal::QuantityOutOfRange)),
    (
        1,
        4000,
        2000,
        5000,
        1000001,
        Err(Refusal::QuantityOutOfRange),
    ),
    (2, 4800, 4000, 5000, 6000, QUOTED),
];

fn step(row: &Row) -> Step {
    let (dealer, bid, bid_quantity, ask, ask_quantity, outcome) = *row;
    let pair = Pair {
        bid,
        bid_quantity,
        ask,
        ask_quantity,
    };
    (Event::Quote { dealer, pair }, outcome)
}

fn play_rows<R: Rule>(
    rt: &impl Abort,
    heap: Global,
    rule: &R,
    dealers: u8,
    rows: &[Row],
) -> Result<Ran, Fail> {
    let steps: Vec<Step> = rows.iter().map(step).collect(heap)?;
    play(rt, heap, rule, dealers, steps.as_slice())
}

// Of dealer 1 the last accepted quote stands.
#[test]
fn each_limit_of_a_quote(rt: HostRuntime) -> Result<(), Fail> {
    let ran = play_rows(&rt, rt.alloc(), &Time, 3, &ROWS)?;
    let bid = Quote {
        dealer: 1,
        price: 950000,
        entered: 2000,
        live: 2000,
        arrival: 11,
    };
    assert_eq!(rt; ran.store.bids.get(0).copied(), Some(bid));
    let ask = Quote {
        dealer: 2,
        price: 5000,
        entered: 6000,
        live: 6000,
        arrival: 12,
    };
    assert_eq!(rt; ran.store.asks.get(1).copied(), Some(ask));
    assert_eq!(rt; ran.store.asks.get(3).copied(), Some(NO_QUOTE));
    Ok(())
}

// Four quotes, then one of dealer 1 that is as its first was.
const RANKED: [Row; 5] = [
    (1, 4900, 2000, 5000, 3000, QUOTED),
    (2, 4900, 3000, 5000, 2000, QUOTED),
    (3, 4920, 2000, 5010, 2000, QUOTED),
    (4, 4900, 3000, 5000, 3000, QUOTED),
    (1, 4900, 2000, 5000, 3000, QUOTED),
];

// The dealers of the first four bids and of the first four asks.
fn dealers<R: Rule>(
    rt: &impl Abort,
    heap: Global,
    rule: &R,
    rows: &[Row],
) -> Result<[u8; 8], Fail> {
    let ran = play_rows(rt, heap, rule, 4, rows)?;
    let mut found = [0; 8];
    let quotes = ran.store.bids.iter().take(4).chain(ran.store.asks.iter());
    for (dealer, quote) in found.iter_mut().zip(quotes) {
        *dealer = quote.dealer;
    }
    Ok(found)
}

#[test]
fn quotes_stand_by_the_rule(rt: HostRuntime) -> Result<(), Fail> {
    let heap = rt.alloc();
    assert_eq!(rt;
        dealers(&rt, heap, &Time, &RANKED[0..4])?,
        [3, 1, 2, 4, 1, 2, 4, 3]
    );
    assert_eq!(rt;
        dealers(&rt, heap, &Size, &RANKED[0..4])?,
        [3, 2, 4, 1, 1, 4, 2, 3]
    );
    assert_eq!(rt;
        dealers(&rt, heap, &Time, &RANKED)?,
        [3, 2, 4, 1, 2, 4, 1, 3]
    );
    assert_eq!(rt;
        dealers(&rt, heap, &Size, &RANKED)?,
        [3, 2, 4, 1, 4, 1, 2, 3]
    );
    Ok(())
}
