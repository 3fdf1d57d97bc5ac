// Books that are not lawful, and what a session says to them.
use crate::stores::{ALL_LATE, FIRST, NO_ORDER, NO_QUOTE, NO_RECORD, SECOND, stored};
use book::lawful::is_lawful;
use book::memory::{Lengths, Memory};
use day::running::Session;
use market::{Config, Event, Order, Quote, Refusal, Side};
use precedence::rules::{Rule, Size, Time};
use session::states::PreOpen;
use std::alloc::Global;
use std::mem;
use std::process::Abort;
use std::test::Fail;

const fn quote(dealer: u8, price: u32, entered: u32, live: u32, arrival: u32) -> Quote {
    Quote {
        dealer,
        price,
        entered,
        live,
        arrival,
    }
}

const fn order(number: u32, price: u32, entered: u32, left: u32) -> Order {
    Order {
        number,
        price,
        entered,
        left,
    }
}

// A second quote of that side (dealer, price, entered, live, arrival), and whether the book is then lawful under Time and under Size.
type QuoteRow = (Side, u8, u32, u32, u32, u32, bool, bool);

// The first bid is of dealer 1, at 4900, the first ask of dealer 2, at 5000, and both are entered with 3000 by record 2.
const QUOTES: [QuoteRow; 32] = [
    (Side::Buy, 2, 4880, 2000, 2000, 1, true, true),
    (Side::Buy, 0, 4880, 2000, 2000, 1, false, false),
    (Side::Buy, 3, 4880, 2000, 2000, 1, false, false),
    (Side::Buy, 1, 4880, 2000, 2000, 1, false, false),
    (Side::Buy, 2, 0, 2000, 2000, 1, false, false),
    (Side::Buy, 2, 1, 2000, 2000, 1, true, true),
    (Side::Buy, 2, 4901, 2000, 2000, 1, false, false),
    (Side::Buy, 2, 4900, 2000, 2000, 1, false, true),
    (Side::Buy, 2, 4900, 3000, 2000, 1, false, false),
    (Side::Buy, 2, 4900, 3000, 2000, 3, true, true),
    (Side::Buy, 2, 4900, 3001, 2000, 3, true, false),
    (Side::Buy, 2, 4900, 3000, 3000, 2, false, false),
    (Side::Buy, 2, 4880, 2000, 0, 1, false, false),
    (Side::Buy, 2, 4880, 0, 0, 1, false, false),
    (Side::Buy, 2, 4880, 2000, 1, 1, true, true),
    (Side::Buy, 2, 4880, 2000, 2001, 1, false, false),
    (Side::Buy, 2, 4880, 1000001, 1000000, 1, true, true),
    (Side::Buy, 2, 4880, 1000001, 1000001, 1, false, false),
    (Side::Buy, 2, 4880, 256000000, 1, 1, true, true),
    (Side::Buy, 2, 4880, 256000001, 1, 1, false, false),
    (Side::Buy, 2, 4880, 2000, 2000, 0, false, false),
    (Side::Buy, 2, 4880, 2000, 2000, 7, true, true),
    (Side::Buy, 2, 4880, 2000, 2000, 8, false, false),
    (Side::Sell, 1, 5010, 2000, 2000, 1, true, true),
    (Side::Sell, 0, 5010, 2000, 2000, 1, false, false),
    (Side::Sell, 2, 5010, 2000, 2000, 1, false, false),
    (Side::Sell, 1, 999999, 2000, 2000, 1, true, true),
    (Side::Sell, 1, 1000000, 2000, 2000, 1, false, false),
    (Side::Sell, 1, 4999, 2000, 2000, 1, false, false),
    (Side::Sell, 1, 5010, 2000, 0, 1, false, false),
    (Side::Sell, 1, 5010, 2000, 2001, 1, false, false),
    (Side::Sell, 1, 5010, 2000, 2000, 8, false, false),
];

// A second order of that side (number, price, entered, left), and whether the book is then lawful under Time and under Size.
type OrderRow = (Side, u32, u32, u32, u32, bool, bool);

// The first buy order has number 4 and price 4890, the first sell order number 5 and price 5010, and both were entered for 1500.
const ORDERS: [OrderRow; 30] = [
    (Side::Buy, 3, 4880, 2000, 1000, true, true),
    (Side::Buy, 0, 4880, 2000, 1000, false, false),
    (Side::Buy, 7, 4880, 2000, 1000, true, true),
    (Side::Buy, 8, 4880, 2000, 1000, false, false),
    (Side::Buy, 4, 4880, 2000, 1000, false, false),
    (Side::Buy, 5, 4880, 2000, 1000, false, false),
    (Side::Buy, 3, 0, 2000, 1000, false, false),
    (Side::Buy, 3, 1, 2000, 1000, true, true),
    (Side::Buy, 3, 4891, 2000, 1000, false, false),
    (Side::Buy, 3, 4890, 1000, 1000, false, true),
    (Side::Buy, 7, 4890, 1501, 1000, true, false),
    (Side::Buy, 3, 4880, 2000, 0, false, false),
    (Side::Buy, 3, 4880, 2000, 2000, true, true),
    (Side::Buy, 3, 4880, 2000, 3000, false, false),
    (Side::Buy, 3, 4880, 2000, 1500, false, false),
    (Side::Buy, 3, 4880, 2000, 1, false, false),
    (Side::Buy, 3, 4880, 1999, 1, true, true),
    (Side::Buy, 3, 4880, 1999, 2000, false, false),
    (Side::Buy, 3, 4880, 1000000, 1000000, true, true),
    (Side::Buy, 3, 4880, 1001000, 1000, false, false),
    (Side::Buy, 3, 4880, 1000001, 1, false, false),
    (Side::Sell, 6, 5020, 2000, 1000, true, true),
    (Side::Sell, 4, 5020, 2000, 1000, false, false),
    (Side::Sell, 5, 5020, 2000, 1000, false, false),
    (Side::Sell, 8, 5020, 2000, 1000, false, false),
    (Side::Sell, 6, 5009, 2000, 1000, false, false),
    (Side::Sell, 6, 999999, 2000, 1000, true, true),
    (Side::Sell, 6, 1000000, 2000, 1000, false, false),
    (Side::Sell, 6, 5020, 2000, 0, false, false),
    (Side::Sell, 6, 5020, 2000, 999, false, false),
];

// What stands second in one of the lists.
#[derive(Clone, Copy)]
enum Second {
    Bid(Quote),
    Ask(Quote),
    Buy(Order),
    Sell(Order),
}

// Whether a book of 2 dealers, with two entries in each list and 7 records on the tape, is lawful under Time, and whether under Size.
fn are_lawful(second: Second) -> (bool, bool) {
    let mut bids = [quote(1, 4900, 3000, 3000, 2); 16];
    let mut asks = [quote(2, 5000, 3000, 3000, 2); 16];
    let mut buys = [order(4, 4890, 1500, 1); 2];
    let mut sells = [order(5, 5010, 1500, 1); 2];
    bids[1] = quote(2, 4880, 2000, 2000, 1);
    asks[1] = quote(1, 5010, 2000, 2000, 1);
    buys[1] = order(3, 4880, 2000, 1000);
    sells[1] = order(6, 5020, 2000, 1000);
    match second {
        Second::Bid(bid) => bids[1] = bid,
        Second::Ask(ask) => asks[1] = ask,
        Second::Buy(buy) => buys[1] = buy,
        Second::Sell(sell) => sells[1] = sell,
    }
    let mut duties = ALL_LATE;
    let memory = Memory {
        bids: &mut bids,
        asks: &mut asks,
        buys: &mut buys,
        sells: &mut sells,
        duties: &mut duties,
        tape: &mut [NO_RECORD; 64],
    };
    let counts = Lengths {
        bids: 2,
        asks: 2,
        buys: 2,
        sells: 2,
        tape: 7,
    };
    let places = memory.places();
    (
        is_lawful(&Time, 2, &places, &counts, &memory),
        is_lawful(&Size, 2, &places, &counts, &memory),
    )
}

#[test]
fn each_entry_is_judged(rt: HostRuntime) {
    for (place, row) in QUOTES.iter().enumerate() {
        let (side, dealer, price, entered, live, arrival, by_time, by_size) = *row;
        let second = quote(dealer, price, entered, live, arrival);
        let found = match side {
            Side::Buy => are_lawful(Second::Bid(second)),
            Side::Sell => are_lawful(Second::Ask(second)),
        };
        assert_eq!(rt; found, (by_time, by_size), "quote {place}");
    }
    for (place, row) in ORDERS.iter().enumerate() {
        let (side, number, price, entered, left, by_time, by_size) = *row;
        let second = order(number, price, entered, left);
        let found = match side {
            Side::Buy => are_lawful(Second::Buy(second)),
            Side::Sell => are_lawful(Second::Sell(second)),
        };
        assert_eq!(rt; found, (by_time, by_size), "order {place}");
    }
}

// A call of each kind before the bell, and of two kinds after it, where dealers 1 and 2 have quoted.
const EARLY: [Event; 4] = [
    Event::Withdraw { dealer: 2 },
    SECOND,
    Event::Clock { time: 3060001 },
    Event::Bell,
];

const LATER: [Event; 2] = [
    Event::Clock { time: 3240001 },
    Event::Withdraw { dealer: 1 },
];

// The session after all calls, how many were accepted, and how many were refused for the book.
fn call_all<R: Rule>(
    session: Session,
    rule: &R,
    memory: &mut Memory,
    events: &[Event],
) -> (Session, [u32; 2]) {
    let mut current = session;
    let mut accepted = 0u32;
    let mut refused = 0u32;
    for event in events {
        let (next, outcome) = current.take(rule, memory, event);
        current = next;
        match outcome {
            Ok(_) => accepted = accepted.saturating_add(1),
            Err(Refusal::UnlawfulBook) => refused = refused.saturating_add(1),
            Err(_) => {}
        }
    }
    (current, [accepted, refused])
}

const CONFIG: Config = Config {
    dealers: 3,
    least_quantity: 2000,
    previous_average: 5000,
    day_kind: 0,
};

// A session of 3 dealers, of whom 1 and 2 have quoted.
fn quoted<R: Rule>(rule: &R, memory: &mut Memory) -> Result<Session, Refusal> {
    let session = Session::Early(PreOpen::new(CONFIG, memory)?);
    let (session, _) = session.take(rule, memory, &FIRST);
    let (session, _) = session.take(rule, memory, &SECOND);
    Ok(session)
}

fn put_in(list: &mut [Quote], quote: Quote) -> Quote {
    match list.get_mut(1) {
        Some(place) => mem::replace(place, quote),
        None => quote,
    }
}

// Puts a quote in the second place of a side, and gives the one that stood there.
fn put_second(memory: &mut Memory, side: Side, quote: Quote) -> Quote {
    match side {
        Side::Buy => put_in(memory.bids, quote),
        Side::Sell => put_in(memory.asks, quote),
    }
}

// With this quote in the second place of a side, all calls are refused and leave the memory as it was;
// with the right one there again, all are accepted.
fn refuses<R: Rule>(
    rt: &impl Abort,
    heap: Global,
    rule: &R,
    side: Side,
    second: Quote,
) -> Result<(), Fail> {
    let mut duties = ALL_LATE;
    let mut memory = Memory {
        bids: &mut [NO_QUOTE; 16],
        asks: &mut [NO_QUOTE; 16],
        buys: &mut [NO_ORDER; 2],
        sells: &mut [NO_ORDER; 2],
        duties: &mut duties,
        tape: &mut [NO_RECORD; 64],
    };
    let session = quoted(rule, &mut memory)?;
    let right = put_second(&mut memory, side, second);
    let before = stored(heap, &memory);
    let (session, spoilt) = call_all(session, rule, &mut memory, &EARLY);
    let after = stored(heap, &memory);
    let _ = put_second(&mut memory, side, right);
    let (session, restored) = call_all(session, rule, &mut memory, &EARLY);
    let right = put_second(&mut memory, side, second);
    let (session, spoilt_later) = call_all(session, rule, &mut memory, &LATER);
    let _ = put_second(&mut memory, side, right);
    let (session, restored_later) = call_all(session, rule, &mut memory, &LATER);
    let _ = session.end();
    assert_eq!(rt; before?, after?, "with {second:?}");
    assert_eq!(rt; [spoilt, restored], [[0, 4], [4, 0]], "with {second:?}");
    assert_eq!(rt;
        [spoilt_later, restored_later],
        [[0, 2], [2, 0]],
        "with {second:?}"
    );
    Ok(())
}

// A quote that stands second on a side.
type SecondRow = (Side, u8, u32, u32, u32, u32);

// None of these may stand there, whichever the rule: the first bid and the first ask are at 4900 and 5000, of dealer 1 or 2.
const WRONG: [SecondRow; 12] = [
    (Side::Buy, 0, 4880, 2000, 2000, 1),
    (Side::Buy, 4, 4880, 2000, 2000, 1),
    (Side::Buy, 3, 0, 2000, 2000, 1),
    (Side::Buy, 3, 4901, 2000, 2000, 1),
    (Side::Buy, 3, 4880, 2000, 0, 1),
    (Side::Buy, 3, 4880, 2000, 2001, 1),
    (Side::Buy, 3, 4880, 2000, 2000, 0),
    (Side::Buy, 3, 4880, 2000, 2000, 5),
    (Side::Sell, 0, 5010, 2000, 2000, 1),
    (Side::Sell, 3, 1000000, 2000, 2000, 1),
    (Side::Sell, 3, 4999, 2000, 2000, 1),
    (Side::Sell, 3, 5010, 1000001, 1000001, 1),
];

#[test]
fn an_unlawful_book_is_refused(rt: HostRuntime) -> Result<(), Fail> {
    let heap = rt.alloc();
    for row in &WRONG {
        let (side, dealer, price, entered, live, arrival) = *row;
        let second = quote(dealer, price, entered, live, arrival);
        refuses(&rt, heap, &Time, side, second)?;
        refuses(&rt, heap, &Size, side, second)?;
    }
    // Twice the same dealer: the first bid is of dealer 1 under Time, and of dealer 2 under Size.
    refuses(&rt, heap, &Time, Side::Buy, quote(1, 4880, 2000, 2000, 1))?;
    refuses(&rt, heap, &Size, Side::Buy, quote(2, 4880, 2000, 2000, 1))
}

fn made() -> Result<Session, Refusal> {
    let mut duties = ALL_LATE;
    let mut memory = Memory {
        bids: &mut [NO_QUOTE; 16],
        asks: &mut [NO_QUOTE; 16],
        buys: &mut [NO_ORDER; 2],
        sells: &mut [NO_ORDER; 2],
        duties: &mut duties,
        tape: &mut [NO_RECORD; 64],
    };
    Ok(Session::Early(PreOpen::new(CONFIG, &mut memory)?))
}

// How many calls are accepted and how many are refused for the book, by a session that was made with 16, 16, 2, 2 and 64 places
// and is lent memory of these lengths.
fn lent(rt: &impl Abort, heap: Global, lengths: [usize; 5]) -> Result<[u32; 2], Fail> {
    let mut bids = vec![in heap; NO_QUOTE; lengths[0]]?;
    let mut asks = vec![in heap; NO_QUOTE; lengths[1]]?;
    let mut buys = vec![in heap; NO_ORDER; lengths[2]]?;
    let mut sells = vec![in heap; NO_ORDER; lengths[3]]?;
    let mut tape = vec![in heap; NO_RECORD; lengths[4]]?;
    let mut duties = ALL_LATE;
    let mut other = Memory {
        bids: bids.as_mut_slice(),
        asks: asks.as_mut_slice(),
        buys: buys.as_mut_slice(),
        sells: sells.as_mut_slice(),
        duties: &mut duties,
        tape: tape.as_mut_slice(),
    };
    let session = made()?;
    let before = stored(heap, &other);
    let (session, calls) = call_all(session, &Time, &mut other, &EARLY[1..]);
    let after = stored(heap, &other);
    let _ = session.end();
    assert_eq!(rt; before? == after?, calls == [0, 3]);
    Ok(calls)
}

#[test]
fn other_places_are_refused(rt: HostRuntime) -> Result<(), Fail> {
    let heap = rt.alloc();
    assert_eq!(rt; lent(&rt, heap, [16, 16, 2, 2, 64])?, [3, 0]);
    for lengths in [
        [15, 16, 2, 2, 64],
        [17, 16, 2, 2, 64],
        [16, 15, 2, 2, 64],
        [16, 17, 2, 2, 64],
        [16, 16, 1, 2, 64],
        [16, 16, 3, 2, 64],
        [16, 16, 2, 1, 64],
        [16, 16, 2, 3, 64],
        [16, 16, 2, 2, 63],
        [16, 16, 2, 2, 65],
    ] {
        assert_eq!(rt; lent(&rt, heap, lengths)?, [0, 3]);
    }
    Ok(())
}
