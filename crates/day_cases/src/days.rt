// Days that go by records.
use crate::stores::{ALL_LATE, FIRST, NO_ORDER, NO_QUOTE, NO_RECORD, SECOND};
use book::memory::Memory;
use day::faults::Fault;
use day::stages::Day;
use market::{Answer, Config, Event, Refusal, Summary};
use records::{Malformed, write};
use std::alloc::Global;
use std::process::Abort;
use std::test::Fail;

// What a day is handed.
#[derive(Clone, Copy)]
enum Record {
    Of(Event),
    // The record of a bell, but for the byte at this place.
    Wrong(usize),
    // So many bytes, which are not 24.
    Long(usize),
}

type Taken = Result<Answer, Fault>;

const QUOTED: Taken = Ok(Answer::Quoted {
    by_ask: 0,
    by_bid: 0,
});

const fn make(dealers: u8, rule: u32) -> Record {
    Record::Of(Event::Make {
        config: Config {
            dealers,
            least_quantity: 2000,
            previous_average: 5000,
            day_kind: 0,
        },
        rule,
    })
}

const fn no_record(place: u32, byte: usize) -> Taken {
    Err(Fault::Reader {
        place,
        malformed: Malformed::Byte { place: byte },
    })
}

const fn no_length(place: u32, found: usize) -> Taken {
    Err(Fault::Reader {
        place,
        malformed: Malformed::Length { found },
    })
}

const fn by_day(place: u32, refusal: Refusal) -> Taken {
    Err(Fault::Day { place, refusal })
}

const fn by_session(place: u32, refusal: Refusal) -> Taken {
    Err(Fault::Session { place, refusal })
}

fn hand(day: &mut Day, memory: &mut Memory, record: Record) -> Taken {
    match record {
        Record::Of(event) => day.take(memory, &write(&event)),
        Record::Wrong(place) => {
            let mut bytes = write(&Event::Bell);
            if let Some(byte) = bytes.get_mut(place) {
                *byte = 0xee;
            }
            day.take(memory, &bytes)
        }
        Record::Long(length) => {
            let bytes = [0xee; 48];
            day.take(memory, bytes.get(0..length).unwrap_or(&bytes))
        }
    }
}

// What a day came to: its summary, and the dealer of the first bid.
type Came = (Option<Summary>, Option<u8>);

// Hands the records to a day, one after another, and holds each answer to the one beside it. The day counts the records.
fn spend(rt: &impl Abort, heap: Global, rows: &[(Record, Taken)]) -> Result<Came, Fail> {
    let mut duties = ALL_LATE;
    let mut memory = Memory {
        bids: &mut [NO_QUOTE; 16],
        asks: &mut [NO_QUOTE; 16],
        buys: &mut [NO_ORDER; 2],
        sells: &mut [NO_ORDER; 2],
        duties: &mut duties,
        tape: &mut [NO_RECORD; 64],
    };
    let mut day = Day::new();
    let mut answers = Vec::new(heap);
    for (record, _) in rows {
        let before = day.place();
        let answer = hand(&mut day, &mut memory, *record);
        let _ = answers.push((before, answer));
    }
    let summary = day.end();
    assert_eq!(rt; answers.len(), rows.len());
    for (place, (row, answer)) in rows.iter().zip(answers.iter()).enumerate() {
        assert_eq!(rt; answer.1, row.1, "row {place}");
        assert_eq!(rt; answer.0 as usize, place);
    }
    Ok((summary, memory.bids.first().map(|bid| bid.dealer)))
}

const NOTHING: Summary = Summary {
    shares: 0,
    value: 0,
    average: 0,
};

const BELL: Record = Record::Of(Event::Bell);

const CLOSE: Record = Record::Of(Event::Close);

// A whole day, under the rule of this number. At equal prices the first dealer was earlier, and the second has more.
fn whole(rt: &impl Abort, heap: Global, rule: u32) -> Result<Came, Fail> {
    let withdraw = Record::Of(Event::Withdraw { dealer: 3 });
    let rows = [
        (make(3, rule), Ok(Answer::Made)),
        (make(3, rule), by_day(2, Refusal::OutOfTurn)),
        (make(1, 3), by_day(3, Refusal::OutOfTurn)),
        (Record::Wrong(0), no_record(4, 0)),
        (Record::Wrong(1), no_record(5, 1)),
        (Record::Wrong(23), no_record(6, 23)),
        (Record::Long(0), no_length(7, 0)),
        (Record::Long(23), no_length(8, 23)),
        (Record::Long(25), no_length(9, 25)),
        (Record::Long(48), no_length(10, 48)),
        (CLOSE, by_day(11, Refusal::OutOfTurn)),
        (Record::Of(FIRST), QUOTED),
        (Record::Of(SECOND), QUOTED),
        (withdraw, by_session(14, Refusal::NoQuote)),
        (BELL, Ok(Answer::Rung)),
        (BELL, by_day(16, Refusal::OutOfTurn)),
        (withdraw, by_session(17, Refusal::NoQuote)),
        (CLOSE, Ok(Answer::Closed)),
        (withdraw, by_day(19, Refusal::OutOfTurn)),
        (CLOSE, by_day(20, Refusal::OutOfTurn)),
        (Record::Wrong(2), no_record(21, 2)),
    ];
    spend(rt, heap, &rows)
}

// A day that ends with its first record, which gets this answer.
fn ended(rt: &impl Abort, heap: Global, first: Record, answer: Taken) -> Result<(), Fail> {
    let rows = [
        (first, answer),
        (make(3, 1), by_day(2, Refusal::OutOfTurn)),
        (Record::Wrong(7), no_record(3, 7)),
        (Record::Long(0), no_length(4, 0)),
        (BELL, by_day(5, Refusal::OutOfTurn)),
        (CLOSE, by_day(6, Refusal::OutOfTurn)),
    ];
    assert_eq!(rt; spend(rt, heap, &rows)?, (None, Some(0)));
    Ok(())
}

#[test]
fn each_layer_refuses_in_its_turn(rt: HostRuntime) -> Result<(), Fail> {
    let heap = rt.alloc();
    assert_eq!(rt; whole(&rt, heap, 1)?, (Some(NOTHING), Some(1)));
    assert_eq!(rt; whole(&rt, heap, 2)?, (Some(NOTHING), Some(2)));
    assert_eq!(rt; spend(&rt, heap, &[])?, (None, Some(0)));
    let unclosed = [(make(2, 2), Ok(Answer::Made)), (BELL, Ok(Answer::Rung))];
    assert_eq!(rt; spend(&rt, heap, &unclosed)?, (None, Some(0)));
    Ok(())
}

#[test]
fn a_day_ends_unless_it_is_made(rt: HostRuntime) -> Result<(), Fail> {
    let heap = rt.alloc();
    for rule in [0, 3, 4294967295] {
        ended(&rt, heap, make(3, rule), by_day(1, Refusal::BadConfig))?;
        ended(&rt, heap, make(1, rule), by_day(1, Refusal::BadConfig))?;
    }
    for rule in [1, 2] {
        ended(&rt, heap, make(1, rule), by_session(1, Refusal::BadConfig))?;
        ended(&rt, heap, make(17, rule), by_session(1, Refusal::BadConfig))?;
    }
    for event in [
        FIRST,
        Event::Bell,
        Event::Clock { time: 3060000 },
        Event::Close,
    ] {
        ended(&rt, heap, Record::Of(event), by_day(1, Refusal::OutOfTurn))?;
    }
    ended(&rt, heap, Record::Wrong(0), no_record(1, 0))?;
    ended(&rt, heap, Record::Long(23), no_length(1, 23))
}

const NUMBERS: [(Refusal, u8); 18] = [
    (Refusal::UnlawfulBook, 1),
    (Refusal::Halted, 2),
    (Refusal::UnknownDealer, 3),
    (Refusal::PriceOutOfRange, 4),
    (Refusal::QuantityOutOfRange, 5),
    (Refusal::BadSpread, 6),
    (Refusal::OutsideOrderRange, 7),
    (Refusal::ListFull, 8),
    (Refusal::TapeFull, 9),
    (Refusal::NoSuchOrder, 10),
    (Refusal::LacksQuote, 11),
    (Refusal::AlreadyReached, 12),
    (Refusal::BeyondOwnQuote, 13),
    (Refusal::ClockOutOfRange, 14),
    (Refusal::BadConfig, 15),
    (Refusal::BadAmount, 16),
    (Refusal::OutOfTurn, 18),
    (Refusal::NoQuote, 19),
];

#[test]
fn each_refusal_has_its_number(rt: HostRuntime) {
    for (refusal, number) in NUMBERS {
        assert_eq!(rt; Fault::Day { place: 1, refusal }.number(), number);
        assert_eq!(rt; Fault::Session { place: 1, refusal }.number(), number);
    }
    let malformed = Malformed::Byte { place: 1 };
    let reader = Fault::Reader {
        place: 1,
        malformed,
    };
    assert_eq!(rt; reader.number(), 17);
}
