// Event records.
use crate::tables::{self, Case};
use market::{Config, Event, Pair, Side};
use records::{Malformed, read};

const CASES: [Case<Event>; 10] = [
    Case {
        value: Event::Make {
            config: Config {
                dealers: 2,
                least_quantity: 2000,
                previous_average: 5000,
                day_kind: 4,
            },
            rule: 1,
        },
        bytes: *b"M-\x02\x00\x00\x00\x00\x00\x00\x00\x07\xd0\x00\x00\x13\x88\x00\x00\x00\x04\x00\x00\x00\x01",
        judged: *b"##.#####................",
    },
    Case {
        value: Event::Clock { time: 3258001 },
        bytes: *b"N-\x00\x00\x00\x31\xb6\x91\x00\x00\x00\x00\x00\x00\x00\x00\x00\x00\x00\x00\x00\x00\x00\x00",
        judged: *b"####....################",
    },
    Case {
        value: Event::Quote {
            dealer: 255,
            pair: Pair {
                bid: 4900,
                bid_quantity: 2000,
                ask: 5000,
                ask_quantity: 4294967295,
            },
        },
        bytes: *b"Q-\xff\x00\x00\x00\x00\x00\x00\x00\x13\x24\x00\x00\x07\xd0\x00\x00\x13\x88\xff\xff\xff\xff",
        judged: *b"##.#####................",
    },
    Case {
        value: Event::Withdraw { dealer: 16 },
        bytes: *b"W-\x10\x00\x00\x00\x00\x00\x00\x00\x00\x00\x00\x00\x00\x00\x00\x00\x00\x00\x00\x00\x00\x00",
        judged: *b"##.#####################",
    },
    Case {
        value: Event::Bell,
        bytes: *b"B-\x00\x00\x00\x00\x00\x00\x00\x00\x00\x00\x00\x00\x00\x00\x00\x00\x00\x00\x00\x00\x00\x00",
        judged: *b"########################",
    },
    Case {
        value: Event::Order {
            side: Side::Buy,
            price: 4900,
            quantity: 4000,
        },
        bytes: *b"OB\x00\x00\x00\x00\x00\x00\x00\x00\x13\x24\x00\x00\x0f\xa0\x00\x00\x00\x00\x00\x00\x00\x00",
        judged: *b"########........########",
    },
    Case {
        value: Event::Order {
            side: Side::Sell,
            price: 16909060,
            quantity: 84281096,
        },
        bytes: *b"OS\x00\x00\x00\x00\x00\x00\x01\x02\x03\x04\x05\x06\x07\x08\x00\x00\x00\x00\x00\x00\x00\x00",
        judged: *b"########........########",
    },
    Case {
        value: Event::Cancel {
            number: 3,
            amount: 0,
        },
        bytes: *b"C-\x00\x00\x00\x00\x00\x00\x00\x00\x00\x03\x00\x00\x00\x00\x00\x00\x00\x00\x00\x00\x00\x00",
        judged: *b"########........########",
    },
    Case {
        value: Event::Click {
            dealer: 1,
            number: 6,
        },
        bytes: *b"K-\x01\x00\x00\x00\x00\x00\x00\x00\x00\x06\x00\x00\x00\x00\x00\x00\x00\x00\x00\x00\x00\x00",
        judged: *b"##.#####....############",
    },
    Case {
        value: Event::Close,
        bytes: *b"E-\x00\x00\x00\x00\x00\x00\x00\x00\x00\x00\x00\x00\x00\x00\x00\x00\x00\x00\x00\x00\x00\x00",
        judged: *b"########################",
    },
];

#[test]
fn each_kind_writes_and_reads(rt: HostRuntime) {
    assert_eq!(rt; tables::not_both_ways(&CASES), None);
}

#[test]
fn each_byte_is_judged(rt: HostRuntime) {
    assert_eq!(rt; tables::not_judged(&CASES), None);
}

// Of two wrong bytes the first counts, a letter of the other format is none here, and a side belongs to an order alone.
#[test]
fn the_first_wrong_byte_counts(rt: HostRuntime) {
    let order = b"OX\0\x01\0\0\0\x01\0\0\x13\x24\0\0\x0f\xa0\0\0\0\0\0\0\0\x01";
    assert_eq!(rt; read::<Event>(order), Err(Malformed::Byte { place: 1 }));
    let bell = b"BB\x01\0\0\0\0\0\0\0\0\0\0\0\0\0\0\0\0\0\0\0\0\0";
    assert_eq!(rt; read::<Event>(bell), Err(Malformed::Byte { place: 1 }));
    let trade = b"TX\x01\x01\0\0\0\0\0\0\0\0\0\0\0\0\0\0\0\0\0\0\0\0";
    assert_eq!(rt; read::<Event>(trade), Err(Malformed::Byte { place: 0 }));
    let order = b"O-\0\0\0\0\0\0\0\0\x13\x24\0\0\x0f\xa0\0\0\0\0\0\0\0\0";
    assert_eq!(rt; read::<Event>(order), Err(Malformed::Byte { place: 1 }));
}

#[test]
fn the_length_counts_before_any_byte(rt: HostRuntime) {
    assert_eq!(rt; tables::length_not_first::<Event>(), None);
}
