// Tape records.
use crate::tables::{self, Case};
use market::{Pair, Side, TapeRecord, Trade};
use records::{Malformed, read};

const CASES: [Case<TapeRecord>; 8] = [
    Case {
        value: TapeRecord::Quote {
            time: 3060000,
            dealer: 1,
            pair: Pair {
                bid: 4900,
                bid_quantity: 2000,
                ask: 5000,
                ask_quantity: 3000,
            },
        },
        bytes: *b"Q-\x01\x00\x00\x2e\xb1\x20\x00\x00\x13\x24\x00\x00\x07\xd0\x00\x00\x13\x88\x00\x00\x0b\xb8",
        judged: *b"##.#....................",
    },
    Case {
        value: TapeRecord::Withdrawal {
            time: 3060000,
            dealer: 2,
        },
        bytes: *b"W-\x02\x00\x00\x2e\xb1\x20\x00\x00\x00\x00\x00\x00\x00\x00\x00\x00\x00\x00\x00\x00\x00\x00",
        judged: *b"##.#....################",
    },
    Case {
        value: TapeRecord::Order {
            time: 3240000,
            side: Side::Sell,
            price: 4900,
            quantity: 4000,
        },
        bytes: *b"OS\x00\x00\x00\x31\x70\x40\x00\x00\x13\x24\x00\x00\x0f\xa0\x00\x00\x00\x00\x00\x00\x00\x00",
        judged: *b"####............########",
    },
    Case {
        value: TapeRecord::Cancellation {
            time: 3240000,
            side: Side::Buy,
            number: 3,
            quantity: 500,
        },
        bytes: *b"CB\x00\x00\x00\x31\x70\x40\x00\x00\x00\x03\x00\x00\x01\xf4\x00\x00\x00\x00\x00\x00\x00\x00",
        judged: *b"####............########",
    },
    Case {
        value: TapeRecord::Click {
            time: 3240000,
            dealer: 1,
            side: Side::Sell,
            number: 6,
            price: 2850,
            taken: 1500,
            entered: 3000,
        },
        bytes: *b"KS\x01\x00\x00\x31\x70\x40\x00\x00\x00\x06\x00\x00\x0b\x22\x00\x00\x05\xdc\x00\x00\x0b\xb8",
        judged: *b"##.#....................",
    },
    Case {
        value: TapeRecord::Trade(Trade {
            time: 3240000,
            side: Side::Sell,
            dealer: 2,
            number: 3,
            price: 4920,
            quantity: 2000,
            arrival: 2,
        }),
        bytes: *b"TS\x02\x00\x00\x31\x70\x40\x00\x00\x00\x03\x00\x00\x13\x38\x00\x00\x07\xd0\x00\x00\x00\x02",
        judged: *b"##.#....................",
    },
    Case {
        value: TapeRecord::Late {
            time: 3258001,
            dealer: 1,
            missed: 3258000,
        },
        bytes: *b"L-\x01\x00\x00\x31\xb6\x91\x00\x31\xb6\x90\x00\x00\x00\x00\x00\x00\x00\x00\x00\x00\x00\x00",
        judged: *b"##.#........############",
    },
    Case {
        value: TapeRecord::Halt {
            time: 3240000,
            direction: 2,
        },
        bytes: *b"H-\x00\x00\x00\x31\x70\x40\x00\x00\x00\x02\x00\x00\x00\x00\x00\x00\x00\x00\x00\x00\x00\x00",
        judged: *b"####........############",
    },
];

#[test]
fn each_kind_writes_and_reads(rt: HostRuntime) {
    assert_eq!(rt; tables::not_both_ways(&CASES), None);
}

#[test]
fn each_byte_is_judged(rt: HostRuntime) {
    assert_eq!(rt; tables::not_judged(&CASES), None);
}

#[test]
fn the_first_wrong_byte_counts(rt: HostRuntime) {
    let trade = b"T-\x01\x01\0\0\0\0\0\0\0\0\0\0\0\0\0\0\0\0\0\0\0\0";
    assert_eq!(rt;
        read::<TapeRecord>(trade),
        Err(Malformed::Byte { place: 1 })
    );
    let making = b"MB\x01\x01\0\0\0\0\0\0\0\0\0\0\0\0\0\0\0\0\0\0\0\0";
    assert_eq!(rt;
        read::<TapeRecord>(making),
        Err(Malformed::Byte { place: 0 })
    );
}

#[test]
fn the_length_counts_before_any_byte(rt: HostRuntime) {
    assert_eq!(rt; tables::length_not_first::<TapeRecord>(), None);
}
