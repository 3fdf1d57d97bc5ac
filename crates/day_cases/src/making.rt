// Making a session: each limit, from both sides.
use crate::stores::{ALL_LATE, NO_ORDER, NO_QUOTE, NO_RECORD};
use book::duties::Duties;
use book::memory::Memory;
use market::{Config, Duty, Refusal};
use session::states::PreOpen;
use std::alloc::{AllocError, Global};
use std::test::Fail;

// How many places there are for bids, asks, buys, sells and the tape.
type PlaceCounts = [usize; 5];

// The numbers of the making (dealers, least quantity, previous average, kind of day), the lengths, and whether they are allowed.
type Row = (u8, u32, u32, u32, PlaceCounts, bool);

const USUAL: PlaceCounts = [16, 16, 2, 3, 64];

const ROWS: [Row; 44] = [
    (0, 1000, 5000, 0, USUAL, false),
    (1, 1000, 5000, 0, USUAL, false),
    (2, 1000, 5000, 0, USUAL, true),
    (16, 1000, 5000, 0, USUAL, true),
    (17, 1000, 5000, 0, USUAL, false),
    (255, 1000, 5000, 0, USUAL, false),
    (2, 0, 5000, 0, USUAL, false),
    (2, 999, 5000, 0, USUAL, false),
    (2, 1001, 5000, 0, USUAL, false),
    (2, 1500, 5000, 0, USUAL, false),
    (2, 2000, 5000, 0, USUAL, true),
    (2, 99999, 5000, 0, USUAL, false),
    (2, 100000, 5000, 0, USUAL, true),
    (2, 100001, 5000, 0, USUAL, false),
    (2, 101000, 5000, 0, USUAL, false),
    (2, 1000, 0, 0, USUAL, true),
    (2, 1000, 999999, 0, USUAL, true),
    (2, 1000, 1000000, 0, USUAL, false),
    (2, 1000, 4294967295, 0, USUAL, false),
    (2, 1000, 5000, 1, USUAL, true),
    (2, 1000, 5000, 4, USUAL, true),
    (2, 1000, 5000, 5, USUAL, false),
    (2, 1000, 5000, 4294967295, USUAL, false),
    (2, 1000, 5000, 0, [0, 16, 2, 3, 64], false),
    (2, 1000, 5000, 0, [15, 16, 2, 3, 64], false),
    (2, 1000, 5000, 0, [17, 16, 2, 3, 64], false),
    (2, 1000, 5000, 0, [16, 0, 2, 3, 64], false),
    (2, 1000, 5000, 0, [16, 15, 2, 3, 64], false),
    (2, 1000, 5000, 0, [16, 17, 2, 3, 64], false),
    (2, 1000, 5000, 0, [16, 16, 0, 3, 64], false),
    (2, 1000, 5000, 0, [16, 16, 1, 3, 64], true),
    (2, 1000, 5000, 0, [16, 16, 256, 3, 64], true),
    (2, 1000, 5000, 0, [16, 16, 257, 3, 64], false),
    (2, 1000, 5000, 0, [16, 16, 2, 0, 64], false),
    (2, 1000, 5000, 0, [16, 16, 2, 1, 64], true),
    (2, 1000, 5000, 0, [16, 16, 2, 256, 64], true),
    (2, 1000, 5000, 0, [16, 16, 2, 257, 64], false),
    (2, 1000, 5000, 0, [16, 16, 2, 3, 0], false),
    (2, 1000, 5000, 0, [16, 16, 2, 3, 63], false),
    (2, 1000, 5000, 0, [16, 16, 2, 3, 65536], true),
    (2, 1000, 5000, 0, [16, 16, 2, 3, 65537], false),
    (16, 100000, 999999, 4, [16, 16, 256, 256, 65536], true),
    (2, 1000, 0, 0, [16, 16, 1, 1, 64], true),
    (17, 101000, 1000000, 5, [17, 17, 257, 257, 65537], false),
];

const ALL_IN_ORDER: Duties = Duties {
    states: [Duty::InOrder; 16],
};

// What comes of a making in memory with these lengths, and the duties then.
fn make(
    heap: Global,
    config: Config,
    lengths: PlaceCounts,
) -> Result<(Option<Refusal>, Duties), AllocError> {
    let mut bids = vec![in heap; NO_QUOTE; lengths[0]]?;
    let mut asks = vec![in heap; NO_QUOTE; lengths[1]]?;
    let mut buys = vec![in heap; NO_ORDER; lengths[2]]?;
    let mut sells = vec![in heap; NO_ORDER; lengths[3]]?;
    let mut tape = vec![in heap; NO_RECORD; lengths[4]]?;
    let mut duties = ALL_LATE;
    let mut memory = Memory {
        bids: bids.as_mut_slice(),
        asks: asks.as_mut_slice(),
        buys: buys.as_mut_slice(),
        sells: sells.as_mut_slice(),
        duties: &mut duties,
        tape: tape.as_mut_slice(),
    };
    match PreOpen::new(config, &mut memory) {
        Ok(session) => {
            session.abandon();
            Ok((None, *memory.duties))
        }
        Err(refusal) => Ok((Some(refusal), *memory.duties)),
    }
}

#[test]
fn each_limit_of_a_making(rt: HostRuntime) -> Result<(), Fail> {
    for (place, row) in ROWS.iter().enumerate() {
        let (dealers, least_quantity, previous_average, day_kind, lengths, allowed) = *row;
        let config = Config {
            dealers,
            least_quantity,
            previous_average,
            day_kind,
        };
        let made = make(rt.alloc(), config, lengths)?;
        let right = if allowed {
            (None, ALL_IN_ORDER)
        } else {
            (Some(Refusal::BadConfig), ALL_LATE)
        };
        assert_eq!(rt; made, right, "row {place}");
    }
    Ok(())
}
