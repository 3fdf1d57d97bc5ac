// Withdrawals, clock steps, turns, duties and full tapes, in runs of events.
use crate::stores::{FIRST, NO_RECORD, QUOTED, Ran, SECOND, STEPPED, Step, play};
use day::running::Outcome;
use market::{Answer, Config, Duty, Event, Pair, Refusal, Side, Summary, TapeRecord};
use precedence::rules::{Size, Time};
use std::alloc::Global;
use std::process::Abort;
use std::test::Fail;

const OUT_OF_TURN: Outcome = Err(Refusal::OutOfTurn);

const OUT_OF_TIME: Outcome = Err(Refusal::ClockOutOfRange);

const TAPE_FULL: Outcome = Err(Refusal::TapeFull);

const WITHDRAWALS: [Step; 19] = [
    (Event::Withdraw { dealer: 1 }, Err(Refusal::NoQuote)),
    (Event::Withdraw { dealer: 0 }, Err(Refusal::UnknownDealer)),
    (FIRST, QUOTED),
    (Event::Withdraw { dealer: 3 }, Err(Refusal::NoQuote)),
    (Event::Withdraw { dealer: 4 }, Err(Refusal::UnknownDealer)),
    (Event::Withdraw { dealer: 255 }, Err(Refusal::UnknownDealer)),
    (Event::Withdraw { dealer: 1 }, Ok(Answer::Withdrawn)),
    (Event::Withdraw { dealer: 1 }, Err(Refusal::NoQuote)),
    (SECOND, QUOTED),
    (FIRST, QUOTED),
    (Event::Bell, Ok(Answer::Rung)),
    (Event::Withdraw { dealer: 0 }, Err(Refusal::UnknownDealer)),
    (Event::Withdraw { dealer: 4 }, Err(Refusal::UnknownDealer)),
    (Event::Withdraw { dealer: 3 }, Err(Refusal::NoQuote)),
    (Event::Withdraw { dealer: 2 }, Ok(Answer::Withdrawn)),
    (Event::Withdraw { dealer: 2 }, Err(Refusal::NoQuote)),
    (Event::Withdraw { dealer: 1 }, Ok(Answer::Withdrawn)),
    (Event::Withdraw { dealer: 1 }, Err(Refusal::NoQuote)),
    (Event::Close, Ok(Answer::Closed)),
];

const CLOCKS: [Step; 19] = [
    (Event::Clock { time: 0 }, OUT_OF_TIME),
    (Event::Clock { time: 3059999 }, OUT_OF_TIME),
    (Event::Clock { time: 3060000 }, STEPPED),
    (FIRST, QUOTED),
    (SECOND, QUOTED),
    (Event::Clock { time: 3060001 }, STEPPED),
    (Event::Clock { time: 3060000 }, OUT_OF_TIME),
    (Event::Clock { time: 3240000 }, OUT_OF_TIME),
    (Event::Clock { time: 3239999 }, STEPPED),
    (Event::Clock { time: 3239998 }, OUT_OF_TIME),
    (Event::Bell, Ok(Answer::Rung)),
    (Event::Clock { time: 3239999 }, OUT_OF_TIME),
    (Event::Clock { time: 3240000 }, STEPPED),
    (Event::Clock { time: 5400001 }, OUT_OF_TIME),
    (Event::Clock { time: 4294967295 }, OUT_OF_TIME),
    (
        Event::Clock { time: 5399999 },
        Ok(Answer::Stepped { late: 1 }),
    ),
    (Event::Clock { time: 5400000 }, STEPPED),
    (Event::Clock { time: 5400000 }, STEPPED),
    (Event::Clock { time: 5399999 }, OUT_OF_TIME),
];

const MAKE: Event = Event::Make {
    config: Config {
        dealers: 3,
        least_quantity: 2000,
        previous_average: 5000,
        day_kind: 0,
    },
    rule: 1,
};

const ORDER: Event = Event::Order {
    side: Side::Buy,
    price: 4900,
    quantity: 1000,
};

const CANCEL: Event = Event::Cancel {
    number: 1,
    amount: 0,
};

const CLICK: Event = Event::Click {
    dealer: 1,
    number: 1,
};

const TURNS: [Step; 25] = [
    (MAKE, OUT_OF_TURN),
    (ORDER, OUT_OF_TURN),
    (CANCEL, OUT_OF_TURN),
    (CLICK, OUT_OF_TURN),
    (Event::Close, OUT_OF_TURN),
    (FIRST, QUOTED),
    (Event::Close, OUT_OF_TURN),
    (Event::Bell, Ok(Answer::Rung)),
    (MAKE, OUT_OF_TURN),
    (FIRST, OUT_OF_TURN),
    (Event::Bell, OUT_OF_TURN),
    (ORDER, OUT_OF_TURN),
    (CANCEL, OUT_OF_TURN),
    (CLICK, OUT_OF_TURN),
    (Event::Withdraw { dealer: 1 }, Ok(Answer::Withdrawn)),
    (Event::Close, Ok(Answer::Closed)),
    (MAKE, OUT_OF_TURN),
    (Event::Clock { time: 5400000 }, OUT_OF_TURN),
    (FIRST, OUT_OF_TURN),
    (Event::Withdraw { dealer: 0 }, OUT_OF_TURN),
    (Event::Bell, OUT_OF_TURN),
    (ORDER, OUT_OF_TURN),
    (CANCEL, OUT_OF_TURN),
    (CLICK, OUT_OF_TURN),
    (Event::Close, OUT_OF_TURN),
];

const NOTHING: Summary = Summary {
    shares: 0,
    value: 0,
    average: 0,
};

// Only a closed session has a summary.
#[test]
fn withdrawals_clocks_and_turns(rt: HostRuntime) -> Result<(), Fail> {
    let heap = rt.alloc();
    for (steps, summary) in [
        (&WITHDRAWALS[..], Some(NOTHING)),
        (&CLOCKS[..], None),
        (&TURNS[..], Some(NOTHING)),
        (&TURNS[0..6], None),
    ] {
        assert_eq!(rt; play(&rt, heap, &Time, 3, steps)?.summary, summary);
        assert_eq!(rt; play(&rt, heap, &Size, 3, steps)?.summary, summary);
    }
    Ok(())
}

// An event, what comes of it, and the duties of dealers 1 to 4 after it, of whom 3 take part.
type Row = (Event, Outcome, [Duty; 4]);

const IN: Duty = Duty::InOrder;

const FROM_BELL: Duty = Duty::Short { until: 3258000 };

const FROM_WITHDRAWAL: Duty = Duty::Short { until: 3268000 };

const DUTIES: [Row; 13] = [
    (FIRST, QUOTED, [IN, IN, IN, IN]),
    (Event::Clock { time: 3239999 }, STEPPED, [IN, IN, IN, IN]),
    (
        Event::Bell,
        Ok(Answer::Rung),
        [IN, FROM_BELL, FROM_BELL, IN],
    ),
    (
        Event::Clock { time: 3250000 },
        STEPPED,
        [IN, FROM_BELL, FROM_BELL, IN],
    ),
    (
        Event::Withdraw { dealer: 1 },
        Ok(Answer::Withdrawn),
        [FROM_WITHDRAWAL, FROM_BELL, FROM_BELL, IN],
    ),
    (
        Event::Clock { time: 3258000 },
        STEPPED,
        [FROM_WITHDRAWAL, FROM_BELL, FROM_BELL, IN],
    ),
    (
        Event::Clock { time: 3258001 },
        Ok(Answer::Stepped { late: 2 }),
        [FROM_WITHDRAWAL, Duty::Late, Duty::Late, IN],
    ),
    (
        Event::Withdraw { dealer: 1 },
        Err(Refusal::NoQuote),
        [FROM_WITHDRAWAL, Duty::Late, Duty::Late, IN],
    ),
    (
        Event::Clock { time: 3268000 },
        STEPPED,
        [FROM_WITHDRAWAL, Duty::Late, Duty::Late, IN],
    ),
    (
        Event::Clock { time: 5400001 },
        OUT_OF_TIME,
        [FROM_WITHDRAWAL, Duty::Late, Duty::Late, IN],
    ),
    (
        Event::Clock { time: 3268002 },
        Ok(Answer::Stepped { late: 1 }),
        [Duty::Late, Duty::Late, Duty::Late, IN],
    ),
    (
        Event::Clock { time: 5400000 },
        STEPPED,
        [Duty::Late, Duty::Late, Duty::Late, IN],
    ),
    (
        Event::Close,
        Ok(Answer::Closed),
        [Duty::Late, Duty::Late, Duty::Late, IN],
    ),
];

const TOLD: [TapeRecord; 6] = [
    TapeRecord::Quote {
        time: 3060000,
        dealer: 1,
        pair: Pair {
            bid: 4900,
            bid_quantity: 2000,
            ask: 5000,
            ask_quantity: 3000,
        },
    },
    TapeRecord::Withdrawal {
        time: 3250000,
        dealer: 1,
    },
    TapeRecord::Late {
        time: 3258001,
        dealer: 2,
        missed: 3258000,
    },
    TapeRecord::Late {
        time: 3258001,
        dealer: 3,
        missed: 3258000,
    },
    TapeRecord::Late {
        time: 3268002,
        dealer: 1,
        missed: 3268000,
    },
    NO_RECORD,
];

#[test]
fn duties_after_each_event(rt: HostRuntime) -> Result<(), Fail> {
    let heap = rt.alloc();
    let mut steps = Vec::new(heap);
    for (event, outcome, duties) in DUTIES {
        steps.push((event, outcome))?;
        let states = play(&rt, heap, &Time, 3, steps.as_slice())?
            .store
            .duties
            .states;
        assert_eq!(rt; [states[0], states[1], states[2], states[3]], duties);
    }
    let ran = play(&rt, heap, &Size, 3, steps.as_slice())?;
    assert_eq!(rt; ran.store.tape.get(..6), Some(&TOLD[..]));
    Ok(())
}

// Plays 62 quotes of dealer 1, and then the steps: the tape has 2 free places before the first of them.
fn play_filled(rt: &impl Abort, heap: Global, dealers: u8, rest: &[Step]) -> Result<Ran, Fail> {
    let mut steps = vec![in heap; (FIRST, QUOTED); 62]?;
    steps.extend_from_slice(rest)?;
    play(rt, heap, &Time, dealers, steps.as_slice())
}

const TOO_WIDE: Event = Event::Quote {
    dealer: 2,
    pair: Pair {
        bid: 4000,
        bid_quantity: 2000,
        ask: 5000,
        ask_quantity: 2000,
    },
};

// Of 2 dealers.
const FILLED: [Step; 17] = [
    (SECOND, QUOTED),
    (SECOND, TAPE_FULL),
    (TOO_WIDE, Err(Refusal::BadSpread)),
    (Event::Withdraw { dealer: 2 }, Ok(Answer::Withdrawn)),
    (Event::Withdraw { dealer: 1 }, TAPE_FULL),
    (Event::Withdraw { dealer: 2 }, Err(Refusal::NoQuote)),
    (Event::Withdraw { dealer: 3 }, Err(Refusal::UnknownDealer)),
    (SECOND, TAPE_FULL),
    (Event::Clock { time: 3239999 }, STEPPED),
    (Event::Bell, Ok(Answer::Rung)),
    (Event::Withdraw { dealer: 1 }, TAPE_FULL),
    (Event::Withdraw { dealer: 2 }, Err(Refusal::NoQuote)),
    (Event::Clock { time: 3258000 }, STEPPED),
    (Event::Clock { time: 3258001 }, TAPE_FULL),
    (Event::Clock { time: 3257999 }, OUT_OF_TIME),
    (Event::Clock { time: 5400001 }, OUT_OF_TIME),
    (Event::Close, Ok(Answer::Closed)),
];

// One dealer late, with one free place.
const ONE_LATE: [Step; 5] = [
    (FIRST, QUOTED),
    (FIRST, TAPE_FULL),
    (Event::Bell, Ok(Answer::Rung)),
    (
        Event::Clock { time: 3258001 },
        Ok(Answer::Stepped { late: 1 }),
    ),
    (Event::Withdraw { dealer: 1 }, TAPE_FULL),
];

// Two dealers late, with one free place.
const TWO_LATE: [Step; 5] = [
    (FIRST, QUOTED),
    (Event::Bell, Ok(Answer::Rung)),
    (Event::Clock { time: 3258001 }, TAPE_FULL),
    (Event::Clock { time: 3258000 }, STEPPED),
    (Event::Withdraw { dealer: 1 }, Ok(Answer::Withdrawn)),
];

#[test]
fn the_tape_fills_up(rt: HostRuntime) -> Result<(), Fail> {
    let heap = rt.alloc();
    let told = play_filled(&rt, heap, 2, &FILLED)?
        .store
        .tape
        .last()
        .copied();
    let withdrawn = TapeRecord::Withdrawal {
        time: 3060000,
        dealer: 2,
    };
    assert_eq!(rt; told, Some(withdrawn));
    let told = play_filled(&rt, heap, 2, &ONE_LATE)?
        .store
        .tape
        .last()
        .copied();
    let late = TapeRecord::Late {
        time: 3258001,
        dealer: 2,
        missed: 3258000,
    };
    assert_eq!(rt; told, Some(late));
    let told = play_filled(&rt, heap, 3, &TWO_LATE)?
        .store
        .tape
        .last()
        .copied();
    let withdrawn = TapeRecord::Withdrawal {
        time: 3258000,
        dealer: 1,
    };
    assert_eq!(rt; told, Some(withdrawn));
    Ok(())
}
