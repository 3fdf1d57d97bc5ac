// The plain types of one security's day on the emerging board.
#![tactic(auto)]

ghost use Rattle.std.specs.Prelude.{◌≡◌};
ghost use Rattle.market.specs.Precedence.{quote_key, order_key};
ghost use Rattle.market.specs.Outcomes.{refusal_number};

// Which way a customer's order goes. Among quotes, Buy is a bid and Sell is an ask.
#[derive(Clone, Copy, PartialEq, Eq, Debug)]
pub enum Side {
    Buy,
    Sell,
}

// A dealer's price for one side. `live` is what is left of `entered`;
// `arrival` is the place on the tape, from 1, of the record that made it.
#[derive(Clone, Copy, PartialEq, Eq, Debug)]
pub struct Quote {
    pub dealer: u8,
    pub price: u32,
    pub entered: u32,
    pub live: u32,
    pub arrival: u32,
}

// A customer's order. `left` is what is still open of `entered`;
// `number` is the place on the tape, from 1, of the record that made it.
#[derive(Clone, Copy, PartialEq, Eq, Debug)]
pub struct Order {
    pub number: u32,
    pub price: u32,
    pub entered: u32,
    pub left: u32,
}

// What a rule of precedence reads of a quote: all but what is left of it.
#[derive(Clone, Copy)]
pub struct QuoteKey {
    pub dealer: u8,
    pub price: u32,
    pub entered: u32,
    pub arrival: u32,
}

// What a rule of precedence reads of an order: all but what is left of it.
#[derive(Clone, Copy)]
pub struct OrderKey {
    pub number: u32,
    pub price: u32,
    pub entered: u32,
}

impl Quote {
    pub fn key(&self) -> QuoteKey
        ensures { result ≡ quote_key self.now }
    {
        QuoteKey {
            dealer: self.dealer,
            price: self.price,
            entered: self.entered,
            arrival: self.arrival,
        }
    }
}

impl Order {
    pub fn key(&self) -> OrderKey
        ensures { result ≡ order_key self.now }
    {
        OrderKey {
            number: self.number,
            price: self.price,
            entered: self.entered,
        }
    }
}

// What a session is made from. The numbers are as they were handed in: the making says whether they are allowed.
#[derive(Clone, Copy, PartialEq, Eq, Debug)]
pub struct Config {
    // Dealers go by the numbers from 1 to this one.
    pub dealers: u8,
    // What each side of a quote is entered with at the least.
    pub least_quantity: u32,
    // The previous day's weighted average price.
    pub previous_average: u32,
    // 0 for an ordinary day; 1 to 4 for the days that are not. A number and no enum, since a reader takes any number there.
    pub day_kind: u32,
}

// Both prices of a dealer with their quantities, as it enters them.
#[derive(Clone, Copy, PartialEq, Eq, Debug)]
pub struct Pair {
    pub bid: u32,
    pub bid_quantity: u32,
    pub ask: u32,
    pub ask_quantity: u32,
}

// What can be asked of a day, one kind for each record of an event file.
// The numbers are as the record has them: whether they are allowed is for the session to say.
#[derive(Clone, Copy, PartialEq, Eq, Debug)]
pub enum Event {
    // Makes the session, under the rule of precedence of this number.
    Make {
        config: Config,
        rule: u32,
    },
    // Sets the clock, in hundredths of a second since midnight.
    Clock {
        time: u32,
    },
    // Replaces a dealer's bid and ask.
    Quote {
        dealer: u8,
        pair: Pair,
    },
    // Takes a dealer's quotes away.
    Withdraw {
        dealer: u8,
    },
    // Opens trading.
    Bell,
    Order {
        side: Side,
        price: u32,
        quantity: u32,
    },
    // Takes back an order; the amount 0 stands for all that is open.
    Cancel {
        number: u32,
        amount: u32,
    },
    // A dealer takes the order of this number, and all of better price with it.
    Click {
        dealer: u8,
        number: u32,
    },
    Close,
}

// One trade: an order met by a dealer's quote of the other side, at the quote's price.
#[derive(Clone, Copy, PartialEq, Eq, Debug)]
pub struct Trade {
    pub time: u32,
    // The order's side.
    pub side: Side,
    pub dealer: u8,
    // The order's number.
    pub number: u32,
    pub price: u32,
    pub quantity: u32,
    // The quote's arrival number.
    pub arrival: u32,
}

// What the tape tells of a day, each with the clock's time.
#[derive(Clone, Copy, PartialEq, Eq, Debug)]
pub enum TapeRecord {
    Quote {
        time: u32,
        dealer: u8,
        pair: Pair,
    },
    Withdrawal {
        time: u32,
        dealer: u8,
    },
    Order {
        time: u32,
        side: Side,
        price: u32,
        quantity: u32,
    },
    Cancellation {
        time: u32,
        side: Side,
        number: u32,
        quantity: u32,
    },
    // `taken` are the shares that the click filled by name or by better price, of the `entered` that the quote was made with.
    Click {
        time: u32,
        dealer: u8,
        side: Side,
        number: u32,
        price: u32,
        taken: u32,
        entered: u32,
    },
    Trade(Trade),
    // A dealer did not restore its quotes by the time `missed`.
    Late {
        time: u32,
        dealer: u8,
        missed: u32,
    },
    // The average ran away: 1 upward, 2 downward. A number and no enum, since a reader takes any number there.
    Halt {
        time: u32,
        direction: u32,
    },
}

// How a dealer stands to its duty to quote both sides.
#[derive(Clone, Copy, PartialEq, Eq, Debug)]
pub enum Duty {
    InOrder,
    // Too little is left on a side; the dealer has until this time to restore it.
    Short { until: u32 },
    Late,
}

// What an accepted event answers.
#[derive(Clone, Copy, PartialEq, Eq, Debug)]
pub enum Answer {
    Made,
    // The shares that the new ask sold, and those that the new bid bought.
    Quoted { by_ask: u32, by_bid: u32 },
    Withdrawn,
    Rung,
    Ordered { number: u32, filled: u32 },
    Cancelled { shares: u32 },
    Clicked { shares: u32 },
    // How many dealers became late.
    Stepped { late: u32 },
    Closed,
}

// Why an event is refused.
#[derive(Clone, Copy, PartialEq, Eq, Debug)]
pub enum Refusal {
    UnlawfulBook = 1,
    Halted = 2,
    UnknownDealer = 3,
    PriceOutOfRange = 4,
    QuantityOutOfRange = 5,
    BadSpread = 6,
    OutsideOrderRange = 7,
    ListFull = 8,
    TapeFull = 9,
    NoSuchOrder = 10,
    LacksQuote = 11,
    AlreadyReached = 12,
    BeyondOwnQuote = 13,
    ClockOutOfRange = 14,
    BadConfig = 15,
    BadAmount = 16,
    OutOfTurn = 18,
    NoQuote = 19,
}

impl Refusal {
    // The number that it goes by.
    pub fn number(&self) -> u8
        ensures { result ≡ refusal_number self.now }
    {
        *self as u8
    }
}

// What a day came to: the shares traded, the sum of price times quantity over the trades, and the average price.
#[derive(Clone, Copy, PartialEq, Eq, Debug)]
pub struct Summary {
    pub shares: u64,
    pub value: u64,
    pub average: u64,
}
