// Limits that several parts of the engine test.
ghost use Rattle.std.specs.Prelude.{◌≡◌};
ghost use Rattle.market.specs.State.{within, is_price};

// What an order entered for a multiple of it trades in multiples of, and what a dealer must have left on each side.
pub const LOT: u32 = 1_000;

pub const HIGHEST_PRICE: u32 = 999_999;

// The largest order, and the most that is entered or live on a side of a quote.
pub const LARGEST_QUANTITY: u32 = 1_000_000;

pub fn is_within(low: u32, high: u32, n: u32) -> bool
    ensures { result ≡ within low high n }
{
    (low..=high).contains(&n)
}

pub fn is_price(price: u32) -> bool
    ensures { result ≡ is_price price }
{
    is_within(1, HIGHEST_PRICE, price)
}
