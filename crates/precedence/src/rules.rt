// What a rule of precedence is, and two of them.
ghost use Rattle.std.specs.Prelude.{◌≡◌, Bool};
ghost use Rattle.market.specs.Prices.{better_price};
ghost use Rattle.market.specs.Precedence.{QuotePrecedence, OrderPrecedence, LawfulQuotes, LawfulOrders, by_price, by_quantity, time_quotes, time_orders, size_quotes, size_orders};
ghost use Rattle.std.proofs.Common.{rules};

use market::{OrderKey, QuoteKey, Side};

// Tells which of two quotes of one side comes first, and which of two orders of one side.
// The ghost members are its meaning, the methods answer exactly by them, and the laws are owed by each `impl`:
// whatever is proved for every `R: Rule` is proved for every lawful rule, and for no other.
pub trait Rule {
    ghost quotes: { Self → QuotePrecedence };

    ghost orders: { Self → OrderPrecedence };

    fn quote_precedes(&self, side: Side, a: &QuoteKey, b: &QuoteKey) -> bool
        ensures { result ≡ (quotes self.now).quote_first side a.now b.now };

    fn order_precedes(&self, side: Side, a: &OrderKey, b: &OrderKey) -> bool
        ensures { result ≡ (orders self.now).order_first side a.now b.now };

    ghost quotes_lawful: { (r : Self) → LawfulQuotes (quotes r) };

    ghost orders_lawful: { (r : Self) → LawfulOrders (orders r) };
}

// Whether the first price is strictly the better one on this side.
fn better(side: Side, a: u32, b: u32) -> bool
    ensures { result ≡ better_price side a b }
{
    match side {
        Side::Buy => a > b,
        Side::Sell => a < b,
    }
}

// The better price first, and at equal prices as `at_equal` says.
fn by_price(side: Side, a: u32, b: u32, at_equal: bool) -> bool
    ensures { result ≡ by_price side a b at_equal }
{
    better(side, a, b) || a == b && at_equal
}

// The larger quantity first, and at equal quantities as `at_equal` says.
fn by_quantity(a: u32, b: u32, at_equal: bool) -> bool
    ensures { result ≡ by_quantity a b at_equal }
{
    a > b || a == b && at_equal
}

// At equal prices the earlier arrival comes first.
#[derive(Clone, Copy)]
pub struct Time;

// At equal prices the larger entered quantity comes first, then the earlier arrival.
#[derive(Clone, Copy)]
pub struct Size;

// Here and in Size the two methods differ in the field that is the arrival number. A trait that reads both keys alike would be
// longer than these bodies.
impl Rule for Time {
    ghost quotes = { λ _. time_quotes };

    ghost orders = { λ _. time_orders };

    ghost quotes_lawful = { Prim.search rules };

    ghost orders_lawful = { Prim.search rules };

    fn quote_precedes(&self, side: Side, a: &QuoteKey, b: &QuoteKey) -> bool {
        by_price(side, a.price, b.price, a.arrival < b.arrival)
    }

    fn order_precedes(&self, side: Side, a: &OrderKey, b: &OrderKey) -> bool {
        by_price(side, a.price, b.price, a.number < b.number)
    }
}

impl Rule for Size {
    ghost quotes = { λ _. size_quotes };

    ghost orders = { λ _. size_orders };

    ghost quotes_lawful = { Prim.search rules };

    ghost orders_lawful = { Prim.search rules };

    fn quote_precedes(&self, side: Side, a: &QuoteKey, b: &QuoteKey) -> bool {
        by_price(
            side,
            a.price,
            b.price,
            by_quantity(a.entered, b.entered, a.arrival < b.arrival),
        )
    }

    fn order_precedes(&self, side: Side, a: &OrderKey, b: &OrderKey) -> bool {
        by_price(
            side,
            a.price,
            b.price,
            by_quantity(a.entered, b.entered, a.number < b.number),
        )
    }
}
