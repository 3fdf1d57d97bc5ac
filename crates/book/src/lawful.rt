// Whether the book that was handed in is lawful.
ghost use Rattle.std.specs.Prelude.{◌≡◌, ℕ, ◌≤◌, ◌&&◌, ◌++◌, length, take};
ghost use Rattle.std.specs.List.{list_all};
ghost use Rattle.market.specs.declared.Order.{Order as OrderOf};
ghost use Rattle.market.specs.State.{lawful_quote, lawful_order, apart, lawful_quotes, lawful_orders, same_sizes, lawful_lists};
ghost use Rattle.book.specs.View.{rule_of, sizes_of, places_of, lists_of, CountsFit, lacks};

use crate::limits::{LARGEST_QUANTITY, LOT, is_price, is_within};
use crate::memory::{Lengths, Memory};
use market::{Order, Quote, Side};
use precedence::list::in_order;
use precedence::rules::Rule;

// The most that a quote can be entered with: what a click takes of all orders of a list.
const LARGEST_QUOTE: u32 = 256_000_000;

// An entry with a number that no other entry of its list may have.
pub trait Numbered: Copy {
    ghost number: { Self → ℕ };

    fn number(&self) -> u32
        ensures { result ≡ number self.now };
}

// A dealer has one quote on a side.
impl Numbered for Quote {
    ghost number = { λ q. q.dealer };

    fn number(&self) -> u32 {
        u32::from(self.dealer)
    }
}

impl Numbered for Order {
    ghost number = { λ o. o.number };

    fn number(&self) -> u32 {
        self.number
    }
}

// A quote that may stand in a list, where there are so many dealers and records.
fn quote_is_lawful(dealers: u8, count: u32, quote: &Quote) -> bool
    ensures { result ≡ lawful_quote dealers count quote.now }
{
    (1..=dealers).contains(&quote.dealer)
        && is_price(quote.price)
        && is_within(1, count, quote.arrival)
        && quote.entered <= LARGEST_QUOTE
        && is_within(1, quote.entered, quote.live)
        && quote.live <= LARGEST_QUANTITY
}

// An order that may stand in a list, where there are so many records.
fn order_is_lawful(count: u32, order: &Order) -> bool
    ensures { result ≡ lawful_order count order.now }
{
    is_within(1, count, order.number)
        && is_price(order.price)
        && order.entered <= LARGEST_QUANTITY
        && is_within(1, order.entered, order.left)
        && (order.entered % LOT != 0 || order.left % LOT == 0)
}

// Whether none of the entries has this number.
fn is_new<T: Numbered>(entries: &[T], n: u32) -> bool
    ensures { result ≡ lacks T.number n entries.now }
{
    entries.iter().all(|entry| entry.number() != n)
}

// Whether no two of the entries have the same number.
fn are_apart<T: Numbered>(entries: &[T]) -> bool
    ensures { result ≡ apart T.number entries.now }
{
    match entries {
        [entry, behind @ ..] => is_new(behind, entry.number()) && are_apart(behind),
        [] => true,
    }
}

// Whether no number of one list stands in another. If neither has a number twice, that says whether both together have one.
fn are_disjoint<T: Numbered>(entries: &[T], others: &[T]) -> bool
    ensures disjoint { result ≡ list_all (λ (x : T). lacks T.number (T.number x) others.now) entries.now }
    ensures apart { apart T.number (entries.now ++ others.now) ≡ (result && (apart T.number entries.now && apart T.number others.now)) }
{
    entries.iter().all(|entry| is_new(others, entry.number()))
}

// Whether no order number stands twice in both lists together.
fn numbers_are_apart(buys: &[Order], sells: &[Order]) -> bool
    ensures { result ≡ apart (λ (o : OrderOf). o.number) (buys.now ++ sells.now) }
{
    are_disjoint(buys, sells) && are_apart(buys) && are_apart(sells)
}

// Whether each of these quotes is one that may stand in a list.
fn may_all_stand(dealers: u8, taped: u32, quotes: &[Quote]) -> bool
    ensures { result ≡ list_all (lawful_quote dealers taped) quotes.now }
{
    quotes
        .iter()
        .all(|quote| quote_is_lawful(dealers, taped, quote))
}

// One side's quotes: each as it may be, no dealer twice, strictly in precedence.
fn quotes_are_lawful<R: Rule>(
    rule: &R,
    side: Side,
    dealers: u8,
    taped: u32,
    quotes: &[Quote],
) -> bool
    ensures { result ≡ lawful_quotes (rule_of (R.quotes rule.now) (R.orders rule.now)) side dealers taped quotes.now }
{
    may_all_stand(dealers, taped, quotes) && are_apart(quotes) && in_order(rule, side, quotes)
}

// One side's orders: each as it may be, strictly in precedence.
fn orders_are_lawful<R: Rule>(rule: &R, side: Side, taped: u32, orders: &[Order]) -> bool
    ensures { result ≡ lawful_orders (rule_of (R.quotes rule.now) (R.orders rule.now)) side taped orders.now }
{
    orders.iter().all(|order| order_is_lawful(taped, order)) && in_order(rule, side, orders)
}

// Whether the four lists are lawful, where there are so many dealers.
fn lists_are_lawful<R: Rule>(rule: &R, dealers: u8, counts: &Lengths, memory: &Memory) -> bool
    requires fit { CountsFit counts.now (places_of memory.now) }
    requires small { counts.now.tape ≤ 65536 }
    ensures { result ≡ lawful_lists (rule_of (R.quotes rule.now) (R.orders rule.now)) dealers (length (take counts.now.tape memory.now.tape.now)) (lists_of counts.now memory.now) }
{
    let taped = counts.tape as u32;
    let bids = &memory.bids[..counts.bids];
    let asks = &memory.asks[..counts.asks];
    let buys = &memory.buys[..counts.buys];
    let sells = &memory.sells[..counts.sells];
    quotes_are_lawful(rule, Side::Buy, dealers, taped, bids)
        && quotes_are_lawful(rule, Side::Sell, dealers, taped, asks)
        && orders_are_lawful(rule, Side::Buy, taped, buys)
        && orders_are_lawful(rule, Side::Sell, taped, sells)
        && numbers_are_apart(buys, sells)
}

// Whether the book is lawful: the lent places are those of the making, each entry is as it may be,
// no dealer stands twice in a list and no order number twice in all, and each list stands strictly in precedence.
pub fn is_lawful<R: Rule>(
    rule: &R,
    dealers: u8,
    places: &Lengths,
    counts: &Lengths,
    memory: &Memory,
) -> bool
    requires fit { CountsFit counts.now places.now }
    requires small { places.now.tape ≤ 65536 }
    ensures { result ≡ (same_sizes (sizes_of places.now) (sizes_of (places_of memory.now)) && lawful_lists (rule_of (R.quotes rule.now) (R.orders rule.now)) dealers (length (take counts.now.tape memory.now.tape.now)) (lists_of counts.now memory.now)) }
{
    *places == memory.places() && lists_are_lawful(rule, dealers, counts, memory)
}
