// Dealers' quotes of one side.
ghost use Rattle.std.specs.Prelude.{◌≡◌, ◌+◌, ◌<◌, ◌≤◌, true, length, take, is_some, IfSome, MatchOption};
ghost use Rattle.std.specs.List.{remove};
ghost use Rattle.market.specs.declared.Quote.{Quote as QuoteOf};
ghost use Rattle.market.specs.Precedence.{quote_before};
ghost use Rattle.market.specs.Lists.{placed};
ghost use Rattle.market.specs.State.{apart, without, quote_by, live_in};

use market::{Quote, Side};
use precedence::list::{insert, remove};
use precedence::rules::Rule;

// A dealer's quote among these.
fn quote_of(quotes: &[Quote], dealer: u8) -> Option<Quote>
    ensures { result ≡ quote_by dealer quotes.now }
{
    quotes.iter().find(|quote| quote.dealer == dealer).copied()
}

// What is left of a dealer's quote, 0 where it has none among these.
pub fn live_of(quotes: &[Quote], dealer: u8) -> u32
    ensures { result ≡ live_in (quote_by dealer quotes.now) }
{
    quote_of(quotes, dealer).map_or(0, |quote| quote.live)
}

// Where a dealer's quote stands.
fn place_of(quotes: &[Quote], dealer: u8) -> Option<usize>
    ensures within { IfSome result (λ at. at < length quotes.now) }
    ensures without { apart (λ (q : QuoteOf). q.dealer) quotes.now ≡ true → MatchOption result (quotes.now ≡ without dealer quotes.now) (λ at. remove quotes.now at ≡ without dealer quotes.now) }
{
    quotes.iter().position(|quote| quote.dealer == dealer)
}

// Whether a dealer has a quote among these.
pub fn stands(quotes: &[Quote], dealer: u8) -> bool
    ensures { result ≡ is_some (quote_by dealer quotes.now) }
{
    quote_of(quotes, dealer).is_some()
}

// Takes a dealer's quote out of the first `count` of these places, where no dealer stands twice. Gives the new count.
// The count stands beside the places, here and below: these are lent memory, of which the session knows how much is in use.
pub fn withdraw(places: &mut [Quote], count: usize, dealer: u8) -> usize
    requires within { count ≤ length places.old }
    requires apart { apart (λ (q : QuoteOf). q.dealer) (take count places.old) ≡ true }
    ensures bound { result ≤ count }
    ensures count { result ≡ length (without dealer (take count places.old)) }
    ensures list { take result places.new ≡ without dealer (take count places.old) }
{
    let quotes = &mut places[..count];
    match place_of(quotes, dealer) {
        Some(at) => {
            remove(quotes, at);
            count - 1
        }
        None => count,
    }
}

// Puts a quote in its place, for the one that its dealer had among the first `count` of these places. Gives the new count.
pub fn replace<R: Rule>(
    rule: &R,
    side: Side,
    places: &mut [Quote],
    count: usize,
    quote: Quote,
) -> usize
    requires within { count ≤ length places.old }
    requires apart { apart (λ (q : QuoteOf). q.dealer) (take count places.old) ≡ true }
    requires room { length (without quote.dealer (take count places.old)) < length places.old }
    ensures count { result ≡ length (without quote.dealer (take count places.old)) + 1 }
    ensures list { take result places.new ≡ placed (quote_before (R.quotes rule.now) side) quote (without quote.dealer (take count places.old)) }
{
    let rest = withdraw(places, count, quote.dealer);
    insert(rule, side, &mut places[..rest + 1], quote);
    rest + 1
}
