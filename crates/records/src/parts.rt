// The parts that records of both formats are made of.
ghost use Rattle.std.specs.Prelude.{◌≡◌, ◌+◌, ◌<◌, ◌∷◌, [], ◌++◌, length, take, MatchOption, ◌≢◌};
ghost use Rattle.records.specs.Layout.{word_bytes, letter, no_side};
ghost use Rattle.records.specs.Parts.{words_of, words_fit, pair_in};
ghost use Rattle.records.specs.Forms.{settled, sided};

use crate::RECORD_LENGTH;
use market::{Pair, Side};

// The first four bytes of a record, before any is judged.
#[derive(Clone, Copy)]
pub struct Head {
    pub kind: u8,
    pub side: u8,
    pub dealer: u8,
    pub zero: u8,
}

// The rest of a record: its time, then its fields A to D.
pub type Words = [u32; 5];

// The letter of a record without a side.
const NO_SIDE: u8 = b'-';

// The word at the front, the highest byte first, and what stands behind it.
fn word(bytes: &[u8]) -> Option<(u32, &[u8])>
    ensures { MatchOption result (length bytes.now < 4) (λ p. bytes.now ≡ word_bytes p.0 ++ p.1.now) }
{
    let (word, rest) = bytes.split_first_chunk()?;
    Some((u32::from_be_bytes(*word), rest))
}

// The five words that the rest of a record is made of.
pub fn five_words(rest: &[u8]) -> Option<Words>
    ensures { MatchOption result (length rest.now ≢ 20) (λ f. rest.now ≡ words_of f) }
{
    let (time, rest) = word(rest)?;
    let (a, rest) = word(rest)?;
    let (b, rest) = word(rest)?;
    let (c, rest) = word(rest)?;
    let (d, rest) = word(rest)?;
    rest.is_empty().then_some([time, a, b, c, d])
}

// A time, then a pair in the fields A to D.
pub fn pair_words(time: u32, pair: Pair) -> Words
    ensures { result ≡ time ∷ pair.bid ∷ pair.bid_quantity ∷ pair.ask ∷ pair.ask_quantity ∷ [] }
{
    [
        time,
        pair.bid,
        pair.bid_quantity,
        pair.ask,
        pair.ask_quantity,
    ]
}

// The pair in the fields A to D.
pub fn pair_of(words: Words) -> Pair
    ensures { result ≡ pair_in words }
{
    let [_, a, b, c, d] = words;
    Pair {
        bid: a,
        bid_quantity: b,
        ask: c,
        ask_quantity: d,
    }
}

// The letter that stands for a side. It belongs to the format and not to `Side`, so it is no conversion of that type.
pub fn side_letter(side: Side) -> u8
    ensures { result ≡ letter side }
{
    match side {
        Side::Buy => b'B',
        Side::Sell => b'S',
    }
}

// The bytes of a record, from its parts.
fn laid_out(kind: u8, side: u8, dealer: u8, words: Words) -> [u8; RECORD_LENGTH]
    ensures bytes { result ≡ kind ∷ side ∷ dealer ∷ 0 ∷ words_of words }
    ensures fits { words_fit words }
{
    let [time, a, b, c, d] = words;
    let [t0, t1, t2, t3] = time.to_be_bytes();
    let [a0, a1, a2, a3] = a.to_be_bytes();
    let [b0, b1, b2, b3] = b.to_be_bytes();
    let [c0, c1, c2, c3] = c.to_be_bytes();
    let [d0, d1, d2, d3] = d.to_be_bytes();
    [
        kind, side, dealer, 0, t0, t1, t2, t3, a0, a1, a2, a3, b0, b1, b2, b3, c0, c1, c2, c3, d0,
        d1, d2, d3,
    ]
}

// The bytes of a record without a side.
pub fn plain(kind: u8, dealer: u8, words: Words) -> [u8; RECORD_LENGTH]
    ensures bytes { result ≡ kind ∷ no_side ∷ dealer ∷ 0 ∷ words_of words }
    ensures fits { words_fit words }
{
    laid_out(kind, NO_SIDE, dealer, words)
}

// The bytes of a record with a side.
pub fn of_side(kind: u8, side: Side, dealer: u8, words: Words) -> [u8; RECORD_LENGTH]
    ensures bytes { result ≡ kind ∷ letter side ∷ dealer ∷ 0 ∷ words_of words }
    ensures fits { words_fit words }
{
    laid_out(kind, side_letter(side), dealer, words)
}

// The side that a letter stands for; Sell for a letter that stands for none, which the record written back then shows to be wrong.
pub fn nearest_side(side: u8) -> Side
    ensures { letter result ≡ settled sided side }
{
    match side as char {
        'B' => Side::Buy,
        _ => Side::Sell,
    }
}

// The first place at which two records differ.
pub fn first_difference(a: &[u8], b: &[u8]) -> Option<usize>
    requires { length a.now ≡ length b.now }
    ensures { MatchOption result (a.now ≡ b.now) (λ i. (take i a.now ≡ take i b.now) × (take (i + 1) a.now ≢ take (i + 1) b.now)) }
{
    a.iter().zip(b).position(|(x, y)| x != y)
}
