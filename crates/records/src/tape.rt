// Tape records.
ghost use Rattle.std.specs.Prelude.{◌≡◌};
ghost use Rattle.records.specs.Layout.{ascii, tape_bytes, TapeFits};
ghost use Rattle.records.specs.Parts.{parts_of};
ghost use Rattle.records.specs.Forms.{tape_form, all_settled};
ghost use Rattle.records.specs.TapeFormat.{tape_format};
ghost use Rattle.std.proofs.Common.{rules};
ghost use Rattle.market.proofs.Words.{word_inverse};

use crate::RECORD_LENGTH;
use crate::codec::Record;
use crate::parts::{Head, Words, nearest_side, of_side, pair_of, pair_words, plain};
use market::{TapeRecord, Trade};

// The click of a record's parts.
fn click_of(head: Head, words: Words) -> TapeRecord
    ensures { tape_bytes result ≡ all_settled (tape_form (ascii "K")) (parts_of head words) }
{
    let [time, a, b, c, d] = words;
    TapeRecord::Click {
        time,
        dealer: head.dealer,
        side: nearest_side(head.side),
        number: a,
        price: b,
        taken: c,
        entered: d,
    }
}

// The trade of a record's parts.
fn trade_of(head: Head, words: Words) -> Trade
    ensures { tape_bytes (TapeRecord.Trade result) ≡ all_settled (tape_form (ascii "T")) (parts_of head words) }
{
    let [time, a, b, c, d] = words;
    Trade {
        time,
        side: nearest_side(head.side),
        dealer: head.dealer,
        number: a,
        price: b,
        quantity: c,
        arrival: d,
    }
}

impl Record for TapeRecord {
    ghost bytes_of = { tape_bytes };

    ghost fits = { TapeFits };

    ghost form_of = { tape_form };

    ghost lawful = { tape_format word_inverse (Prim.search rules) };

    fn to_bytes(&self) -> [u8; RECORD_LENGTH] {
        match *self {
            TapeRecord::Quote { time, dealer, pair } => plain(b'Q', dealer, pair_words(time, pair)),
            TapeRecord::Withdrawal { time, dealer } => plain(b'W', dealer, [time, 0, 0, 0, 0]),
            TapeRecord::Order {
                time,
                side,
                price,
                quantity,
            } => of_side(b'O', side, 0, [time, price, quantity, 0, 0]),
            TapeRecord::Cancellation {
                time,
                side,
                number,
                quantity,
            } => of_side(b'C', side, 0, [time, number, quantity, 0, 0]),
            TapeRecord::Click {
                time,
                dealer,
                side,
                number,
                price,
                taken,
                entered,
            } => of_side(b'K', side, dealer, [time, number, price, taken, entered]),
            TapeRecord::Trade(t) => of_side(
                b'T',
                t.side,
                t.dealer,
                [t.time, t.number, t.price, t.quantity, t.arrival],
            ),
            TapeRecord::Late {
                time,
                dealer,
                missed,
            } => plain(b'L', dealer, [time, missed, 0, 0, 0]),
            TapeRecord::Halt { time, direction } => plain(b'H', 0, [time, direction, 0, 0, 0]),
        }
    }

    fn from_parts(head: Head, words: Words) -> Option<TapeRecord> {
        let Head {
            kind,
            side,
            dealer,
            zero: _,
        } = head;
        let [time, a, b, c, d] = words;
        let side = nearest_side(side);
        Some(match kind as char {
            'Q' => TapeRecord::Quote {
                time,
                dealer,
                pair: pair_of(words),
            },
            'W' => TapeRecord::Withdrawal { time, dealer },
            'O' => TapeRecord::Order {
                time,
                side,
                price: a,
                quantity: b,
            },
            'C' => TapeRecord::Cancellation {
                time,
                side,
                number: a,
                quantity: b,
            },
            'K' => click_of(head, words),
            'T' => TapeRecord::Trade(trade_of(head, words)),
            'L' => TapeRecord::Late {
                time,
                dealer,
                missed: a,
            },
            'H' => TapeRecord::Halt { time, direction: a },
            _ => return None,
        })
    }
}
