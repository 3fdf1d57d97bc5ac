// Event records.
ghost use Rattle.records.specs.Layout.{event_bytes, EventFits};
ghost use Rattle.records.specs.Forms.{event_form};
ghost use Rattle.records.specs.EventFormat.{event_format};
ghost use Rattle.market.proofs.Words.{word_inverse};

use crate::RECORD_LENGTH;
use crate::codec::Record;
use crate::parts::{Head, Words, nearest_side, of_side, pair_of, pair_words, plain};
use market::{Config, Event};

impl Record for Event {
    ghost bytes_of = { event_bytes };

    ghost fits = { EventFits };

    ghost form_of = { event_form };

    ghost lawful = { event_format word_inverse };

    fn to_bytes(&self) -> [u8; RECORD_LENGTH] {
        match *self {
            Event::Make { config, rule } => {
                let Config {
                    dealers,
                    least_quantity,
                    previous_average,
                    day_kind,
                } = config;
                plain(
                    b'M',
                    dealers,
                    [0, least_quantity, previous_average, day_kind, rule],
                )
            }
            Event::Clock { time } => plain(b'N', 0, [time, 0, 0, 0, 0]),
            Event::Quote { dealer, pair } => plain(b'Q', dealer, pair_words(0, pair)),
            Event::Withdraw { dealer } => plain(b'W', dealer, [0, 0, 0, 0, 0]),
            Event::Bell => plain(b'B', 0, [0, 0, 0, 0, 0]),
            Event::Order {
                side,
                price,
                quantity,
            } => of_side(b'O', side, 0, [0, price, quantity, 0, 0]),
            Event::Cancel { number, amount } => plain(b'C', 0, [0, number, amount, 0, 0]),
            Event::Click { dealer, number } => plain(b'K', dealer, [0, number, 0, 0, 0]),
            Event::Close => plain(b'E', 0, [0, 0, 0, 0, 0]),
        }
    }

    fn from_parts(head: Head, words: Words) -> Option<Event> {
        let Head {
            kind,
            side,
            dealer,
            zero: _,
        } = head;
        let [time, a, b, c, d] = words;
        // The kinds are told by their letters, as the format has them: another byte there is no kind, and its place is told.
        Some(match kind as char {
            'M' => Event::Make {
                config: Config {
                    dealers: dealer,
                    least_quantity: a,
                    previous_average: b,
                    day_kind: c,
                },
                rule: d,
            },
            'N' => Event::Clock { time },
            'Q' => Event::Quote {
                dealer,
                pair: pair_of(words),
            },
            'W' => Event::Withdraw { dealer },
            'B' => Event::Bell,
            'O' => Event::Order {
                side: nearest_side(side),
                price: a,
                quantity: b,
            },
            'C' => Event::Cancel {
                number: a,
                amount: b,
            },
            'K' => Event::Click { dealer, number: a },
            'E' => Event::Close,
            _ => return None,
        })
    }
}
