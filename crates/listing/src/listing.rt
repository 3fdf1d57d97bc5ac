// What each record of an event file says, a line each.
ghost use Rattle.std.specs.Prelude.{◌≡◌, IfOk, Some};
ghost use Rattle.std.specs.Slice.Iter.{chunks_rest, chunks_size};
ghost use Rattle.listing.specs.Text.{line_text};
ghost use Rattle.listing.specs.Listing.{LineOf, Lists};

use market::Event;
use records::{Malformed, RECORD_LENGTH, read, side_letter};
use std::alloc::{AllocError, Global};
use std::fmt;
use std::slice::Chunks;

// A record's place in its file, from 1, and what it says or why it is none.
#[derive(Drop)]
pub struct Line {
    pub place: usize,
    pub said: Result<Event, Malformed>,
}

impl Line {
    // The line of the bytes at a place.
    fn of(place: usize, bytes: &[u8]) -> Line
        ensures { LineOf place bytes.now result }
    {
        Line {
            place,
            said: read(bytes),
        }
    }
}

impl fmt::Display for Line {
    ghost output = { λ l. Some (line_text l) };

    fn fmt<W: fmt::Write>(&self, f: &mut fmt::Formatter<W>) -> fmt::Result {
        let place = self.place;
        match self.said {
            Ok(Event::Make { config, rule }) => write!(
                f,
                "{place} M {} {} {} {} {rule}",
                config.dealers, config.least_quantity, config.previous_average, config.day_kind
            ),
            Ok(Event::Clock { time }) => write!(f, "{place} N {time}"),
            Ok(Event::Quote { dealer, pair }) => write!(
                f,
                "{place} Q {dealer} {} {} {} {}",
                pair.bid, pair.bid_quantity, pair.ask, pair.ask_quantity
            ),
            Ok(Event::Withdraw { dealer }) => write!(f, "{place} W {dealer}"),
            Ok(Event::Bell) => write!(f, "{place} B"),
            Ok(
                Event::Order {
                    side,
                    price,
                    quantity,
                },
            ) => write!(
                f,
                "{place} O {} {price} {quantity}",
                side_letter(side) as char
            ),
            Ok(Event::Cancel { number, amount }) => write!(f, "{place} C {number} {amount}"),
            Ok(Event::Click { dealer, number }) => write!(f, "{place} K {dealer} {number}"),
            Ok(Event::Close) => write!(f, "{place} E"),
            Err(Malformed::Length { found: at } | Malformed::Byte { place: at }) => {
                write!(f, "{place} ? 17 {at}")
            }
        }
    }
}

// What the records of a file may stand in: its bytes, 24 at a time.
fn pieces(file: &[u8]) -> Chunks<'_, u8>
    ensures size { chunks_size result ≡ 24 }
    ensures rest { chunks_rest result ≡ file.now }
{
    file.chunks(RECORD_LENGTH)
}

// The lines of an event file: one for each 24 bytes, and one for what is left over at its end.
pub fn listing(heap: Global, file: &[u8]) -> Result<Vec<Line>, AllocError>
    ensures { IfOk result (λ v. Lists 1 file.now v.items) }
{
    pieces(file)
        .enumerate()
        .map(|(index, piece)| Line::of(index + 1, piece))
        .collect(heap)
}
