// The 24-byte records of event files and tapes, read and written.
#![tactic(auto)]

mod codec;
mod events;
mod parts;
mod tape;

pub use codec::{Record, read, write};
pub use parts::{Head, Words, side_letter};

pub const RECORD_LENGTH: usize = 24;

// Why bytes are no record: there are not 24 of them, or the byte at this place, from 0, is the first
// that no record with the bytes before it has there.
#[derive(Clone, Copy, PartialEq, Eq, Debug)]
pub enum Malformed {
    Length { found: usize },
    Byte { place: usize },
}
