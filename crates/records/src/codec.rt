// One reader and one writer for the records of every format.
ghost use Rattle.std.specs.Prelude.{◌≡◌, ℕ, ◌+◌, List, length, take, MatchOption, ◌≢◌};
ghost use Rattle.records.specs.Formats.{LawfulFormat};
ghost use Rattle.records.specs.Forms.{Slot};
ghost use Rattle.records.specs.Parts.{Outlined};
ghost use Rattle.records.specs.Reading.{Answered, Written};

use crate::parts::{Head, Words, first_difference, five_words};
use crate::{Malformed, RECORD_LENGTH};

// A value that stands in a record of its own. The ghost members say how it is laid out, whether its numbers fit there, and
// what each kind fixes of its bytes; the law is owed by each `impl`, and is all that the reader and the writer rest on.
pub trait Record: Copy {
    ghost bytes_of: { Self → List ℕ };

    ghost fits: { Self → Type 0 };

    ghost form_of: { ℕ → List Slot };

    // The bytes of the value's record, kind by kind.
    fn to_bytes(&self) -> [u8; RECORD_LENGTH]
        ensures bytes { result ≡ bytes_of self.now }
        ensures fits { fits self.now };

    // The value of the head's kind, with the fields that the kind names as the record has them. The others are not looked at.
    fn from_parts(head: Head, words: Words) -> Option<Self>
        ensures { Outlined bytes_of form_of head words result };

    ghost lawful: { LawfulFormat bytes_of fits form_of };
}

// The record of a value. It reads back as that value.
pub fn write<T: Record>(value: &T) -> [u8; RECORD_LENGTH]
    ensures { Written T.bytes_of T.fits value.now result }
{
    value.to_bytes()
}

// The first place at which bytes differ from a value's record.
fn first_wrong<T: Record>(value: &T, bytes: &[u8]) -> Option<usize>
    requires { length bytes.now ≡ 24 }
    ensures fits { T.fits value.now }
    ensures first { MatchOption result (T.bytes_of value.now ≡ bytes.now) (λ i. (take i (T.bytes_of value.now) ≡ take i bytes.now) × (take (i + 1) (T.bytes_of value.now) ≢ take (i + 1) bytes.now)) }
{
    first_difference(&value.to_bytes(), bytes)
}

// The value of a record, or why there is none. What is accepted writes back to its own bytes.
pub fn read<T: Record>(bytes: &[u8]) -> Result<T, Malformed>
    ensures { Answered T.bytes_of T.fits bytes.now result }
{
    let wrong_length = Malformed::Length { found: bytes.len() };
    let [kind, side, dealer, zero, rest @ ..] = bytes else {
        return Err(wrong_length);
    };
    let words = five_words(rest).ok_or(wrong_length)?;
    let head = Head {
        kind: *kind,
        side: *side,
        dealer: *dealer,
        zero: *zero,
    };
    let value = T::from_parts(head, words).ok_or(Malformed::Byte { place: 0 })?;
    match first_wrong(&value, bytes) {
        Some(place) => Err(Malformed::Byte { place }),
        None => Ok(value),
    }
}
