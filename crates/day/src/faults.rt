// Faults: why a record was not taken, which layer says so, and the record's place.
ghost use Rattle.std.specs.Prelude.{◌≡◌, Some};
ghost use Rattle.day.specs.Faults.{fault_number, fault_text};

use market::Refusal;
use records::Malformed;
use std::error::Error;
use std::fmt;

// What refused a record, and where: the reader, the day or the session. Places count from 1.
#[derive(Clone, Copy, PartialEq, Eq, Debug)]
pub enum Fault {
    Reader { place: u32, malformed: Malformed },
    Day { place: u32, refusal: Refusal },
    Session { place: u32, refusal: Refusal },
}

impl Fault {
    // The number that it goes by.
    pub fn number(&self) -> u8
        ensures { result ≡ fault_number self.now }
    {
        match self {
            Fault::Reader { .. } => 17,
            Fault::Day { refusal, .. } | Fault::Session { refusal, .. } => refusal.number(),
        }
    }
}

impl fmt::Display for Fault {
    ghost output = { λ x. Some (fault_text x) };

    fn fmt<W: fmt::Write>(&self, f: &mut fmt::Formatter<W>) -> fmt::Result {
        match *self {
            Fault::Reader {
                malformed: Malformed::Length { found: at } | Malformed::Byte { place: at },
                ..
            } => write!(f, "17 reader {at}"),
            Fault::Day { refusal, .. } => write!(f, "{} day", refusal.number()),
            Fault::Session { refusal, .. } => write!(f, "{} session", refusal.number()),
        }
    }
}

impl Error for Fault {}
