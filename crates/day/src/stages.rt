// How far a day has come.
ghost use Rattle.std.specs.Prelude.{◌≡◌};

use crate::rulings::Ruling;
use crate::running::Session;

pub enum Stage {
    // No record has come yet.
    Unmade,
    Running { rule: Ruling, session: Session },
    // The first record was no accepted making.
    Ended,
}

// A day, with the place of the record that came last, from 1. The place stays at the largest number.
pub struct Day {
    pub(crate) place: u32,
    pub(crate) stage: Stage,
}

impl Day {
    // The place of the record that came last, 0 before the first.
    pub fn place(&self) -> u32
        ensures { result ≡ self.now.place }
    {
        self.place
    }
}
