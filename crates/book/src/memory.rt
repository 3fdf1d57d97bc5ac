// The lent memory, and the numbers that say how much of it is in use.
ghost use Rattle.std.specs.Prelude.{◌≡◌};
ghost use Rattle.book.specs.View.{places_of};

use crate::duties::Duties;
use market::{Order, Quote, TapeRecord};

// What the caller lends to every call: four lists, the dealers' duties, and the tape.
// The session knows how many entries of each are in use; what stands behind them in a list is never read.
#[derive(Drop)]
pub struct Memory<'a> {
    pub bids: &'a mut [Quote],
    pub asks: &'a mut [Quote],
    pub buys: &'a mut [Order],
    pub sells: &'a mut [Order],
    pub duties: &'a mut Duties,
    pub tape: &'a mut [TapeRecord],
}

// How many places the lists and the tape have, or how many entries they hold.
#[derive(Clone, Copy, PartialEq, Eq, Debug, Default)]
pub struct Lengths {
    pub bids: usize,
    pub asks: usize,
    pub buys: usize,
    pub sells: usize,
    pub tape: usize,
}

impl Memory<'_> {
    // How many places are lent.
    pub fn places(&self) -> Lengths
        ensures { result ≡ places_of self.now }
    {
        Lengths {
            bids: self.bids.len(),
            asks: self.asks.len(),
            buys: self.buys.len(),
            sells: self.sells.len(),
            tape: self.tape.len(),
        }
    }
}
