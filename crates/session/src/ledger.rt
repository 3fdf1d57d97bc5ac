// The numbers that a session keeps: what it was made from, how much of the lent memory is in use, and the day so far.
ghost use Rattle.std.specs.Prelude.{◌≡◌, ◌*◌, ◌≤◌};

use book::memory::Lengths;
use market::Config;

#[derive(Clone, Copy)]
pub struct Ledger {
    pub(crate) config: Config,
    pub(crate) places: Lengths,
    pub(crate) counts: Lengths,
    pub(crate) clock: u32,
    pub(crate) halted: bool,
    // The shares traded so far, and the sum of price times quantity over the trades.
    pub(crate) shares: u64,
    pub(crate) value: u64,
    ghost few_dealers: { config.dealers ≤ 16 },
    ghost bid_places: { places.bids ≡ 16 },
    ghost ask_places: { places.asks ≡ 16 },
    ghost buy_places: { places.buys ≤ 256 },
    ghost sell_places: { places.sells ≤ 256 },
    ghost tape_places: { places.tape ≤ 65536 },
    ghost fit_bids: { counts.bids ≤ places.bids },
    ghost fit_asks: { counts.asks ≤ places.asks },
    ghost fit_buys: { counts.buys ≤ places.buys },
    ghost fit_sells: { counts.sells ≤ places.sells },
    ghost fit_tape: { counts.tape ≤ places.tape },
    ghost in_time: { clock ≤ 5400000 },
    ghost few_shares: { shares ≤ 1000000 * counts.tape },
    ghost low_value: { value ≤ 999999 * shares },
}
