// Making a session.
ghost use Rattle.std.specs.Prelude.{◌≡◌, true};
ghost use Rattle.market.specs.Events.{may_be_made};
ghost use Rattle.book.specs.View.{sizes_of};
ghost use Rattle.session.specs.View.{NewLedger, Made};

use crate::ledger::Ledger;
use crate::states::{BeforeBell, PreOpen, Session};
use book::duties::Duties;
use book::limits::{HIGHEST_PRICE, LOT, is_within};
use book::memory::{Lengths, Memory};
use market::{Config, Refusal};

// The clock of a session just made: 08:30.
const FIRST_CLOCK: u32 = 3_060_000;

// Whether a session may be made with these numbers and places.
pub fn may_be_made(config: &Config, places: &Lengths) -> bool
    ensures { result ≡ may_be_made config.now (sizes_of places.now) }
{
    (2..=16).contains(&config.dealers)
        && is_within(1_000, 100_000, config.least_quantity)
        && config.least_quantity % LOT == 0
        && config.previous_average <= HIGHEST_PRICE
        && config.day_kind <= 4
        && places.bids == 16
        && places.asks == 16
        && (1..=256).contains(&places.buys)
        && (1..=256).contains(&places.sells)
        && (64..=65_536).contains(&places.tape)
}

impl Ledger {
    // The numbers of a session in which nothing has happened yet.
    fn new(config: Config, places: Lengths) -> Ledger
        requires { may_be_made config (sizes_of places) ≡ true }
        ensures { NewLedger config places result }
    {
        Ledger {
            config,
            places,
            counts: Lengths::default(),
            clock: FIRST_CLOCK,
            halted: false,
            shares: 0,
            value: 0,
        }
    }
}

impl Session<BeforeBell> {
    // A session with empty lists, an empty tape and all dealers in order; refused where a number or a length is outside its limits.
    pub fn new(config: Config, memory: &mut Memory) -> Result<PreOpen, Refusal>
        ensures { Made config memory.old memory.new result }
    {
        let places = memory.places();
        if !may_be_made(&config, &places) {
            return Err(Refusal::BadConfig);
        }
        *memory.duties = Duties::all_in_order();
        Ok(Session {
            ledger: Ledger::new(config, places),
            phase: BeforeBell,
        })
    }
}
