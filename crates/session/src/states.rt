// A session, and its phases as types.
ghost use Rattle.std.specs.Prelude.{◌≡◌, ℕ, ◌≤◌, Bool, true, false, ◌&&◌, not, refl};
ghost use Rattle.market.specs.State.{Phase, before_bell, trading};
ghost use Rattle.market.specs.Events.{latest_clock, watching};
ghost use Rattle.std.proofs.Common.{arith};

use crate::ledger::Ledger;

// A session in the phase `P`. It is neither Copy nor Drop: it is used once, and passed on or ended.
pub struct Session<P> {
    pub(crate) ledger: Ledger,
    pub phase: P,
}

// Made, and the bell has not rung.
#[derive(Clone, Copy)]
pub struct BeforeBell;

// Open for trading.
#[derive(Clone, Copy)]
pub struct Trading;

// Closed: only the summary is left.
#[derive(Clone, Copy)]
pub struct Over;

pub type PreOpen = Session<BeforeBell>;

pub type Open = Session<Trading>;

pub type Closed = Session<Over>;

// A phase in which events are taken.
pub trait Taking {
    ghost phase: { Phase };

    // The last time that the clock can be set to.
    const LATEST: u32;

    ghost LATEST: { ℕ };

    // Whether the dealers' duties are watched.
    const WATCHED: bool;

    ghost WATCHED: { Bool };

    ghost latest_is: { LATEST ≡ latest_clock phase };

    ghost in_time: { LATEST ≤ 5400000 };

    ghost watching_is: { (halted : Bool) → watching phase halted ≡ (WATCHED && not halted) };
}

impl Taking for BeforeBell {
    ghost phase = { before_bell };

    // Before 09:00.
    const LATEST: u32 = 3_239_999;

    ghost LATEST = { 3239999 };

    const WATCHED: bool = false;

    ghost WATCHED = { false };

    ghost latest_is = { refl };

    ghost in_time = { Prim.omega arith };

    ghost watching_is = { λ _. refl };
}

impl Taking for Trading {
    ghost phase = { trading };

    // 15:00.
    const LATEST: u32 = 5_400_000;

    ghost LATEST = { 5400000 };

    const WATCHED: bool = true;

    ghost WATCHED = { true };

    ghost latest_is = { refl };

    ghost in_time = { Prim.omega arith };

    ghost watching_is = { λ _. refl };
}
