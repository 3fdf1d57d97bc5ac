// The rules of precedence that a making can name by number.
ghost use Rattle.std.specs.Prelude.{◌≡◌, Some};
ghost use Rattle.std.proofs.Common.{rules};
ghost use Rattle.day.specs.Rulings.{quotes_of, orders_of, Names, unknown_text};

use market::{OrderKey, QuoteKey, Side};
use precedence::rules::{Rule, Size, Time};
use std::error::Error;
use std::fmt;

#[derive(Clone, Copy, PartialEq, Eq, Debug)]
pub enum Ruling {
    Time,
    Size,
}

// A number that names no rule.
#[derive(Clone, Copy, PartialEq, Eq, Debug)]
pub struct UnknownRule(pub u32);

impl fmt::Display for UnknownRule {
    ghost output = { λ e. Some (unknown_text e.0) };

    fn fmt<W: fmt::Write>(&self, f: &mut fmt::Formatter<W>) -> fmt::Result {
        write!(f, "no rule of precedence has the number {}", self.0)
    }
}

impl Error for UnknownRule {}

impl TryFrom<u32> for Ruling {
    type Error = UnknownRule;

    ghost try_from_gives = { Names };

    fn try_from(number: u32) -> Result<Ruling, UnknownRule> {
        match number {
            1 => Ok(Ruling::Time),
            2 => Ok(Ruling::Size),
            _ => Err(UnknownRule(number)),
        }
    }
}

impl Rule for Ruling {
    ghost quotes = { quotes_of };

    ghost orders = { orders_of };

    ghost quotes_lawful = { Prim.search rules };

    ghost orders_lawful = { Prim.search rules };

    fn quote_precedes(&self, side: Side, a: &QuoteKey, b: &QuoteKey) -> bool {
        match self {
            Ruling::Time => Time.quote_precedes(side, a, b),
            Ruling::Size => Size.quote_precedes(side, a, b),
        }
    }

    fn order_precedes(&self, side: Side, a: &OrderKey, b: &OrderKey) -> bool {
        match self {
            Ruling::Time => Time.order_precedes(side, a, b),
            Ruling::Size => Size.order_precedes(side, a, b),
        }
    }
}
