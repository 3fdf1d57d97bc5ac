// One list of entries in precedence, in a slice that the caller lends.
ghost use Rattle.std.specs.Prelude.{◌≡◌, ℕ, ◌+◌, ◌-◌, ◌<◌, ◌≤◌, Bool, true, false, List, ◌++◌, length, take, drop, Some, ◌≢◌, slice_index_or};
ghost use Rattle.std.specs.List.{insert, remove};
ghost use Rattle.market.specs.declared.Side.{Side as SideOf};
ghost use Rattle.market.specs.Precedence.{quote_before, order_before};
ghost use Rattle.market.specs.Lists.{placed, ordered, Ordered, Fresh, head, tail, Leads};
ghost use Rattle.std.proofs.Common.{rules};

use crate::rules::Rule;
use market::{Order, Quote, Side};

// An entry that a rule `R` ranks among others of its kind and side.
pub trait Ranked<R>: Copy {
    // Whether the first precedes the second.
    ghost before: { R → SideOf → Self → Self → Bool };

    // What tells entries apart.
    ghost arrival: { Self → ℕ };

    fn precedes(&self, other: &Self, rule: &R, side: Side) -> bool
        ensures { result ≡ before rule.now side self.now other.now };

    ghost transitive: { (r : R) (s : SideOf) (x y z : Self) → before r s x y ≡ true → before r s y z ≡ true → before r s x z ≡ true };

    ghost decides: { (r : R) (s : SideOf) (x y : Self) → (arrival x ≢ arrival y) → before r s x y ≡ false → before r s y x ≡ true };
}

impl<R: Rule> Ranked<R> for Quote {
    ghost before = { λ r s x y. quote_before (R.Rule.quotes r) s x y };

    ghost arrival = { λ q. q.arrival };

    ghost transitive = { Prim.search rules };

    ghost decides = { Prim.search rules };

    fn precedes(&self, other: &Quote, rule: &R, side: Side) -> bool {
        rule.quote_precedes(side, &self.key(), &other.key())
    }
}

impl<R: Rule> Ranked<R> for Order {
    ghost before = { λ r s x y. order_before (R.Rule.orders r) s x y };

    ghost arrival = { λ o. o.number };

    ghost transitive = { Prim.search rules };

    ghost decides = { Prim.search rules };

    fn precedes(&self, other: &Order, rule: &R, side: Side) -> bool {
        rule.order_precedes(side, &self.key(), &other.key())
    }
}

// The entry that stands first, if there is one. Under whichever relation the entries are in order, it precedes all others.
pub fn first<T: Copy>(entries: &[T]) -> Option<T>
    ensures value { result ≡ head entries.now }
    ensures leads { (b : T → T → Bool) → Ordered b entries.now → Leads b result (tail entries.now) }
{
    entries.first().copied()
}

// Where an entry goes: in front of the first that it precedes. There an entry with a new arrival number keeps the order.
fn place<R, T: Ranked<R>>(rule: &R, side: Side, entries: &[T], item: &T) -> usize
    ensures within { result ≤ length entries.now }
    ensures at { insert entries.now result item.now ≡ placed (T.before rule.now side) item.now entries.now }
    ensures ordered { Fresh T.arrival item.now entries.now → Ordered (T.before rule.now side) entries.now → Ordered (T.before rule.now side) (insert entries.now result item.now) }
{
    entries
        .iter()
        .position(|entry| item.precedes(entry, rule, side))
        .unwrap_or(entries.len())
}

// Puts an entry in its place among those of a slice whose last place is free.
pub fn insert<R, T: Ranked<R>>(rule: &R, side: Side, list: &mut [T], item: T)
    requires { 0 < length list.old }
    ensures after { list.new ≡ placed (T.before rule.now side) item (take (length list.old - 1) list.old) }
    ensures ordered { Fresh T.arrival item (take (length list.old - 1) list.old) → Ordered (T.before rule.now side) (take (length list.old - 1) list.old) → Ordered (T.before rule.now side) list.new }
{
    let free = list.len() - 1;
    let at = place(rule, side, &list[..free], &item);
    list.copy_within(at..free, at + 1);
    list[at] = item;
}

// Moves the entries behind a place down by one. The last place keeps what it had.
fn close_gap<T: Copy>(entries: &mut [T], at: usize)
    requires { at < length entries.old }
    ensures after { entries.new ≡ remove entries.old at ++ drop (length entries.old - 1) entries.old }
    ensures front { take (length entries.old - 1) entries.new ≡ remove entries.old at }
    ensures ordered { (b : T → T → Bool) → Ordered b entries.old → Ordered b (take (length entries.old - 1) entries.new) }
{
    entries.copy_within(at + 1.., at);
}

// Takes out the entry at a place, gives it back, and moves those behind it down by one; the last place keeps what it had.
// Under whichever relation the entries were in order, those that are left still are.
pub fn remove<T: Copy>(entries: &mut [T], at: usize) -> T
    requires { at < length entries.old }
    ensures value { result ≡ slice_index_or entries.old at result }
    ensures after { entries.new ≡ remove entries.old at ++ drop (length entries.old - 1) entries.old }
    ensures front { take (length entries.old - 1) entries.new ≡ remove entries.old at }
    ensures ordered { (b : T → T → Bool) → Ordered b entries.old → Ordered b (take (length entries.old - 1) entries.new) }
{
    let entry = entries[at];
    close_gap(entries, at);
    entry
}

// Whether the entries stand strictly in precedence: each before the next, and so, by transitivity, before all behind it.
// The loop has an index, since a rule of this project asks that the test of a book names the neighbours that it compares.
pub fn in_order<R, T: Ranked<R>>(rule: &R, side: Side, entries: &[T]) -> bool
    ensures { result ≡ ordered (T.before rule.now side) entries.now }
{
    for (i, entry) in entries.iter().enumerate() {
        if i > 0 && !entries[i - 1].precedes(entry, rule, side) {
            return false;
        }
    }
    true
}
