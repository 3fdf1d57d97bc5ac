// Lists in precedence, of quotes and of orders, under both rules.
use market::{Order, Quote, Side};
use precedence::list::{Ranked, first, in_order, insert, remove};
use precedence::rules::{Rule, Size, Time};

fn quote(price: u32, entered: u32, arrival: u32) -> Quote {
    Quote {
        dealer: 1,
        price,
        entered,
        live: 1,
        arrival,
    }
}

fn order(price: u32, entered: u32, number: u32) -> Order {
    Order {
        number,
        price,
        entered,
        left: 1,
    }
}

// Four entries as they stand when one after another was put in its place.
fn ranked<R, T: Ranked<R>>(rule: &R, side: Side, entries: [T; 4]) -> [T; 4] {
    let mut list = entries;
    for (count, entry) in entries.iter().enumerate() {
        insert(rule, side, &mut list[..count + 1], *entry);
    }
    list
}

// The arrival numbers of four quotes, in precedence.
fn quotes_ranked<R: Rule>(rule: &R, side: Side) -> [u32; 4] {
    let quotes = [
        quote(4900, 2000, 1),
        quote(4920, 1000, 2),
        quote(4900, 3000, 3),
        quote(4900, 3000, 4),
    ];
    ranked(rule, side, quotes).map(|quote| quote.arrival)
}

// The numbers of four orders, in precedence.
fn orders_ranked<R: Rule>(rule: &R, side: Side) -> [u32; 4] {
    let orders = [
        order(4900, 2000, 1),
        order(4920, 1000, 2),
        order(4900, 3000, 3),
        order(4900, 3000, 4),
    ];
    ranked(rule, side, orders).map(|order| order.number)
}

#[test]
fn entries_stand_by_the_rule(rt: HostRuntime) {
    assert_eq!(rt; quotes_ranked(&Time, Side::Buy), [2, 1, 3, 4]);
    assert_eq!(rt; quotes_ranked(&Size, Side::Buy), [2, 3, 4, 1]);
    assert_eq!(rt; quotes_ranked(&Time, Side::Sell), [1, 3, 4, 2]);
    assert_eq!(rt; quotes_ranked(&Size, Side::Sell), [3, 4, 1, 2]);
    assert_eq!(rt; orders_ranked(&Time, Side::Buy), [2, 1, 3, 4]);
    assert_eq!(rt; orders_ranked(&Size, Side::Buy), [2, 3, 4, 1]);
    assert_eq!(rt; orders_ranked(&Time, Side::Sell), [1, 3, 4, 2]);
    assert_eq!(rt; orders_ranked(&Size, Side::Sell), [3, 4, 1, 2]);
}

#[test]
fn a_removal_closes_the_gap(rt: HostRuntime) {
    let mut asks = [
        quote(5000, 1000, 1),
        quote(5000, 1000, 2),
        quote(5010, 1000, 3),
        quote(1, 1, 9),
    ];
    assert!(rt; in_order(&Time, Side::Sell, &asks[..3]));
    assert!(rt; !in_order(&Time, Side::Sell, &asks));
    assert!(rt; !in_order(&Time, Side::Buy, &asks[..3]));
    remove(&mut asks[..3], 0);
    assert_eq!(rt; first(&asks[..2]), Some(quote(5000, 1000, 2)));
    remove(&mut asks[..2], 1);
    assert_eq!(rt; first(&asks[..1]), Some(quote(5000, 1000, 2)));
    remove(&mut asks[..1], 0);
    assert_eq!(rt; first(&asks[..0]), None);
    assert!(rt; in_order(&Time, Side::Sell, &asks[..0]));
    assert_eq!(rt; asks[3], quote(1, 1, 9));
}

#[test]
fn equal_entries_are_in_no_order(rt: HostRuntime) {
    let same = [order(4900, 1000, 7), order(4900, 1000, 7)];
    assert!(rt; !in_order(&Time, Side::Buy, &same));
    assert!(rt; !in_order(&Size, Side::Sell, &same));
    assert!(rt; in_order(&Size, Side::Sell, &same[..1]));
}
