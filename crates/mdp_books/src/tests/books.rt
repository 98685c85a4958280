ghost use Rattle.std.specs.Prelude.{◌≡◌};

use crate::{Book, Place, Side, Sides};
use arrayvec::ArrayVec;
use mdp_templates::{Action, Entry, Kind, Level, Snapshot};
use std::test::Fail;

fn level(price: i64, size: i32) -> Level
    ensures { result ≡ record { price = price; size = size } }
{
    Level { price, size }
}

fn bid(action: Action, level: u8, price: i64, size: i32) -> Entry {
    Entry {
        security: 1,
        kind: Kind::Bid,
        action,
        level,
        price,
        size,
    }
}

// Ten levels with the prices from 100 down to 91, of size 1 each.
const TEN: [Level; 10] = [
    Level {
        price: 100,
        size: 1,
    },
    Level { price: 99, size: 1 },
    Level { price: 98, size: 1 },
    Level { price: 97, size: 1 },
    Level { price: 96, size: 1 },
    Level { price: 95, size: 1 },
    Level { price: 94, size: 1 },
    Level { price: 93, size: 1 },
    Level { price: 92, size: 1 },
    Level { price: 91, size: 1 },
];

#[test]
fn a_new_tenth_replaces_the_tenth_of_a_full_side(rt: HostRuntime) {
    let mut side = Side::<10>::from_levels(10, &TEN);
    assert!(rt; side.apply(Action::New, 10, level(90, 7)));
    let mut wanted = TEN;
    wanted[9] = level(90, 7);
    assert_eq!(rt; side.levels(), wanted.as_slice());
    assert!(rt; !side.apply(Action::New, 11, level(89, 7)));
    assert_eq!(rt; side.levels(), wanted.as_slice());
}

#[test]
fn a_new_best_pushes_the_last_implied_level_out(rt: HostRuntime) {
    let mut side = Side::<2>::new(2);
    assert!(rt; !side.apply(Action::New, 2, level(100, 5)));
    assert!(rt; side.apply(Action::New, 1, level(100, 5)));
    assert!(rt; side.apply(Action::New, 2, level(99, 6)));
    assert!(rt; side.apply(Action::New, 1, level(101, 4)));
    assert_eq!(rt; side.levels(), [level(101, 4), level(100, 5)].as_slice());
}

#[test]
fn a_change_and_a_delete_act_at_their_position(rt: HostRuntime) {
    let mut side = Side::<10>::from_levels(10, &TEN[..3]);
    assert!(rt; side.apply(Action::Change, 2, level(99, 8)));
    assert!(rt; side.apply(Action::Delete, 1, level(0, 0)));
    assert_eq!(rt; side.levels(), [level(99, 8), level(98, 1)].as_slice());
    assert!(rt; !side.apply(Action::Change, 3, level(97, 1)));
    assert!(rt; !side.apply(Action::Delete, 3, level(0, 0)));
    assert!(rt; !side.apply(Action::Delete, 0, level(0, 0)));
    assert_eq!(rt; side.levels(), [level(99, 8), level(98, 1)].as_slice());
}

#[test]
fn the_first_impossible_entry_is_the_fault(rt: HostRuntime) -> Result<(), Fail> {
    let mut book = Book::empty(10);
    let first = Place {
        packet: 1,
        message: 1,
        entry: 1,
    };
    let second = Place {
        packet: 2,
        message: 3,
        entry: 4,
    };
    let third = Place {
        packet: 3,
        message: 1,
        entry: 1,
    };
    book.apply(first, &bid(Action::New, 1, 100, 5));
    let Book::Good(sides) = &book else {
        return Err("good".into());
    };
    assert_eq!(rt; sides.bids.levels(), [level(100, 5)].as_slice());
    book.apply(second, &bid(Action::Change, 2, 99, 5));
    book.apply(third, &bid(Action::New, 1, 100, 5));
    let Book::Fault(place) = &book else {
        return Err("a fault".into());
    };
    assert_eq!(rt; *place, second);
    Ok(())
}

#[test]
fn a_snapshot_gives_its_four_sides(rt: HostRuntime) -> Result<(), Fail> {
    let mut bids = ArrayVec::new();
    bids.push(level(99, 2));
    let mut implied_offers = ArrayVec::new();
    implied_offers.push(level(101, 0));
    let snapshot = Snapshot::new(1, 7, bids, ArrayVec::new(), ArrayVec::new(), implied_offers);
    let Book::Good(sides) = Book::of_snapshot(&snapshot, 10) else {
        return Err("good".into());
    };
    assert_eq!(rt; sides.bids.levels(), [level(99, 2)].as_slice());
    assert_eq!(rt; sides.offers.levels(), [].as_slice());
    assert_eq!(rt; sides.implied_bids.levels(), [].as_slice());
    assert_eq!(rt; sides.implied_offers.levels(), [level(101, 0)].as_slice());
    Ok(())
}

#[test]
fn a_side_of_two_levels_keeps_two(rt: HostRuntime) {
    let mut side = Side::<10>::from_levels(2, &TEN[..2]);
    assert!(rt; side.apply(Action::New, 1, level(101, 4)));
    assert_eq!(rt; side.levels(), [level(101, 4), level(100, 1)].as_slice());
    assert!(rt; !side.apply(Action::New, 3, level(99, 7)));
    assert_eq!(rt; side.levels(), [level(101, 4), level(100, 1)].as_slice());
}

#[test]
fn a_level_past_the_depth_is_a_fault(rt: HostRuntime) -> Result<(), Fail> {
    let mut book = Book::empty(1);
    let first = Place {
        packet: 1,
        message: 1,
        entry: 1,
    };
    let second = Place {
        packet: 1,
        message: 1,
        entry: 2,
    };
    book.apply(first, &bid(Action::New, 1, 100, 5));
    book.apply(second, &bid(Action::New, 2, 99, 5));
    let Book::Fault(place) = &book else {
        return Err("a fault".into());
    };
    assert_eq!(rt; *place, second);
    Ok(())
}

#[test]
fn a_longer_snapshot_gives_its_first_levels(rt: HostRuntime) -> Result<(), Fail> {
    let mut bids = ArrayVec::new();
    bids.push(level(99, 2));
    bids.push(level(98, 3));
    let mut implied_bids = ArrayVec::new();
    implied_bids.push(level(99, 4));
    implied_bids.push(level(98, 5));
    let snapshot = Snapshot::new(1, 7, bids, ArrayVec::new(), implied_bids, ArrayVec::new());
    let Book::Good(sides) = Book::of_snapshot(&snapshot, 1) else {
        return Err("good".into());
    };
    assert_eq!(rt; sides.bids.levels(), [level(99, 2)].as_slice());
    assert_eq!(rt; sides.offers.levels(), [].as_slice());
    assert_eq!(rt;
        sides.implied_bids.levels(),
        [level(99, 4), level(98, 5)].as_slice()
    );
    Ok(())
}

#[test]
fn the_printed_text_follows_the_entries(rt: HostRuntime) {
    let mut side = Side::<10>::from_levels(10, &TEN[..3]);
    assert_eq!(rt; side.printed().text(), b" 100x1 99x1 98x1".as_slice());
    assert!(rt; side.apply(Action::New, 1, level(101, 20)));
    assert!(rt; side.apply(Action::Change, 2, level(-100, -3)));
    assert!(rt; side.apply(Action::Delete, 3, level(0, 0)));
    assert_eq!(rt; side.printed().text(), b" 101x20 -100x-3 98x1".as_slice());
    assert_eq!(rt; side.printed().len(), 3);
}
