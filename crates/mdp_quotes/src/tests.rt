use super::*;
use arrayvec::ArrayVec;
use mdp_books::{Book, Place};
use mdp_templates::{Action, Entry, Kind, Level, Snapshot};
use std::test::Fail;

fn place(entry: u8) -> Place {
    Place {
        packet: 1,
        message: 1,
        entry,
    }
}

fn new(kind: Kind, level: u8, price: i64, size: i32) -> Entry {
    Entry {
        security: 1,
        kind,
        action: Action::New,
        level,
        price,
        size,
    }
}

#[test]
fn one_price_is_listed_once(rt: HostRuntime) -> Result<(), Fail> {
    let mut live = Live::empty(10);
    live.apply(place(1), &new(Kind::Bid, 1, 99, 1));
    live.apply(place(2), &new(Kind::Bid, 2, 100, 5));
    live.apply(place(3), &new(Kind::Bid, 3, 99, 2147483646));
    live.apply(place(4), &new(Kind::ImpliedBid, 1, 101, 0));
    let Book::Good(sides) = live.book() else {
        return Err("good".into());
    };
    let direct = [
        Level { price: 99, size: 1 },
        Level {
            price: 100,
            size: 5,
        },
        Level {
            price: 99,
            size: 2147483646,
        },
    ];
    assert_eq!(rt; sides.bids.levels(), direct.as_slice());
    let quotes = live.consolidated().ok_or("quotes")?;
    let bids = [
        Total {
            price: 101,
            size: 0,
        },
        Total {
            price: 100,
            size: 5,
        },
        Total {
            price: 99,
            size: 2147483647,
        },
    ];
    assert_eq!(rt; quotes.bids(), bids.as_slice());
    assert_eq!(rt; quotes.offers(), [].as_slice());
    let top = TopOfBook {
        bid: Some(Total {
            price: 101,
            size: 0,
        }),
        offer: None,
    };
    assert_eq!(rt; quotes.top(), top);
    Ok(())
}

#[test]
fn offers_rise_and_a_gone_price_is_gone(rt: HostRuntime) -> Result<(), Fail> {
    let mut offers = ArrayVec::new();
    offers.push(Level {
        price: 7,
        size: 2147483647,
    });
    offers.push(Level { price: 8, size: 3 });
    let mut implied_offers = ArrayVec::new();
    implied_offers.push(Level { price: 6, size: 4 });
    implied_offers.push(Level {
        price: 7,
        size: 2147483647,
    });
    let snapshot = Snapshot::new(
        1,
        5,
        ArrayVec::new(),
        offers,
        ArrayVec::new(),
        implied_offers,
    );
    let mut live = Live::of_snapshot(&snapshot, 10);
    let quotes = Consolidated::of(live.book()).ok_or("quotes")?;
    let before = [
        Total { price: 6, size: 4 },
        Total {
            price: 7,
            size: 4294967294,
        },
        Total { price: 8, size: 3 },
    ];
    assert_eq!(rt; quotes.offers(), before.as_slice());
    let top = TopOfBook {
        bid: None,
        offer: Some(Total { price: 6, size: 4 }),
    };
    assert_eq!(rt; quotes.top(), top);
    let mut gone = new(Kind::Offer, 2, 0, 0);
    gone.action = Action::Delete;
    live.apply(place(1), &gone);
    let quotes = live.consolidated().ok_or("quotes")?;
    assert_eq!(rt; quotes.offers(), &before[..2]);
    live.apply(place(2), &gone);
    assert!(rt; live.consolidated().is_none());
    Ok(())
}

fn quoted(bid: Option<Level>, offer: Option<Level>) -> Best {
    Best {
        bid,
        offer,
        implied_bid: None,
        implied_offer: None,
    }
}

fn at(price: i64, size: i32) -> Option<Level> {
    Some(Level { price, size })
}

#[test]
fn a_spread_is_held_against_its_legs(rt: HostRuntime) {
    let leg1 = quoted(at(100, 5), at(102, 3));
    let leg2 = quoted(at(98, 4), at(99, 2));
    let mut spread = quoted(None, None);
    assert_eq!(rt;
        audit(&spread, &leg1, &leg2),
        [Verdict::Missing, Verdict::Missing]
    );
    spread.implied_bid = at(1, 2);
    spread.implied_offer = at(4, 2);
    assert_eq!(rt;
        audit(&spread, &leg1, &leg2),
        [Verdict::Equal, Verdict::EqualLess]
    );
    spread.implied_bid = at(2, 9);
    spread.implied_offer = at(5, 3);
    assert_eq!(rt;
        audit(&spread, &leg1, &leg2),
        [Verdict::Better, Verdict::Worse]
    );
    spread.implied_bid = at(1, 3);
    spread.implied_offer = None;
    assert_eq!(rt;
        audit(&spread, &leg1, &quoted(None, at(99, 2))),
        [Verdict::EqualMore, Verdict::Neither]
    );
    assert_eq!(rt;
        audit(&spread, &quoted(None, None), &leg2),
        [Verdict::Extra, Verdict::Neither]
    );
}

#[test]
fn prices_far_apart_are_held_against_one_another(rt: HostRuntime) {
    let leg1 = quoted(at(9223372036854775807, 1), None);
    let leg2 = quoted(None, at(-9223372036854775808, 1));
    let mut spread = quoted(None, None);
    spread.implied_bid = at(-1, 1);
    assert_eq!(rt;
        audit(&spread, &leg1, &leg2),
        [Verdict::Worse, Verdict::Neither]
    );
}

#[test]
fn level_1_of_each_side_is_the_best(rt: HostRuntime) -> Result<(), Fail> {
    let mut book = Book::empty(10);
    book.apply(place(1), &new(Kind::Bid, 1, 99, 1));
    book.apply(place(2), &new(Kind::Bid, 1, 100, 5));
    book.apply(place(3), &new(Kind::ImpliedOffer, 1, 103, 2));
    let best = Best::of(&book).ok_or("good")?;
    assert_eq!(rt; best.bid, at(100, 5));
    assert_eq!(rt; best.offer, None);
    assert_eq!(rt; best.implied_bid, None);
    assert_eq!(rt; best.implied_offer, at(103, 2));
    book.apply(place(4), &new(Kind::Offer, 2, 101, 1));
    assert!(rt; Best::of(&book).is_none());
    Ok(())
}
