//! A book that becomes faulty.

use super::{FOLLOW, NO_BEST, NO_FAULT, NO_LEVEL, UNTOLD, open};
use crate::books::{BookFault, mdp_best, mdp_fault, mdp_levels};
use crate::feeding::mdp_datagram;
use crate::opening::mdp_free;
use worked_runs::PLAIN;

/// Packet 1, which changes the first bid of a book that has none.
const IMPOSSIBLE: &[u8] =
    b"\x01\0\0\0\0\0\0\0\0\0\0\0\x38\0\x0b\0\x2e\0\x01\0\x09\0\0\0\0\0\0\0\0\0\x80\0\0\x20\0\x01\
    \x64\0\0\0\0\0\0\0\x05\0\0\0\x01\0\0\0\0\0\0\0\x01\0\0\0\x01\x01\x30\0\0\0\0\0";

#[test]
fn a_faulty_book_tells_its_place_and_has_no_levels(rt: HostRuntime) {
    let alloc = rt.alloc();
    let (mut handle, _) = open(alloc, PLAIN, &FOLLOW);
    let mut became = UNTOLD;
    assert_eq!(rt;
        mdp_datagram(alloc, &mut handle, 0, IMPOSSIBLE, &mut became),
        0
    );
    let mut fault = NO_FAULT;
    assert_eq!(rt; mdp_fault(&mut handle, 0, &mut fault), 0);
    let first = BookFault {
        message: 1,
        packet: 1,
        entry: 1,
        is_faulty: 1,
        reserved: 0,
    };
    assert_eq!(rt; fault, first);
    let mut best = NO_BEST;
    assert_eq!(rt; mdp_best(&mut handle, 0, &mut best), 0);
    assert_eq!(rt; (best.is_faulty, best.has_bid, best.has_offer), (1, 0, 0));
    let mut count = 7;
    assert_eq!(rt;
        mdp_levels(&mut handle, 0, 2, 0, &mut [NO_LEVEL; 2], &mut count),
        0
    );
    assert_eq!(rt; count, 0);
    mdp_free(alloc, &mut handle);
}
