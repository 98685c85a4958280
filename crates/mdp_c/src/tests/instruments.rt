//! Instruments that are listed, and those that are refused.

use super::FOLLOW;
use crate::handle::Handle;
use crate::opening::{mdp_free, mdp_open};
use crate::opening_text::mdp_open_text;
use mdp_session::Listed;
use std::alloc::Global;

/// An outright of ten levels with a name of four bytes.
const NEAR: Listed = Listed {
    id: 1,
    leg1: 0,
    leg2: 0,
    depth: 10,
    length: 4,
    name: *b"NEAR----------------",
    reserved: 0,
};

const FAR: Listed = Listed {
    id: 2,
    length: 3,
    name: *b"FAR                 ",
    ..NEAR
};

const CALENDAR: Listed = Listed {
    id: 3,
    leg1: 1,
    leg2: 2,
    length: 20,
    name: *b"NEAR-FAR-CALENDAR-20",
    ..NEAR
};

/// Returns what is answered to an array, and where it is refused.
fn of_array(alloc: Global, listed: &[Listed]) -> (u32, u64) {
    let mut handle = Handle::closed();
    let mut place = 99;
    let status = mdp_open(alloc, &mut handle, &FOLLOW, listed, &mut place);
    mdp_free(alloc, &mut handle);
    (status, place)
}

#[test]
fn an_array_is_listed_or_refused_at_its_first_wrong_entry(rt: HostRuntime) {
    let alloc = rt.alloc();
    assert_eq!(rt; of_array(alloc, &[NEAR, FAR, CALENDAR]), (0, 99));
    assert_eq!(rt; of_array(alloc, &[]), (34, 99));
    assert_eq!(rt; of_array(alloc, &[NEAR, FAR, FAR]), (31, 2));
    assert_eq!(rt; of_array(alloc, &[NEAR, CALENDAR, FAR]), (32, 1));
    assert_eq!(rt; of_array(alloc, &[NEAR; 513]), (31, 1));
}

#[test]
fn a_field_out_of_range_is_refused(rt: HostRuntime) {
    let alloc = rt.alloc();
    assert_eq!(rt; of_array(alloc, &[FAR, Listed { id: 0, ..NEAR }]), (83, 1));
    assert_eq!(rt; of_array(alloc, &[Listed { depth: 0, ..NEAR }]), (83, 0));
    assert_eq!(rt; of_array(alloc, &[Listed { depth: 1, ..NEAR }]), (0, 99));
    assert_eq!(rt; of_array(alloc, &[Listed { depth: 11, ..NEAR }]), (83, 0));
    assert_eq!(rt;
        of_array(
            alloc,
            &[
                NEAR,
                FAR,
                Listed {
                    depth: 9,
                    ..CALENDAR
                }
            ]
        ),
        (83, 2)
    );
    assert_eq!(rt;
        of_array(
            alloc,
            &[
                NEAR,
                FAR,
                Listed {
                    leg2: 0,
                    ..CALENDAR
                }
            ]
        ),
        (83, 2)
    );
    assert_eq!(rt; of_array(alloc, &[Listed { length: 0, ..NEAR }]), (83, 0));
    assert_eq!(rt; of_array(alloc, &[Listed { length: 21, ..NEAR }]), (83, 0));
    assert_eq!(rt; of_array(alloc, &[Listed { length: 4, ..FAR }]), (83, 0));
    assert_eq!(rt;
        of_array(
            alloc,
            &[Listed {
                reserved: 1,
                ..NEAR
            }]
        ),
        (83, 0)
    );
}

/// Returns what is answered to a text, and at which line it is refused.
fn of_text(alloc: Global, text: &[u8]) -> (u32, u64) {
    let mut handle = Handle::closed();
    let mut line = 99;
    let status = mdp_open_text(alloc, &mut handle, &FOLLOW, text, &mut line);
    mdp_free(alloc, &mut handle);
    (status, line)
}

#[test]
fn a_text_is_listed_or_refused_at_its_first_wrong_line(rt: HostRuntime) {
    let alloc = rt.alloc();
    assert_eq!(rt;
        of_text(alloc, b"I 1 NEAR O\r\nI 2 FAR O 5\nI 3 CAL C 1 2"),
        (0, 99)
    );
    assert_eq!(rt; of_text(alloc, b""), (34, 99));
    assert_eq!(rt; of_text(alloc, b"I 1 NEAR O\n\nI 2 FAR O\n"), (21, 2));
    assert_eq!(rt; of_text(alloc, b"I 1 NEAR O\nX\n"), (21, 2));
    assert_eq!(rt;
        of_text(alloc, b"I 1 NEAR O\nI 2 FAR O\nI 2 LATE O\n"),
        (31, 3)
    );
    assert_eq!(rt; of_text(alloc, b"I 3 CAL C 1 2\n"), (32, 1));
}
