//! A handle that is closed, and arguments that are out of their range.

use super::{FOLLOW, NO_BEST, NO_FAULT, NO_LEVEL, UNTOLD, open};
use crate::books::{mdp_best, mdp_fault, mdp_is_current, mdp_levels};
use crate::changed::mdp_changed;
use crate::feeding::{mdp_close, mdp_datagram};
use crate::handle::Handle;
use crate::lines::{Lent, mdp_clear_lines, mdp_lines};
use crate::opening::{mdp_free, mdp_open};
use crate::opening_text::mdp_open_text;
use crate::options::Options;
use crate::state::{State, mdp_state};
use std::alloc::Global;
use std::process::Abort;
use worked_runs::PLAIN;

/// Checks that each call with a closed handle answers that it is closed, and writes nothing.
fn is_closed<T: Abort>(rt: &T, alloc: Global, handle: &mut Handle) {
    let mut became = UNTOLD;
    assert_eq!(rt; mdp_datagram(alloc, handle, 0, b"", &mut became), 81);
    assert_eq!(rt; became, UNTOLD);
    assert_eq!(rt; mdp_close(handle), 81);
    assert_eq!(rt; mdp_clear_lines(handle), 81);
    let mut count = 9;
    assert_eq!(rt; mdp_changed(handle, &mut [], &mut count), 81);
    assert_eq!(rt;
        mdp_levels(handle, 0, 0, 0, &mut [NO_LEVEL; 1], &mut count),
        81
    );
    assert_eq!(rt; count, 9);
    let mut best = NO_BEST;
    assert_eq!(rt; mdp_best(handle, 0, &mut best), 81);
    let mut fault = NO_FAULT;
    assert_eq!(rt; mdp_fault(handle, 0, &mut fault), 81);
    let mut current = true;
    assert_eq!(rt; mdp_is_current(handle, 0, &mut current), 81);
    let mut state = State {
        next: 9,
        highest: 9,
        waiting: 9,
        stale: 9,
        is_lost: 9,
        has_stale: 9,
    };
    assert_eq!(rt; mdp_state(handle, &mut state), 81);
    assert_eq!(rt; state.next, 9);
    let mut lent = Lent { bytes: b"x" };
    assert_eq!(rt; mdp_lines(handle, &mut lent), 81);
    assert_eq!(rt; lent.bytes, b"x".as_slice());
}

#[test]
fn a_handle_is_closed_until_it_is_opened_and_after_it_is_freed(rt: HostRuntime) {
    let alloc = rt.alloc();
    let mut none = Handle::closed();
    is_closed(&rt, alloc, &mut none);
    mdp_free(alloc, &mut none);
    let (mut handle, status) = open(alloc, PLAIN, &FOLLOW);
    assert_eq!(rt; status, 0);
    let mut place = 9;
    assert_eq!(rt; mdp_open(alloc, &mut handle, &FOLLOW, &[], &mut place), 82);
    assert_eq!(rt;
        mdp_open_text(alloc, &mut handle, &FOLLOW, b"", &mut place),
        82
    );
    assert_eq!(rt; place, 9);
    assert_eq!(rt; mdp_close(&mut handle), 0);
    mdp_free(alloc, &mut handle);
    is_closed(&rt, alloc, &mut handle);
}

/// Returns what is answered to options.
fn answer(alloc: Global, options: Options) -> u32 {
    let (mut handle, status) = open(alloc, PLAIN, &options);
    mdp_free(alloc, &mut handle);
    status
}

#[test]
fn options_out_of_range_are_refused(rt: HostRuntime) {
    let alloc = rt.alloc();
    assert_eq!(rt; answer(alloc, Options { size: 23, ..FOLLOW }), 83);
    assert_eq!(rt;
        answer(
            alloc,
            Options {
                window: 0,
                ..FOLLOW
            }
        ),
        83
    );
    assert_eq!(rt;
        answer(
            alloc,
            Options {
                window: 65536,
                ..FOLLOW
            }
        ),
        0
    );
    assert_eq!(rt;
        answer(
            alloc,
            Options {
                window: 65537,
                ..FOLLOW
            }
        ),
        83
    );
    assert_eq!(rt; answer(alloc, Options { start: 1, ..FOLLOW }), 0);
    assert_eq!(rt; answer(alloc, Options { start: 2, ..FOLLOW }), 83);
    assert_eq!(rt; answer(alloc, Options { lines: 2, ..FOLLOW }), 83);
    assert_eq!(rt;
        answer(
            alloc,
            Options {
                reserved: 1,
                ..FOLLOW
            }
        ),
        83
    );
}

#[test]
fn datagrams_that_are_none_change_nothing(rt: HostRuntime) {
    let alloc = rt.alloc();
    let (mut handle, _) = open(alloc, PLAIN, &FOLLOW);
    let mut became = UNTOLD;
    assert_eq!(rt; mdp_datagram(alloc, &mut handle, 3, b"", &mut became), 83);
    assert_eq!(rt;
        mdp_datagram(alloc, &mut handle, 0, &[0; 2049], &mut became),
        23
    );
    assert_eq!(rt;
        mdp_datagram(alloc, &mut handle, 0, &[0; 2048], &mut became),
        2
    );
    assert_eq!(rt; mdp_datagram(alloc, &mut handle, 0, b"", &mut became), 1);
    assert_eq!(rt; became, UNTOLD);
    mdp_free(alloc, &mut handle);
}
