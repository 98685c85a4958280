//! Calls on a channel under a rule, tried again until they go through.

ghost use Rattle.std.specs.Prelude.{◌≡◌};
ghost use Rattle.crossbeam_channel.specs.Claims.{view, IsSeatAt};
ghost use Rattle.crossbeam_channel.specs.Ends.{sends_on, receives_on, ruled_capacity};
ghost use Rattle.crossbeam_channel.specs.Fifo.{Pushes, Pops, Learns};

use crossbeam_channel::protocol::{Lesson, Outcome, Protocol};
use crossbeam_channel::{Pass, RuledReceiver, RuledSender};
use std::alloc::Allocator;
use std::sync::Wait;
use std::thread;

/// Sends the message. It waits while the channel is full, and does not return where the receiver is gone.
pub fn send<
    T: Drop,
    V,
    P: Protocol<T, V>,
    M: Outcome<T, V> + Lesson<T, V>,
    R: Wait,
    A: Allocator + Copy,
>(rt: &R, channel: &RuledSender<T, V, P, A>, pass: &mut Pass<T, V>, message: T)
    requires seat { IsSeatAt (sends_on channel.now) pass.old }
    requires rule { Pushes P.holds (ruled_capacity (sends_on channel.now)) pass.old.id
        (view pass.old) message (M.then (view pass.old) message) }
    requires lesson { Learns P.holds pass.old.id (view pass.old) (M.fact (view pass.old)) }
    ensures seat { IsSeatAt (sends_on channel.now) pass.new }
    ensures same { (pass.new.table_id ≡ pass.old.table_id) × (pass.new.me.0.of ≡ pass.old.me.0.of) }
    ensures rule { M.then (view pass.old) message (view pass.new) }
{
    let mut unsent = message;
    for _ in rt.forever() {
        match channel.send_as::<M, R>(rt, pass, unsent) {
            Ok(()) => return,
            Err(error) => unsent = error.into_inner(),
        }
        thread::yield_now();
    }
    unreachable!()
}

/// Receives a message. It waits while the channel is empty, and does not return where the senders are gone, too.
pub fn receive<
    T: Drop,
    V,
    P: Protocol<T, V>,
    M: Outcome<T, V> + Lesson<T, V>,
    R: Wait,
    A: Allocator + Copy,
>(rt: &R, channel: &RuledReceiver<T, V, P, A>, pass: &mut Pass<T, V>) -> T
    requires seat { IsSeatAt (receives_on channel.now) pass.old }
    requires rule { Pops P.holds pass.old.id (view pass.old) (M.then (view pass.old)) }
    requires lesson { Learns P.holds pass.old.id (view pass.old) (M.fact (view pass.old)) }
    ensures seat { IsSeatAt (receives_on channel.now) pass.new }
    ensures same { (pass.new.table_id ≡ pass.old.table_id) × (pass.new.me.0.of ≡ pass.old.me.0.of) }
    ensures rule { M.then (view pass.old) result (view pass.new) }
{
    for _ in rt.forever() {
        if let Ok(message) = channel.recv_as::<M, R>(rt, pass) {
            return message;
        }
        thread::yield_now();
    }
    unreachable!()
}
