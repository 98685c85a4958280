//! A queue from one sender to one receiver.

ghost use Rattle.std.specs.Prelude.{◌≡◌, ◌≤◌, ⊤, [], ◌∷◌, ◌++◌, IfOk, length, take};

use crate::retry;
use crate::rule::{Account, Knowledge};
use crossbeam_channel::protocol::{Lesson, Outcome, Protocol};
use crossbeam_channel::{Pass, RuledReceiver, RuledSender, bounded_with};
use mdp_templates::Memory;
use std::alloc::Allocator;
use std::marker::{Model, PhantomData};
use std::sync::Wait;

// What an end knows: there is one key.
type LaneKnowledge<T> = Knowledge<(), T, T>;

// What was taken and what the queue holds is what was sent.
struct AllInOrder;

impl<T> Protocol<T, LaneKnowledge<T>> for AllInOrder {
    ghost use Rattle.std.specs.Prelude.{[]};
    ghost use Rattle.mdp_lanes.specs.Rule.{receiver, Delivers};
    ghost use Rattle.mdp_lanes.specs.Lanes.{whole, Any, only_right};

    ghost holds = { Delivers whole Any };

    ghost first = { receiver [] (only_right []) };
}

struct Put;

impl<T> Outcome<T, LaneKnowledge<T>> for Put {
    ghost use Rattle.mdp_lanes.specs.Lanes.{Puts};

    ghost then = { Puts };
}

impl<T> Lesson<T, LaneKnowledge<T>> for Put {
    ghost fact = { λ _ _. ⊤ };
}

struct Take;

impl<T> Outcome<T, LaneKnowledge<T>> for Take {
    ghost use Rattle.mdp_lanes.specs.Lanes.{Takes};

    ghost then = { Takes };
}

impl<T> Lesson<T, LaneKnowledge<T>> for Take {
    ghost fact = { λ _ _. ⊤ };
}

impl<T> Lesson<T, LaneKnowledge<T>> for Account {
    ghost use Rattle.mdp_lanes.specs.Rule.{Accounts};
    ghost use Rattle.mdp_lanes.specs.Lanes.{whole};

    ghost fact = { Accounts whole };
}

/// The end that puts. A contract sees its lane, and the list of all that it has put.
#[derive(Drop)]
pub struct LaneSender<T: Drop, A: Allocator + Copy> {
    channel: RuledSender<T, LaneKnowledge<T>, AllInOrder, A>,
    pass: Pass<T, LaneKnowledge<T>>,
}

impl<T: Drop, A: Allocator + Copy> Model for LaneSender<T, A> {
    ghost use Rattle.std.specs.Prelude.{◌≡◌};
    ghost use Rattle.crossbeam_channel.specs.Claims.{view as known, IsSeatAt};
    ghost use Rattle.crossbeam_channel.specs.Ends.{sends_on, ruled_capacity};
    ghost use Rattle.mdp_lanes.specs.Rule.{sender, first_list};
    ghost use Rattle.mdp_lanes.specs.Lanes.{only_right};
    ghost use Rattle.mdp_lanes.specs.Queues.{LaneSenderView, queue_of};

    ghost Value = { LaneSenderView T };

    ghost view = { λ s. record {
      lane = queue_of s.pass (ruled_capacity (sends_on s.channel));
      sent = first_list (known s.pass).rights;
    } };

    ghost invariant = { λ s.
        IsSeatAt (sends_on s.channel) s.pass
        × (known s.pass ≡ sender (only_right (first_list (known s.pass).rights))) };
}

/// The end that takes. A contract sees its lane, and the list of all that it has taken.
#[derive(Drop)]
pub struct LaneReceiver<T: Drop, A: Allocator + Copy> {
    channel: RuledReceiver<T, LaneKnowledge<T>, AllInOrder, A>,
    pass: Pass<T, LaneKnowledge<T>>,
}

impl<T: Drop, A: Allocator + Copy> Model for LaneReceiver<T, A> {
    ghost use Rattle.std.specs.Prelude.{◌≡◌, []};
    ghost use Rattle.crossbeam_channel.specs.Claims.{view as known, IsSeatAt};
    ghost use Rattle.crossbeam_channel.specs.Ends.{receives_on, ruled_capacity};
    ghost use Rattle.mdp_lanes.specs.Rule.{receiver};
    ghost use Rattle.mdp_lanes.specs.Queues.{LaneReceiverView, queue_of};

    ghost Value = { LaneReceiverView T };

    ghost view = { λ r. record {
      lane = queue_of r.pass (ruled_capacity (receives_on r.channel));
      taken = (known r.pass).taken;
    } };

    ghost invariant = { λ r.
        IsSeatAt (receives_on r.channel) r.pass × (known r.pass ≡ receiver (known r.pass).taken []) };
}

impl<T: Drop, A: Allocator + Copy> LaneSender<T, A> {
    /// Puts the item at the back of the queue. It waits while the queue is full, and does not return where the
    /// receiver is gone.
    pub fn put<R: Wait>(&mut self, rt: &R, item: T)
        ensures { self.new ≡ record self.old { sent = self.old.sent ++ item ∷ [] } }
    {
        retry::send::<_, _, _, Put, R, A>(rt, &self.channel, &mut self.pass, item);
    }
}

impl<T: Drop, A: Allocator + Copy> LaneReceiver<T, A> {
    /// Takes the item at the front of the queue. It waits while the queue is empty, and does not return where the
    /// sender is gone, too.
    pub fn take<R: Wait>(&mut self, rt: &R) -> T
        ensures { self.new ≡ record self.old { taken = self.old.taken ++ result ∷ [] } }
    {
        retry::receive::<_, _, _, Take, R, A>(rt, &self.channel, &mut self.pass)
    }
}

/// A queue from one sender to one receiver.
pub struct Lane<T> {
    items: PhantomData<T>,
}

impl<T: Drop> Lane<T> {
    /// Makes the sender and the receiver of an empty queue with room for this many items, 1 to 65536. It takes all of
    /// the queue's memory, or answers `Memory`; no other call takes any.
    pub fn new<A: Allocator + Copy>(
        alloc: A,
        capacity: usize,
    ) -> Result<(LaneSender<T, A>, LaneReceiver<T, A>), Memory>
        requires least { 1 ≤ capacity }
        requires most { capacity ≤ 65536 }
        ensures lane { IfOk result (λ ends. ends.0.lane ≡ ends.1.lane) }
        ensures sender { IfOk result (λ ends. ends.0.sent ≡ []) }
        ensures receiver { IfOk result (λ ends. ends.1.taken ≡ []) }
        ensures room { IfOk result (λ ends. ends.1.lane.room ≡ capacity) }
    {
        let (channel, receiving, mut pass) = bounded_with::<T, LaneKnowledge<T>, AllInOrder, A>(
            alloc, capacity,
        )?;
        let sending = channel.another::<Account>(&mut pass);
        let sender = LaneSender {
            channel,
            pass: sending,
        };
        let receiver = LaneReceiver {
            channel: receiving,
            pass,
        };
        Ok((sender, receiver))
    }

    /// Takes in the two ends of one `new`. What was taken is a beginning of what was put, and all of it where as many
    /// items were taken.
    pub fn settle<A: Allocator + Copy>(sender: LaneSender<T, A>, receiver: LaneReceiver<T, A>)
        requires { sender.lane ≡ receiver.lane }
        ensures front { receiver.taken ≡ take (length receiver.taken) sender.sent }
        ensures all { length receiver.taken ≡ length sender.sent → receiver.taken ≡ sender.sent }
    {
        let LaneReceiver { mut pass, .. } = receiver;
        let LaneSender {
            channel,
            pass: sending,
        } = sender;
        channel.absorb::<Account>(&mut pass, sending);
        channel.learn_as::<Account>(&mut pass);
    }
}
