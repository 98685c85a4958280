//! A queue from three senders to one receiver.

ghost use Rattle.std.specs.Prelude.{◌≡◌, ◌≤◌, ⊤, false, [], ◌∷◌, ◌++◌, IfOk};
ghost use Rattle.std.specs.List.{list_any};
ghost use Rattle.mdp_lanes.specs.Items.{items_of, ends_taken};
ghost use Rattle.mdp_lanes.specs.Queues.{IsSenderOf, IsFreshSenderOf};

use crate::ends::Ends;
use crate::retry;
use crate::rule::{Account, Knowledge};
use crossbeam_channel::protocol::{Lesson, Outcome, Protocol};
use crossbeam_channel::{Pass, RuledReceiver, RuledSender, bounded_with};
use mdp_templates::{Feed, Memory};
use std::alloc::Allocator;
use std::marker::{Model, PhantomData};
use std::sync::Wait;

// What an end knows: a key is a tag, and an item is sent with it.
type IntakeKnowledge<I> = Knowledge<Feed, I, (Feed, I)>;

// Of each tag, what was taken and what the queue holds is what was sent, and nothing was sent behind an end.
struct EachInOrder;

impl<I: Ends> Protocol<(Feed, I), IntakeKnowledge<I>> for EachInOrder {
    ghost use Rattle.std.specs.Prelude.{[]};
    ghost use Rattle.mdp_lanes.specs.Rule.{receiver, Delivers};
    ghost use Rattle.mdp_lanes.specs.Items.{items_of, EndsLast};
    ghost use Rattle.mdp_lanes.specs.Intakes.{three_rights};

    ghost holds = { Delivers items_of (EndsLast I.is_end) };

    ghost first = { receiver [] three_rights };
}

struct Put;

impl<I: Ends> Outcome<(Feed, I), IntakeKnowledge<I>> for Put {
    ghost use Rattle.mdp_lanes.specs.Intakes.{Puts};

    ghost then = { Puts };
}

impl<I: Ends> Lesson<(Feed, I), IntakeKnowledge<I>> for Put {
    ghost fact = { λ _ _. ⊤ };
}

struct Take;

impl<I: Ends> Outcome<(Feed, I), IntakeKnowledge<I>> for Take {
    ghost use Rattle.mdp_lanes.specs.Intakes.{Takes};

    ghost then = { Takes I.is_end };
}

impl<I: Ends> Lesson<(Feed, I), IntakeKnowledge<I>> for Take {
    ghost fact = { λ _ _. ⊤ };
}

impl<I: Ends> Lesson<(Feed, I), IntakeKnowledge<I>> for Account {
    ghost use Rattle.mdp_lanes.specs.Rule.{Accounts};
    ghost use Rattle.mdp_lanes.specs.Items.{items_of};

    ghost fact = { Accounts items_of };
}

/// The end that puts items under one tag. A contract sees its intake, its tag, and the list of all that it has put.
#[derive(Drop)]
pub struct IntakeSender<I: Ends, A: Allocator + Copy> {
    channel: RuledSender<(Feed, I), IntakeKnowledge<I>, EachInOrder, A>,
    pass: Pass<(Feed, I), IntakeKnowledge<I>>,
    tag: Feed,
    ended: bool,
}

impl<I: Ends, A: Allocator + Copy> Model for IntakeSender<I, A> {
    ghost use Rattle.std.specs.Prelude.{◌≡◌, [], ◌∷◌};
    ghost use Rattle.std.specs.List.{list_any};
    ghost use Rattle.crossbeam_channel.specs.Claims.{view as known, IsSeatAt};
    ghost use Rattle.crossbeam_channel.specs.Ends.{sends_on, ruled_capacity};
    ghost use Rattle.mdp_lanes.specs.Rule.{sender, first_list};
    ghost use Rattle.mdp_lanes.specs.Items.{EndsLast};
    ghost use Rattle.mdp_lanes.specs.Queues.{IntakeSenderView, queue_of};

    ghost Value = { IntakeSenderView I };

    ghost view = { λ s. record {
      intake = queue_of s.pass (ruled_capacity (sends_on s.channel));
      tag = s.tag;
      sent = first_list (known s.pass).rights;
    } };

    ghost invariant = { λ s.
        IsSeatAt (sends_on s.channel) s.pass
        × (known s.pass ≡ sender ((s.tag, first_list (known s.pass).rights) ∷ []))
        × (s.ended ≡ list_any I.is_end (first_list (known s.pass).rights))
        × EndsLast I.is_end (first_list (known s.pass).rights) };
}

/// The end that takes. A contract sees its intake, and the list of all that it has taken, each item with the tag of
/// its sender.
#[derive(Drop)]
pub struct IntakeReceiver<I: Ends, A: Allocator + Copy> {
    channel: RuledReceiver<(Feed, I), IntakeKnowledge<I>, EachInOrder, A>,
    pass: Pass<(Feed, I), IntakeKnowledge<I>>,
    ends: u8,
}

impl<I: Ends, A: Allocator + Copy> Model for IntakeReceiver<I, A> {
    ghost use Rattle.std.specs.Prelude.{◌≡◌, ◌≤◌, []};
    ghost use Rattle.crossbeam_channel.specs.Claims.{view as known, IsSeatAt};
    ghost use Rattle.crossbeam_channel.specs.Ends.{receives_on, ruled_capacity};
    ghost use Rattle.mdp_lanes.specs.Rule.{receiver};
    ghost use Rattle.mdp_lanes.specs.Items.{ends_taken};
    ghost use Rattle.mdp_lanes.specs.Queues.{IntakeReceiverView, queue_of};

    ghost Value = { IntakeReceiverView I };

    ghost view = { λ r. record {
      intake = queue_of r.pass (ruled_capacity (receives_on r.channel));
      taken = (known r.pass).taken;
    } };

    ghost invariant = { λ r.
        IsSeatAt (receives_on r.channel) r.pass
        × (known r.pass ≡ receiver (known r.pass).taken [])
        × (r.ends ≡ ends_taken I.is_end (known r.pass).taken)
        × (r.ends ≤ 3) };
}

impl<I: Ends, A: Allocator + Copy> IntakeSender<I, A> {
    /// Returns whether it has put its last item.
    pub fn ended(&self) -> bool
        ensures { result ≡ list_any I.is_end self.now.sent }
    {
        self.ended
    }

    /// Puts the item at the back of the queue, with the sender's tag. It has not put its last item before. It waits
    /// while the queue is full, and does not return where the receiver is gone.
    pub fn put<R: Wait>(&mut self, rt: &R, item: I)
        requires { list_any I.is_end self.old.sent ≡ false }
        ensures { self.new ≡ record self.old { sent = self.old.sent ++ item ∷ [] } }
    {
        let ended = item.is_end();
        retry::send::<_, _, _, Put, R, A>(rt, &self.channel, &mut self.pass, (self.tag, item));
        self.ended = ended;
    }
}

impl<I: Ends, A: Allocator + Copy> IntakeReceiver<I, A> {
    /// Returns how many last items it has taken, of 3 senders at most.
    pub fn ends(&self) -> u8
        ensures count { result ≡ ends_taken I.is_end self.now.taken }
        ensures most { result ≤ 3 }
    {
        self.ends
    }

    /// Takes the item at the front of the queue, with the tag of its sender. It waits while the queue is empty, and
    /// does not return where the senders are gone, too.
    pub fn take<R: Wait>(&mut self, rt: &R) -> (Feed, I)
        ensures { self.new ≡ record self.old { taken = self.old.taken ++ result ∷ [] } }
    {
        let message = retry::receive::<_, _, _, Take, R, A>(rt, &self.channel, &mut self.pass);
        if message.1.is_end() {
            self.ends += 1;
        }
        message
    }
}

/// A queue from three senders to one receiver.
pub struct Intake<I> {
    items: PhantomData<I>,
}

impl<I: Ends> Intake<I> {
    /// Makes the senders with the tags A, B and S, and the receiver, of an empty queue with room for this many items,
    /// 1 to 65536. It takes all of the queue's memory, or answers `Memory`; no other call takes any.
    pub fn new<A: Allocator + Copy>(
        alloc: A,
        capacity: usize,
    ) -> Result<
        (
            IntakeSender<I, A>,
            IntakeSender<I, A>,
            IntakeSender<I, A>,
            IntakeReceiver<I, A>,
        ),
        Memory,
    >
        requires least { 1 ≤ capacity }
        requires most { capacity ≤ 65536 }
        ensures a { IfOk result (λ ends. IsFreshSenderOf ends.3 Feed.A ends.0) }
        ensures b { IfOk result (λ ends. IsFreshSenderOf ends.3 Feed.B ends.1) }
        ensures s { IfOk result (λ ends. IsFreshSenderOf ends.3 Feed.S ends.2) }
        ensures receiver { IfOk result (λ ends. ends.3.taken ≡ []) }
        ensures room { IfOk result (λ ends. ends.3.intake.room ≡ capacity) }
    {
        let (channel, receiving, mut pass) = bounded_with::<
            (Feed, I),
            IntakeKnowledge<I>,
            EachInOrder,
            A,
        >(alloc, capacity)?;
        let b_channel = channel.try_clone()?;
        let s_channel = channel.try_clone()?;
        let a_pass = channel.another::<Account>(&mut pass);
        let b_pass = channel.another::<Account>(&mut pass);
        let s_pass = channel.another::<Account>(&mut pass);
        let a = IntakeSender {
            channel,
            pass: a_pass,
            tag: Feed::A,
            ended: false,
        };
        let b = IntakeSender {
            channel: b_channel,
            pass: b_pass,
            tag: Feed::B,
            ended: false,
        };
        let s = IntakeSender {
            channel: s_channel,
            pass: s_pass,
            tag: Feed::S,
            ended: false,
        };
        let receiver = IntakeReceiver {
            channel: receiving,
            pass,
            ends: 0,
        };
        Ok((a, b, s, receiver))
    }

    /// Takes in the four ends of one `new`, once the receiver has taken the last items of all three senders. What it
    /// has taken with each tag is all that the tag's sender has put, item for item, in order.
    pub fn settle<A: Allocator + Copy>(
        receiver: IntakeReceiver<I, A>,
        a: IntakeSender<I, A>,
        b: IntakeSender<I, A>,
        s: IntakeSender<I, A>,
    )
        requires a { IsSenderOf receiver Feed.A a }
        requires b { IsSenderOf receiver Feed.B b }
        requires s { IsSenderOf receiver Feed.S s }
        requires ends { ends_taken I.is_end receiver.taken ≡ 3 }
        ensures a { items_of Feed.A receiver.taken ≡ a.sent }
        ensures b { items_of Feed.B receiver.taken ≡ b.sent }
        ensures s { items_of Feed.S receiver.taken ≡ s.sent }
    {
        let IntakeReceiver { mut pass, .. } = receiver;
        let IntakeSender {
            channel,
            pass: a_pass,
            ..
        } = a;
        let IntakeSender { pass: b_pass, .. } = b;
        let IntakeSender { pass: s_pass, .. } = s;
        channel.absorb::<Account>(&mut pass, a_pass);
        channel.absorb::<Account>(&mut pass, b_pass);
        channel.absorb::<Account>(&mut pass, s_pass);
        channel.learn_as::<Account>(&mut pass);
    }
}
