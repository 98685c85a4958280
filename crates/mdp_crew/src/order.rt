//! What the arbiter sends to each worker.

ghost use Rattle.std.specs.Prelude.{◌≡◌, [], ◌∷◌, IfErr, IfOk, OnOk, length, map, replicate};
ghost use Rattle.mdp_crew.specs.Orders.{and_sent};
ghost use Rattle.mdp_arbiter.specs.OwnedMoves.{move_of};

use crate::last_orders::LastOrders;
use crate::shared_moves::SharedMoves;
use mdp_arbiter::OwnedMove;
use mdp_lanes::LaneSender;
use mdp_templates::Memory;
use std::alloc::Allocator;
use std::sync::Wait;

/// What the arbiter sends to each worker.
#[derive(Drop)]
pub enum Order<A: Allocator> {
    /// Make these moves, and report them.
    Take(SharedMoves<A>),
    /// There are no more.
    Done,
}

/// Tells each worker that there are no more orders.
pub fn send_done<R: Wait, A: Allocator + Copy>(rt: &R, senders: &mut [LaneSender<Order<A>, A>])
    ensures { senders.new ≡ map (and_sent (Order.Done ∷ [])) senders.old }
{
    for sender in senders.iter_mut() {
        sender.put(rt, Order::Done);
    }
}

// Makes so many shares.
fn share_out<A: Allocator + Copy>(
    alloc: A,
    moves: &SharedMoves<A>,
    count: usize,
) -> Result<Vec<SharedMoves<A>, A>, Memory>
    ensures { IfOk result (λ shares. shares.items ≡ replicate count moves.now) }
{
    let mut shares = Vec::with_capacity(alloc, count)?;
    for _ in 0..count {
        shares.push(moves.share()?)?;
    }
    Ok(shares)
}

// Puts a share of the moves into each lane.
fn send_shares<R: Wait, A: Allocator + Copy>(
    rt: &R,
    senders: &mut [LaneSender<Order<A>, A>],
    moves: &SharedMoves<A>,
    mut shares: Vec<SharedMoves<A>, A>,
)
    requires { shares.items ≡ replicate (length senders.old) moves.now }
    ensures { senders.new ≡ map (and_sent (Order.Take moves.now ∷ [])) senders.old }
{
    for sender in senders.iter_mut() {
        let Some(share) = shares.pop() else {
            unreachable!()
        };
        sender.put(rt, Order::Take(share));
    }
}

/// Sends the moves to each worker, and holds a share of them. All memory that this takes is taken before the first is
/// sent to.
///
/// # Errors
///
/// Memory ran out; nothing was sent.
pub fn send_moves<R: Wait, A: Allocator + Copy>(
    rt: &R,
    alloc: A,
    senders: &mut [LaneSender<Order<A>, A>],
    owned_moves: Vec<OwnedMove<A>, A>,
    last: &mut LastOrders<A>,
) -> Result<(), Memory>
    ensures sends { OnOk result (senders.new
        ≡ map (and_sent (Order.Take (map move_of owned_moves.items) ∷ [])) senders.old) }
    ensures stays { IfErr result (λ _. senders.new ≡ senders.old) }
{
    let moves = SharedMoves::new(alloc, owned_moves)?;
    let shares = share_out(alloc, &moves, senders.len())?;
    send_shares(rt, senders, &moves, shares);
    last.hold(moves);
    Ok(())
}
